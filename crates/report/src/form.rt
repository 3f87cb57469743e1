//! The forms in which commands write.
ghost use Rattle.std.specs.Prelude.{◌≡◌};
ghost use Rattle.report.specs.ReportLines.{end_line};

/// The form in which a command writes.
#[derive(Clone, Copy, Debug, PartialEq, Eq)]
pub enum Form {
    /// Lines of words, and the last line `end`.
    Lines,
    /// One JSON object per line.
    Json,
}

/// The last line of a text in that form, with its newline.
pub fn end_line(form: Form) -> &'static [u8]
    ensures { result.now ≡ end_line form }
{
    match form {
        Form::Lines => b"end\n",
        Form::Json => b"{\"line\":\"end\"}\n",
    }
}
