//! The first words of lines.
ghost use Rattle.std.specs.Prelude.{◌≡◌, IfSome, IfNone};
ghost use Rattle.input_lines.specs.Verbs.{line_verb_text, verb_text};
ghost use Rattle.input_lines.specs.declared.verbs.LineVerb.{LineVerb as ALineVerb};
ghost use Rattle.input_lines.specs.declared.verbs.Verb.{Verb as AVerb};

/// The first word of an order.
#[derive(Clone, Copy)]
pub(crate) enum OrderVerb {
    Propose,
    Request,
    Open,
    Close,
    CleanUp,
    Eligible,
}

/// The first word of a line of a script, or of a node's operator.
#[derive(Clone, Copy)]
pub(crate) enum LineVerb {
    Order(OrderVerb),
    Status,
    Until,
}

/// The first word of an event's line.
#[derive(Clone, Copy)]
pub(crate) enum Verb {
    Order(OrderVerb),
    /// A node and a number follow.
    Numbered(Numbered),
    Deliver,
    Restart,
}

/// A first word that is followed by a node and a number, and is no order.
#[derive(Clone, Copy)]
pub(crate) enum Numbered {
    Ack,
    Commit,
    Post,
    Crash,
}

/// All first words of a line of a script, or of a node's operator.
const LINE_VERBS: &[LineVerb] = &[
    LineVerb::Order(OrderVerb::Propose),
    LineVerb::Order(OrderVerb::Request),
    LineVerb::Order(OrderVerb::Open),
    LineVerb::Order(OrderVerb::Close),
    LineVerb::Order(OrderVerb::CleanUp),
    LineVerb::Order(OrderVerb::Eligible),
    LineVerb::Status,
    LineVerb::Until,
];

/// All first words of an event's line.
const VERBS: &[Verb] = &[
    Verb::Order(OrderVerb::Propose),
    Verb::Order(OrderVerb::Request),
    Verb::Order(OrderVerb::Open),
    Verb::Order(OrderVerb::Close),
    Verb::Order(OrderVerb::CleanUp),
    Verb::Order(OrderVerb::Eligible),
    Verb::Numbered(Numbered::Ack),
    Verb::Numbered(Numbered::Commit),
    Verb::Numbered(Numbered::Post),
    Verb::Deliver,
    Verb::Numbered(Numbered::Crash),
    Verb::Restart,
];

impl OrderVerb {
    ghost use Rattle.input_lines.specs.Verbs.{order_verb_text};

    fn name(self) -> &'static str
        ensures { result.now ≡ order_verb_text self }
    {
        match self {
            OrderVerb::Propose => "propose",
            OrderVerb::Request => "request",
            OrderVerb::Open => "open",
            OrderVerb::Close => "close",
            OrderVerb::CleanUp => "clean-up",
            OrderVerb::Eligible => "eligible",
        }
    }
}

impl LineVerb {
    /// The verb that a word writes.
    pub(crate) fn read(word: &str) -> Option<LineVerb>
        ensures some { IfSome result (λ v. word.now ≡ line_verb_text v) }
        ensures none { IfNone result ((v : ALineVerb) → word.now ≡ line_verb_text v → ⊥) }
    {
        for verb in LINE_VERBS {
            if word == verb.name() {
                return Some(*verb);
            }
        }
        None
    }

    fn name(self) -> &'static str
        ensures { result.now ≡ line_verb_text self }
    {
        match self {
            LineVerb::Order(verb) => verb.name(),
            LineVerb::Status => "status",
            LineVerb::Until => "until",
        }
    }
}

impl Verb {
    /// The verb that a word writes.
    pub(crate) fn read(word: &str) -> Option<Verb>
        ensures some { IfSome result (λ v. word.now ≡ verb_text v) }
        ensures none { IfNone result ((v : AVerb) → word.now ≡ verb_text v → ⊥) }
    {
        for verb in VERBS {
            if word == verb.name() {
                return Some(*verb);
            }
        }
        None
    }

    fn name(self) -> &'static str
        ensures { result.now ≡ verb_text self }
    {
        match self {
            Verb::Order(verb) => verb.name(),
            Verb::Numbered(verb) => verb.name(),
            Verb::Deliver => "deliver",
            Verb::Restart => "restart",
        }
    }
}

impl Numbered {
    ghost use Rattle.input_lines.specs.Verbs.{numbered_text};

    fn name(self) -> &'static str
        ensures { result.now ≡ numbered_text self }
    {
        match self {
            Numbered::Ack => "ack",
            Numbered::Commit => "commit",
            Numbered::Post => "post",
            Numbered::Crash => "crash",
        }
    }
}
