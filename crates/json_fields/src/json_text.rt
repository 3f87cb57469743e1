//! Compact JSON that is written token by token, or member by member of an object.
ghost use Rattle.std.specs.Prelude.{◌≡◌, ◌++◌, ◌∷◌, [], decimal, IfOk, OnOk};
ghost use Rattle.std.specs.Str.{IsUtf8};
ghost use Rattle.json.specs.Lex.{tokens};
ghost use Rattle.json.specs.Print.{print};
ghost use Rattle.json.specs.Token.{begin_object, end_object, begin_array, end_array, key, string, number, boolean};
ghost use Rattle.json_fields.specs.Objects.{whole};
ghost use Rattle.json_fields.specs.Writing.{after_field};
ghost use Rattle.serde_json.specs.Data as values;

use json::Writer;
use std::alloc::Global;
use std::marker::Model;
use units::NoMemory;

/// The number of bytes for which a text has room from the start. Most messages and records are no longer.
const ROOM: usize = 256;

/// A text of JSON that is being written, without blanks, seen in contracts as its tokens. The caller has to nest the
/// tokens correctly.
#[derive(Drop)]
pub struct JsonText {
    writer: Writer,
}

impl Model for JsonText {
    ghost use Rattle.std.specs.Prelude.{◌≡◌, List, []};
    ghost use Rattle.json.specs.Token.{Token, tokens_code};

    ghost Value = { List Token };

    ghost coded = { tokens_code };

    ghost view = { λ t. t.writer.tokens };

    ghost invariant = { λ t. t.writer.before ≡ [] };
}

impl JsonText {
    /// A text without tokens; or `NoMemory`.
    pub fn new(alloc: Global) -> Result<JsonText, NoMemory>
        ensures { IfOk result (λ t. t ≡ []) }
    {
        let bytes = Vec::with_capacity(alloc, ROOM)?;
        Ok(JsonText {
            writer: Writer::new(bytes),
        })
    }

    /// The text.
    pub fn into_bytes(self) -> Vec<u8>
        ensures text { result.items ≡ print self }
        ensures reads_back { tokens (print self) ≡ self }
        ensures utf8 { IsUtf8 (print self) }
    {
        self.writer.into_inner()
    }

    /// Writes the beginning of an object.
    pub fn begin_object(&mut self) -> Result<(), NoMemory>
        ensures { OnOk result (self.new ≡ self.old ++ begin_object ∷ []) }
    {
        Ok(self.writer.begin_object()?)
    }

    /// Writes the end of an object.
    pub fn end_object(&mut self) -> Result<(), NoMemory>
        ensures { OnOk result (self.new ≡ self.old ++ end_object ∷ []) }
    {
        Ok(self.writer.end_object()?)
    }

    /// Writes the beginning of an array.
    pub fn begin_array(&mut self) -> Result<(), NoMemory>
        ensures { OnOk result (self.new ≡ self.old ++ begin_array ∷ []) }
    {
        Ok(self.writer.begin_array()?)
    }

    /// Writes the end of an array.
    pub fn end_array(&mut self) -> Result<(), NoMemory>
        ensures { OnOk result (self.new ≡ self.old ++ end_array ∷ []) }
    {
        Ok(self.writer.end_array()?)
    }

    /// Writes a key.
    pub fn key(&mut self, name: &str) -> Result<(), NoMemory>
        ensures { OnOk result (self.new ≡ self.old ++ key name.now ∷ []) }
    {
        Ok(self.writer.key(name)?)
    }

    /// Writes a text.
    pub fn string(&mut self, text: &str) -> Result<(), NoMemory>
        ensures { OnOk result (self.new ≡ self.old ++ string text.now ∷ []) }
    {
        Ok(self.writer.string(text)?)
    }

    /// Writes a whole number.
    pub fn number(&mut self, value: u64) -> Result<(), NoMemory>
        ensures { OnOk result (self.new ≡ self.old ++ number (decimal value) ∷ []) }
    {
        Ok(self.writer.u64(value)?)
    }

    /// Writes `true` or `false`.
    pub fn boolean(&mut self, value: bool) -> Result<(), NoMemory>
        ensures { OnOk result (self.new ≡ self.old ++ boolean value ∷ []) }
    {
        Ok(self.writer.boolean(value)?)
    }

    /// Writes a member that is a text.
    pub fn put_text(&mut self, key: &str, text: &str) -> Result<(), NoMemory>
        ensures { OnOk result (self.new ≡ after_field self.old (key.now, values.string text.now)) }
    {
        self.key(key)?;
        self.string(text)
    }

    /// Writes a member that is a whole number.
    pub fn put_number(&mut self, key: &str, number: u64) -> Result<(), NoMemory>
        ensures { OnOk result (self.new ≡ after_field self.old (key.now, whole number)) }
    {
        self.key(key)?;
        self.number(number)
    }

    /// Writes a member that is `true` or `false`.
    pub fn put_boolean(&mut self, key: &str, value: bool) -> Result<(), NoMemory>
        ensures { OnOk result (self.new ≡ after_field self.old (key.now, values.boolean value)) }
    {
        self.key(key)?;
        self.boolean(value)
    }
}
