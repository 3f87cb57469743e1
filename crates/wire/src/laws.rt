//! Laws of the texts of messages and records.
ghost use Rattle.std.specs.Prelude.{◌≡◌, List, ℕ};
ghost use Rattle.wire.specs.Messages.{IsLine};
ghost use Rattle.wire.specs.Records.{IsRecordText};
ghost use Rattle.wire.specs.declared.input.Input.{Input};
ghost use Rattle.wire.specs.declared.message.Message.{Message};
ghost use Rattle.wire.specs.declared.record_format.RecordFormat.{RecordFormat};
ghost use Rattle.wire.specs.declared.record_format.RecordFormat.TheVariants.{One, Two};

/// A line writes at most one message. Therefore the text that `encode` writes for a message is read as that message,
/// unless an allocation is refused.
pub fn one_message()
    ensures { (line : List ℕ) (m n : Message) → IsLine line m → IsLine line n → m ≡ n }
{}

/// In each format a text writes at most one input. Therefore the text that `encode_input` writes for an input is read
/// as that input, unless an allocation is refused. And no text writes an input in both formats.
pub fn one_input()
    ensures one { (format : RecordFormat) (text : List ℕ) (i j : Input) → IsRecordText format text i
        → IsRecordText format text j → i ≡ j }
    ensures apart { (text : List ℕ) (i j : Input) → IsRecordText One text i → IsRecordText Two text j → ⊥ }
{}
