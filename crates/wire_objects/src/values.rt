//! Values at the keys of an object.
ghost use Rattle.std.specs.Prelude.{◌≡◌, ◌↔◌, IsTrue};
ghost use Rattle.serde_json.specs.Data.{string};
ghost use Rattle.serde_json.specs.View.{view};
ghost use Rattle.units.specs.Code.{code_text, node_text};
ghost use Rattle.status.specs.Id.{id_text};
ghost use Rattle.json_fields.specs.Fields.{HasAt};
ghost use Rattle.json_fields.specs.Found.{Reads};
ghost use Rattle.wire.specs.Objects.{whole};

use json_fields::{number_at, text_at};
use serde_json::Value;
use status::{Moment, TransactionId};
use units::{Code, Node};
use wire::Number;

/// Whether the object has that text at the key.
pub fn has_text(value: &Value, key: &str, text: &str) -> bool
    ensures { IsTrue result ↔ HasAt (view value.now) key.now (string text.now) }
{
    match text_at(value, key) {
        Some(found) => found == text,
        None => false,
    }
}

/// Whether the object has that whole number at the key.
pub fn has_number(value: &Value, key: &str, number: u64) -> bool
    ensures { IsTrue result ↔ HasAt (view value.now) key.now (whole number) }
{
    match number_at(value, key) {
        Some(found) => found == number,
        None => false,
    }
}

/// The node at that key.
pub fn node_at(value: &Value, key: &str) -> Option<Node>
    ensures { Reads (λ n. HasAt (view value.now) key.now (string (node_text n))) result }
{
    let text = text_at(value, key)?;
    Node::read(text)
}

/// The registry's code at that key.
pub fn code_at(value: &Value, key: &str) -> Option<Code>
    ensures { Reads (λ c. HasAt (view value.now) key.now (string (code_text c))) result }
{
    let text = text_at(value, key)?;
    Code::read(text)
}

/// The transaction at that key.
pub fn id_at(value: &Value, key: &str) -> Option<TransactionId>
    ensures { Reads (λ t. HasAt (view value.now) key.now (string (id_text t))) result }
{
    let text = text_at(value, key)?;
    TransactionId::read(text)
}

/// The whole number at that key, below 2^64.
pub fn whole_at(value: &Value, key: &str) -> Option<u64>
    ensures { Reads (λ n. HasAt (view value.now) key.now (whole n)) result }
{
    number_at(value, key)
}

/// The number of at most `MOST_DIGITS` digits at that key.
pub fn short_at(value: &Value, key: &str) -> Option<Number>
    ensures { Reads (λ n. HasAt (view value.now) key.now (whole n.value)) result }
{
    let number = number_at(value, key)?;
    Number::new(number)
}

/// The moment at that key.
pub fn moment_at(value: &Value, key: &str) -> Option<Moment>
    ensures { Reads (λ t. HasAt (view value.now) key.now (whole t.seconds)) result }
{
    let number = number_at(value, key)?;
    Moment::new(number)
}
