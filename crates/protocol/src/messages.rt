//! Lists of messages.
ghost use Rattle.std.specs.Prelude.{◌≡◌, [], ◌∷◌, IfOk};

use std::alloc::Global;
use units::{Items, NoMemory};
use wire::Message;

/// A list of one message; or `NoMemory`.
pub fn one_message(alloc: Global, message: Message) -> Result<Items<Message>, NoMemory>
    ensures { IfOk result (λ messages. messages ≡ message ∷ []) }
{
    let mut messages = Vec::new(alloc);
    messages.push(message)?;
    Ok(Items::from_vec(messages))
}
