//! Transaction identifiers.
ghost use Rattle.std.specs.Prelude.{◌≡◌, IfOk, IfSome, IfNone, string_bytes};
ghost use Rattle.status.specs.Facts.{IsTransactionNumber};

use std::alloc::Global;
use std::fmt;
use units::limits::LAST_TRANSACTION;
use units::{Code, NoMemory, number};

/// A transaction: the code of the registry that proposed it, and that registry's number for it,
/// 1 to `LAST_TRANSACTION`.
#[derive(Clone, Copy, Debug, PartialEq, Eq, PartialOrd, Ord)]
pub struct TransactionId {
    pub code: Code,
    /// 1 to `LAST_TRANSACTION`.
    pub number: u32,
    pub ghost in_range: { IsTransactionNumber number },
}

impl TransactionId {
    ghost use Rattle.status.specs.Id.{id_text, id_at};
    ghost use Rattle.status.specs.declared.id.TransactionId.{TransactionId};

    /// The least identifier, in the order of codes and numbers.
    pub const LEAST: TransactionId = TransactionId {
        code: Code {
            first: b'A',
            second: b'A',
        },
        number: 1,
    };

    /// The identifier of that code and number, where the number is in range.
    pub fn new(code: Code, number: u32) -> Option<TransactionId>
        ensures some { IfSome result (λ t. (t.code ≡ code) × (t.number ≡ number)) }
        ensures none { IfNone result (IsTransactionNumber number → ⊥) }
        ensures value { result ≡ id_at code number }
    {
        if (1..=LAST_TRANSACTION).contains(&number) {
            Some(TransactionId { code, number })
        } else {
            None
        }
    }

    /// The identifier that a text writes, such as `NZ1`: the code, then the number without leading zeros.
    pub fn read(text: &str) -> Option<TransactionId>
        ensures some { IfSome result (λ t. text.now ≡ id_text t) }
        ensures none { IfNone result ((t : TransactionId) → text.now ≡ id_text t → ⊥) }
    {
        let (code, rest) = text.split_at_checked(2)?;
        let code = Code::read(code)?;
        let count = number(rest)?;
        if count > LAST_TRANSACTION as u64 {
            return None;
        }
        TransactionId::new(code, count as u32)
    }

    /// Its text, which `read` reads back.
    pub fn write(&self, alloc: Global) -> Result<String, NoMemory>
        ensures { IfOk result (λ s. string_bytes s ≡ id_text self.now) }
    {
        Ok(format!(in alloc; "{self}")?)
    }
}

impl fmt::Display for TransactionId {
    ghost use Rattle.std.specs.Prelude.{Some};
    ghost use Rattle.status.specs.Id.{id_text};

    ghost output = { λ t. Some (id_text t) };

    fn fmt<W: fmt::Write>(&self, f: &mut fmt::Formatter<W>) -> fmt::Result {
        let code = self.code;
        let number = self.number;
        write!(f, "{code}{number}")
    }
}
