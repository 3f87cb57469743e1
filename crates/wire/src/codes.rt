//! The codes of findings, as a notification carries them.
ghost use Rattle.std.specs.Prelude.{◌≡◌, ◌<◌, ◌↔◌, IsTrue, IfOk, IfSome, IfNone};
ghost use Rattle.wire.specs.Codes.{Ascends, AreLogCodes, AreAcquirerCodes};

use std::marker::Model;
use units::refusal_code::{
    ACQUIRER_NOT_ELIGIBLE, KIND_NOT_TAKEN, RECEIVER_UNKNOWN, WRONG_ACQUIRER,
};
use units::{Items, NoMemory};

/// The log's findings: one or more codes from `WRONG_ACQUIRER` to `ACQUIRER_NOT_ELIGIBLE`, strictly ascending.
#[derive(Debug)]
pub struct LogCodes {
    held: Items<u16>,
}

// Written out, since a derived destructor is proved anew in each crate that lets a value go.
impl Drop for LogCodes {
    fn drop(self) {
        let LogCodes { held } = self;
        drop(held);
    }
}

impl Model for LogCodes {
    ghost use Rattle.std.specs.Prelude.{ℕ, List};
    ghost use Rattle.wire.specs.Codes.{AreLogCodes};

    ghost Value = { List ℕ };

    ghost view = { λ c. c.held };

    ghost invariant = { λ c. AreLogCodes c.held };
}

/// The acquirer's findings: one or more codes from `RECEIVER_UNKNOWN` to `KIND_NOT_TAKEN`, strictly ascending.
#[derive(Debug)]
pub struct AcquirerCodes {
    held: Items<u16>,
}

// Written out, since a derived destructor is proved anew in each crate that lets a value go.
impl Drop for AcquirerCodes {
    fn drop(self) {
        let AcquirerCodes { held } = self;
        drop(held);
    }
}

impl Model for AcquirerCodes {
    ghost use Rattle.std.specs.Prelude.{ℕ, List};
    ghost use Rattle.wire.specs.Codes.{AreAcquirerCodes};

    ghost Value = { List ℕ };

    ghost view = { λ c. c.held };

    ghost invariant = { λ c. AreAcquirerCodes c.held };
}

/// Whether the codes ascend strictly from `first` to `last`.
fn ascends(codes: &[u16], first: u16, last: u16) -> bool
    requires { last < 1_000 }
    ensures { IsTrue result ↔ Ascends first last codes.now }
{
    let mut least = first;
    for code in codes {
        if *code < least || *code > last {
            return false;
        }
        least = *code + 1;
    }
    true
}

impl LogCodes {
    /// These codes, or `None` if there is none, one is outside that range, or they don't ascend.
    pub fn new(codes: Items<u16>) -> Option<LogCodes>
        ensures some { IfSome result (λ c. c ≡ codes) }
        ensures none { IfNone result (AreLogCodes codes → ⊥) }
    {
        if codes.as_slice().len() >= 1
            && ascends(codes.as_slice(), WRONG_ACQUIRER, ACQUIRER_NOT_ELIGIBLE)
        {
            Some(LogCodes { held: codes })
        } else {
            None
        }
    }

    /// The codes, 1 to 8.
    pub fn as_slice(&self) -> &[u16]
        ensures value { result.now ≡ self.now }
        ensures valid { AreLogCodes self.now }
    {
        self.held.as_slice()
    }

    /// Equal codes, or `NoMemory`.
    pub fn copy(&self) -> Result<LogCodes, NoMemory>
        ensures { IfOk result (λ c. c ≡ self.now) }
    {
        Ok(LogCodes {
            held: self.held.copy()?,
        })
    }
}

impl AcquirerCodes {
    /// These codes, or `None` if there is none, one is outside that range, or they don't ascend.
    pub fn new(codes: Items<u16>) -> Option<AcquirerCodes>
        ensures some { IfSome result (λ c. c ≡ codes) }
        ensures none { IfNone result (AreAcquirerCodes codes → ⊥) }
    {
        if codes.as_slice().len() >= 1
            && ascends(codes.as_slice(), RECEIVER_UNKNOWN, KIND_NOT_TAKEN)
        {
            Some(AcquirerCodes { held: codes })
        } else {
            None
        }
    }

    /// The codes, 1 to 4.
    pub fn as_slice(&self) -> &[u16]
        ensures value { result.now ≡ self.now }
        ensures valid { AreAcquirerCodes self.now }
    {
        self.held.as_slice()
    }

    /// Equal codes, or `NoMemory`.
    pub fn copy(&self) -> Result<AcquirerCodes, NoMemory>
        ensures { IfOk result (λ c. c ≡ self.now) }
    {
        Ok(AcquirerCodes {
            held: self.held.copy()?,
        })
    }
}
