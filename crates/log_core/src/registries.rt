//! The registries as the log knows them: which ones the scheme has, and the last orders on which may take part in
//! transfers.
ghost use Rattle.std.specs.BTreeMap as tree;
ghost use Rattle.std.specs.Prelude.{◌≡◌, OnOk, OnErr, Some, if◌then◌else◌};
ghost use Rattle.units.specs.Code.{same_code};
ghost use Rattle.units.specs.Keys.{code_cmp};
ghost use Rattle.units.specs.declared.code.Code as declared_code;
ghost use Rattle.protocol.specs.Registries.{has_member};

use scheme::Scheme;
use std::collections::BTreeMap;
use units::{Code, NoMemory};

/// Whether the scheme has the registry.
pub(crate) fn is_member(scheme: &Scheme, code: Code) -> bool
    ensures { result ≡ has_member scheme.now code }
{
    scheme.member(code).is_some()
}

/// Makes that order the last one for the registry. After `NoMemory` nothing has changed.
pub(crate) fn order(
    orders: &mut BTreeMap<Code, bool>,
    code: Code,
    may: bool,
) -> Result<(), NoMemory>
    ensures ok { OnOk result ((d : declared_code.Code)
        → tree.get code_cmp orders.new d ≡ (if same_code code d then Some may else tree.get code_cmp orders.old d)) }
    ensures err { OnErr result (orders.new.entries ≡ orders.old.entries) }
{
    orders.insert(code, may)?;
    Ok(())
}
