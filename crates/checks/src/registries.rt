//! Registries that can be no acquirer.
ghost use Rattle.std.specs.Prelude.{◌≡◌, ◌||◌, not};
ghost use Rattle.units.specs.Code.{same_code};
ghost use Rattle.protocol.specs.Registries.{has_member};

use scheme::Scheme;
use units::Code;

/// Whether the acquirer is unknown, or is the registry itself.
pub(crate) fn is_no_acquirer(scheme: &Scheme, code: Code, acquirer: Code) -> bool
    ensures { result ≡ (not (has_member scheme.now acquirer) || same_code acquirer code) }
{
    scheme.member(acquirer).is_none() || acquirer == code
}
