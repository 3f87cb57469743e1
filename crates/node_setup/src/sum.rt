//! The sum of a scheme.
ghost use Rattle.std.specs.Prelude.{◌≡◌, IfOk, string_bytes};
ghost use Rattle.node_setup.specs.Sums.{sum_text};

use protocol::scheme::Scheme;
use sha2::{Digest, Sha256};
use std::alloc::Global;
use units::NoMemory;

/// The sum of a scheme: 64 lower-case hexadecimal digits, of SHA-256 (FIPS 180-4) over the canonical text of the scheme
/// without a newline.
///
/// # Errors
///
/// Fails with `NoMemory` if memory ran out.
pub fn sum_of(alloc: Global, scheme: &Scheme) -> Result<String, NoMemory>
    ensures { IfOk result (λ text. string_bytes text ≡ sum_text scheme.now) }
{
    let text = scheme.text(alloc)?;
    let digest = Sha256::digest(text.as_slice());
    Ok(hex::encode(alloc, digest.as_slice())?)
}
