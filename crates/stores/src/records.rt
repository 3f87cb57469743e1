//! Conversions between records and the bodies at places.
ghost use Rattle.std.specs.Prelude.{◌≡◌, ◌≤◌, ◌+◌, ◌-◌, ◌⊎◌, ℕ, IfOk, IfErr, OnOk, map, length, Some};
ghost use Rattle.stores.specs.Bodies.{items};
ghost use Rattle.stores.specs.Records.{Places, AreRecords, IsDamagedAt, written};
ghost use Rattle.stores.specs.Records.{unbroken};
ghost use Rattle.stores.specs.declared.fault.StoreFault.TheVariants.{NoMemory as OutOfMemory, Damaged};

use crate::fault::StoreFault;
use std::alloc::Global;
use units::NoMemory;
use wire::{Input, TextFault, encode_input};
use wire_lines::decode_input;

/// The texts of the records of a batch, in their order.
pub fn encode_records(alloc: Global, batch: &[Input]) -> Result<Vec<Vec<u8>>, NoMemory>
    ensures texts { IfOk result (λ texts. map (λ body. Some body) (map items texts.items) ≡ written batch.now) }
    ensures records { OnOk result (AreRecords (written batch.now) batch.now) }
{
    let mut texts = Vec::new(alloc);
    for input in batch {
        let text = encode_input(alloc, input)?;
        texts.push(text)?;
    }
    Ok(texts)
}

/// The records of bodies at the places from `first` on. There should be a body at each place up to `until`.
///
/// Fails with `Damaged(p)` where the body at place `p` is no record's, or is missing.
pub fn decode_records(
    alloc: Global,
    bodies: &[&[u8]],
    first: u64,
    until: u64,
) -> Result<Vec<Input>, StoreFault>
    requires ordered { first + length bodies.now ≤ until }
    ensures ok { IfOk result (λ inputs. (places : Places) → length places ≡ until - first
        → unbroken places ≡ map (λ b. b.now) bodies.now → AreRecords places inputs.items) }
    ensures damaged { IfErr result (λ e. (p : ℕ) → e ≡ Damaged p → (first ≤ p)
        × ((places : Places) → length places ≡ until - first → unbroken places ≡ map (λ b. b.now) bodies.now
        → IsDamagedAt (p - first) places)) }
    ensures named { IfErr result (λ e. (e ≡ OutOfMemory) ⊎ ((p : ℕ) × (e ≡ Damaged p))) }
{
    let mut inputs = Vec::new(alloc);
    for (at, body) in bodies.iter().enumerate() {
        match decode_input(alloc, body) {
            Ok(input) => inputs.push(input)?,
            Err(TextFault::NoMemory) => return Err(StoreFault::NoMemory),
            Err(TextFault::Shape) => return Err(StoreFault::Damaged(first + at as u64)),
        }
    }
    let next = first + bodies.len() as u64;
    if next < until {
        return Err(StoreFault::Damaged(next));
    }
    Ok(inputs)
}
