//! Registries in the order of the text, and in byte order.
ghost use Rattle.std.specs.Prelude.{◌≡◌, List, IsPermutation};
ghost use Rattle.scheme.specs.Reading.{AreSorted};
ghost use Rattle.scheme.specs.declared.members.SchemeRegistry.{SchemeRegistry};

use crate::members::SchemeRegistry;
use std::marker::Model;
use units::Items;

/// Registries in the order in which a text lists them.
#[derive(Drop)]
pub struct UnsortedRegistries {
    held: Vec<SchemeRegistry>,
}

impl Model for UnsortedRegistries {
    ghost Value = { List SchemeRegistry };

    ghost view = { λ s. s.held.items };
}

impl UnsortedRegistries {
    /// The registries of `held`, which is kept. Takes no memory.
    pub fn from_vec(held: Vec<SchemeRegistry>) -> UnsortedRegistries
        ensures { result ≡ held.items }
    {
        UnsortedRegistries { held }
    }

    /// The registries in byte order of their codes.
    pub fn into_sorted(self) -> Items<SchemeRegistry>
        ensures moved { IsPermutation self result }
        ensures sorted { AreSorted result }
    {
        let UnsortedRegistries { mut held } = self;
        held.sort_unstable_by_key(|member| member.code);
        Items::from_vec(held)
    }
}
