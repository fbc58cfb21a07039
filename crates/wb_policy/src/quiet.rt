//! A policy that orders nothing.

ghost use Rattle.std.specs.Prelude.{Some, None, codes, refl, ◌≡◌};

use crate::{Order, Policy, Settled, Tick};
use std::alloc::Global;
use wb_types::{CBlock, Entry, Geometry, Key, OBlock, Refusal};

/// Orders nothing, for a cache whose migrations are started by hand.
#[derive(Drop)]
pub struct Quiet;

impl Policy for Quiet {
    ghost use Rattle.std.specs.Prelude.{None, codes, refl};

    ghost knows = { λ _ _. Unit {0} };

    ghost begun = { λ _ _ _. Unit {0} };

    ghost ordered = { λ _ _. None };

    ghost settled = { λ p _. p };

    ghost cleaned = { λ _ _ _. None };

    ghost ticked = { λ p _ _. p };

    ghost with_entry = { λ p _ _. p };

    ghost without_entry = { λ p _. p };

    ghost hint_of = { λ _ _. 0 };

    ghost with_setting = { λ _ _ _. None };

    ghost name = { codes "quiet" };

    ghost promote_min = { λ _. None };

    fn new(
        _alloc: Global,
        _geometry: &Geometry,
        _mapping: &[Option<Entry>],
    ) -> Result<Quiet, Refusal> {
        Ok(Quiet)
    }

    fn settle(&mut self, _access: &Settled<'_>) -> Option<Order> {
        None
    }

    fn tick(&mut self, _tick: &Tick<'_>, _given: u32) -> Option<Order> {
        None
    }

    fn mapped(&mut self, _b: OBlock, _c: CBlock) -> Result<(), Refusal> {
        Ok(())
    }

    fn unmapped(&mut self, _b: OBlock) {}

    fn hint(&self, _b: OBlock) -> u8 {
        0
    }

    fn set(&mut self, _key: Key, _value: u64) -> Result<(), Refusal> {
        Err(Refusal::BadMessage)
    }

    fn shown(&self) -> (&'static str, Option<u64>) {
        ("quiet", None)
    }
}
