//! What was reached of a reading.

ghost use Rattle.std.specs.Prelude.{◌≡◌, [], ◌∷◌, ◌++◌, OnOk, IfErr};
ghost use Rattle.wb_types.specs.declared.refusal.Refusal.TheVariants.{Memory as OutOfMemory};
ghost use Rattle.wb_tree.specs.Reading.{is_one_at};

use crate::PlacedNode;
use std::alloc::Global;
use std::collections::HashSet;
use std::marker::Model;
use wb_types::{Place, Refusal};

/// What stands at a place of the metadata device.
pub trait Standing: Copy {
    ghost use Rattle.wb_types.specs.declared.number.Place.{Place as At};

    /// The place.
    ghost at: { Self → At };

    fn place(&self) -> Place
        ensures { result ≡ at self.now };
}

impl Standing for PlacedNode {
    ghost at = { λ node. node.place };

    fn place(&self) -> Place {
        self.place
    }
}

impl Standing for Place {
    ghost at = { λ place. place };

    fn place(&self) -> Place {
        *self
    }
}

/// Nodes, or places alone, in the order in which they were reached, and the set of their places.
#[derive(Drop)]
pub struct Reached<T: Standing> {
    items: Vec<T>,
    places: HashSet<u32>,
}

impl<T: Standing> Model for Reached<T> {
    ghost use Rattle.std.specs.Prelude.{◌≡◌, ℕ, List, nat_eq};
    ghost use Rattle.std.specs.HashSet.{contains};
    ghost use Rattle.wb_tree.specs.Reading.{is_one_at};

    ghost Value = { List T };

    ghost view = { λ r. r.items.items };

    ghost invariant = { λ r. (place : ℕ) → contains nat_eq r.places place ≡ is_one_at T.at place r.items.items };
}

impl<T: Standing> Reached<T> {
    /// Nothing was.
    pub fn new(alloc: Global) -> Reached<T>
        ensures { result ≡ [] }
    {
        Reached {
            items: Vec::new(alloc),
            places: HashSet::new(alloc),
        }
    }

    /// Whether this place was.
    pub fn contains(&self, place: Place) -> bool
        ensures { result ≡ is_one_at T.at place.0 self.now }
    {
        let Place(number) = place;
        self.places.contains(&number)
    }

    /// One item more. `Memory` where there is no room for it.
    pub fn push(&mut self, item: T) -> Result<(), Refusal>
        ensures ok { OnOk result (self.new ≡ self.old ++ item ∷ []) }
        ensures refused { IfErr result (λ refusal. refusal ≡ OutOfMemory) }
    {
        self.items.reserve(1)?;
        let Place(number) = item.place();
        if self.places.insert(number).is_err() {
            return Err(Refusal::Memory);
        }
        self.items.push_reserved(item);
        Ok(())
    }

    /// The items, in the order in which they were reached.
    pub fn into_items(self) -> Vec<T>
        ensures { result.items ≡ self }
    {
        let Reached { items, .. } = self;
        items
    }
}
