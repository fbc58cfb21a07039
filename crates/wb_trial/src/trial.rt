//! A tree that is changed and planned over and over.

use crate::{change, plan_at};
use std::alloc::Global;
use std::marker::Model;
use wb_tree::Tree;
use wb_types::{CBlock, Geometry, Refusal};

/// A tree of which each cache block holds the origin block of its own number or none, and each image goes behind the one
/// before.
#[derive(Drop)]
pub struct Trial {
    geometry: Geometry,
    tree: Tree<Global>,
    next: u32,
}

impl Model for Trial {
    ghost use Rattle.wb_tree.specs.Mapping.{Mapping};
    ghost use Rattle.wb_trial.specs.Own.{IsTrial};

    ghost Value = { Mapping };

    ghost view = { λ t. t.tree };

    ghost invariant = { λ t. IsTrial t.geometry t.tree t.next };
}

impl Trial {
    /// None of so many cache blocks is mapped. `Geometry` where no cache has so many.
    pub fn new(alloc: Global, cache_blocks: u32) -> Result<Trial, Refusal> {
        let geometry = Geometry::new(64, u64::from(cache_blocks), 1_048_576, 4_294_967_295)?;
        Ok(Trial {
            geometry,
            tree: Tree::new(alloc, geometry.cache_blocks),
            next: 2,
        })
    }

    /// The hint of a cache block; none where it has no entry, or is not there.
    pub fn hint(&self, block: u32) -> Option<u8> {
        if block >= self.geometry.cache_blocks {
            return None;
        }
        match self.tree.get(CBlock(block)) {
            Some(entry) => Some(entry.hint),
            None => None,
        }
    }

    /// Gives a cache block this hint, 16 at most, or takes its entry away. `Range` where it is not there, `Memory` where
    /// there is no room.
    pub fn change(&mut self, block: u32, hint: Option<u8>) -> Result<(), Refusal> {
        if block >= self.geometry.cache_blocks {
            return Err(Refusal::Range);
        }
        change(&mut self.tree, block, hint)
    }

    /// The next image, behind the one before; gives how many nodes it writes. `Busy` where the places are at their end,
    /// `Memory` where there is no room.
    pub fn plan(&mut self, alloc: Global) -> Result<u32, Refusal> {
        let image = plan_at(alloc, &mut self.tree, &self.geometry, 1, self.next)?;
        let count = image.nodes.len().min(4_294_967_295) as u32;
        self.next = self.next.wrapping_add(count).max(2);
        Ok(count)
    }
}
