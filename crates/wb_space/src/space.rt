//! The states of the cache blocks and of the metadata places.

ghost use Rattle.std.specs.Prelude.{◌≡◌, ◌<◌, ◌^◌, ℕ, true, false, length, map, take, IfOk, IfErr, slice_set, slice_get, Some};
ghost use Rattle.std.specs.List.{position};
ghost use Rattle.std.specs.Bool.{OnTrue, OnFalse};
ghost use Rattle.std.specs.Option.{option_map};
ghost use Rattle.wb_space.specs.Blocks.{shown_holding, is_free, released, state, IsClaimed, commit_begun, commit_ended, opened_block};
ghost use Rattle.wb_space.specs.Places.{unused, noted, without, free_places, place, place_count};

use crate::{Block, Blocks, Holding, Places};
use std::alloc::Global;
use std::marker::Model;
use wb_bits::BitSet;
use wb_types::{CBlock, Geometry, Place, Refusal};

/// What each cache block is held for, and which metadata places are free.
///
/// A block whose entry was removed is quarantined until a commit that began after the removal has commit_ended:
/// till then an image that a crash may bring back can name it. Then it is free, or reserved where a live
/// replacement keeps it. Of the metadata places only those are kept track of that can ever be handed out: the
/// two root slots and, behind them, twice the nodes of a full mapping and once those of its dirty bits, where they have some.
pub struct Space {
    blocks: Blocks,
    places: Places,
}

impl Drop for Space {
    fn drop(self) {
        let Space { blocks, places } = self;
        drop(blocks);
        drop(places);
    }
}

impl Model for Space {
    ghost use Rattle.wb_space.specs.Spaces.{Spaces};

    ghost Value = { Spaces };

    ghost view = { λ s. record { blocks = s.blocks; places = s.places.in_use; committing = s.places.committing } };
}

impl Space {
    /// The states at an opening: whether each cache block has an entry in the mapping, and the places that its
    /// image uses. Places past those that can be handed out are passed over. `Memory` where there is none.
    pub fn new(
        alloc: Global,
        geometry: &Geometry,
        mapped: &[bool],
        used: &[Place],
    ) -> Result<Space, Refusal>
        requires { length mapped.now ≡ geometry.now.cache_blocks }
        ensures ok { IfOk result (λ space. space ≡ record {
          blocks = map opened_block mapped.now;
          places = record {
            committed = noted used.now (unused (place_count geometry.now));
            running = unused (place_count geometry.now);
          };
          committing = false;
        }) }
        ensures err { IfErr result (λ refusal. refusal ≡ Refusal.Memory) }
    {
        let places = place_count(geometry);
        Ok(Space {
            blocks: Blocks::new(alloc, mapped)?,
            places: Places::new(alloc, places, used)?,
        })
    }

    /// How many cache blocks there are.
    pub fn cache_blocks(&self) -> u32
        ensures { result ≡ length self.now.blocks }
    {
        self.blocks.count()
    }

    /// Whether a commit runs: one that has commit_begun and has not commit_ended.
    pub fn is_committing(&self) -> bool
        ensures { result ≡ self.now.committing }
    {
        self.places.is_committing()
    }

    /// Whether an order keeps this block: it is reserved, or will be at the end of its quarantine.
    pub fn is_kept(&self, c: CBlock) -> bool
        requires { c.0 < length self.now.blocks }
        ensures claimed { OnTrue result (IsClaimed (state self.now.blocks c.0)) }
        ensures other { OnFalse result (¬ IsClaimed (state self.now.blocks c.0)) }
    {
        let CBlock(at) = c;
        self.blocks.get(at as usize).is_kept()
    }

    /// What this block is held for.
    pub fn block(&self, c: CBlock) -> Holding
        requires { c.0 < length self.now.blocks }
        ensures { option_map shown_holding (slice_get self.now.blocks c.0) ≡ Some result }
    {
        let CBlock(at) = c;
        self.blocks.get(at as usize).shown()
    }

    /// The least free block; none where no block is free.
    pub fn least_free(&self) -> Option<CBlock>
        ensures { option_map (λ c. c.0) result ≡ position is_free self.now.blocks }
    {
        let at = self.blocks.least_free()?;
        Some(CBlock(at as u32))
    }

    /// A free block is reserved for an order.
    pub fn reserve(&mut self, c: CBlock)
        requires { slice_get self.old.blocks c.0 ≡ Some Block.Free }
        ensures { self.new ≡ record self.old { blocks = slice_set self.old.blocks c.0 Block.Reserved } }
    {
        let CBlock(at) = c;
        self.blocks.put(at as usize, Block::Reserved);
    }

    /// A reserved block has an entry now.
    pub fn map(&mut self, c: CBlock)
        requires { slice_get self.old.blocks c.0 ≡ Some Block.Reserved }
        ensures { self.new ≡ record self.old { blocks = slice_set self.old.blocks c.0 Block.Mapped } }
    {
        let CBlock(at) = c;
        self.blocks.put(at as usize, Block::Mapped);
    }

    /// The order that claimed this block is over: a reserved one becomes free, a quarantined one is claimed no longer.
    pub fn give_back(&mut self, c: CBlock)
        requires within { c.0 < length self.old.blocks }
        requires claimed { IsClaimed (state self.old.blocks c.0) }
        ensures { self.new ≡ record self.old {
          blocks = slice_set self.old.blocks c.0 (released (state self.old.blocks c.0));
        } }
    {
        let CBlock(at) = c;
        let block = self.blocks.get(at as usize);
        self.blocks.put(at as usize, block.released());
    }

    /// The entry of a mapped block was removed; `keep` where a live replacement is to fill the block.
    pub fn remove(&mut self, c: CBlock, keep: bool)
        requires { slice_get self.old.blocks c.0 ≡ Some Block.Mapped }
        ensures { self.new ≡ record self.old {
          blocks = slice_set self.old.blocks c.0 (Block.Quarantined keep false);
        } }
    {
        let CBlock(at) = c;
        let block = Block::Quarantined {
            claimed: keep,
            early: false,
        };
        self.blocks.put(at as usize, block);
    }

    /// A commit begins, whose image uses these places. A few words' work for each of them, and for each block
    /// that was removed since the last commit began.
    pub fn begin(&mut self, used: &[Place])
        requires { self.old.committing ≡ false }
        ensures { self.new ≡ record {
          blocks = map commit_begun self.old.blocks;
          places = record self.old.places { running = noted used.now (unused (length self.old.places.running)) };
          committing = true;
        } }
    {
        self.blocks.begin();
        self.places.begin(used);
    }

    /// A commit begins, whose image uses the places of the committed one, but those that left it, and those with which these
    /// begin; none is left then. A few words' work for each of both, and for each block that was removed since the last commit
    /// began.
    pub fn begin_changed<T>(&mut self, left: &mut BitSet, added: &[(Place, T)])
        requires idle { self.old.committing ≡ false }
        requires size { length left.old ≡ length self.old.places.committed }
        ensures space { self.new ≡ record {
          blocks = map commit_begun self.old.blocks;
          places = record self.old.places { running = noted (map (λ node. node.0) added.now) (without left.old self.old.places.committed) };
          committing = true;
        } }
        ensures left { left.new ≡ unused (length left.old) }
    {
        self.blocks.begin();
        self.places.begin_changed(left, added);
    }

    /// The running commit ends: what was removed before it began is free, or reserved where it is claimed. A few
    /// words' work for each of these blocks, and for each place by which its image differs from the one that it replaces.
    pub fn end(&mut self)
        requires { self.old.committing ≡ true }
        ensures { self.new ≡ record {
          blocks = map commit_ended self.old.blocks;
          places = record { committed = self.old.places.running; running = unused (length self.old.places.committed) };
          committing = false;
        } }
    {
        self.blocks.end();
        self.places.end();
    }

    /// The so many least free places from 2 on, rising; fewer where there are no more. `Memory` where there is
    /// none for the list.
    pub fn free_places(&self, alloc: Global, n: usize) -> Result<Vec<Place>, Refusal>
        ensures ok { IfOk result (λ v. v.items ≡ map place (take n (free_places self.now.places))) }
        ensures err { IfErr result (λ refusal. refusal ≡ Refusal.Memory) }
    {
        let places = self.places.free(alloc, n)?;
        Ok(places)
    }
}

/// How many metadata places can ever be handed out: the two slots, twice the nodes of a full mapping and, in the second version, once those
/// of its dirty bits.
pub fn place_count(geometry: &Geometry) -> usize
    ensures count { result ≡ place_count geometry.now }
    ensures small { result < 2 ^ 32 }
{
    let sizes = *geometry;
    2 + sizes.node_count() as usize + sizes.most_nodes(true) as usize
}
