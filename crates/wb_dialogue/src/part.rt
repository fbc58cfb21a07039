//! The parts of a request.

ghost use Rattle.std.specs.Prelude.{◌≡◌, ◌<◌, ◌≤◌, ◌+◌, ◌*◌, ◌/◌, ◌%◌, ◌⊎◌};

use wb_types::OBlock;

/// The sectors of a request that lie in one block.
#[derive(Clone, Copy)]
pub struct Part {
    pub block: OBlock,
    pub first: u64,
    pub count: u64,
}

/// The first part of a request over the sectors from `first` up to `end`, with blocks of so many sectors: up to
/// the end of its block, or to that of the request.
pub fn first_part(block_sectors: u32, first: u64, end: u64) -> Part
    requires some { first < end }
    requires sized { 0 < block_sectors }
    requires numbered { end ≤ block_sectors * 1048576 }
    ensures first { result.first ≡ first }
    ensures count { 0 < result.count }
    ensures within { result.first + result.count ≤ end }
    ensures block { result.block.0 ≡ first / block_sectors }
    ensures in_block { first % block_sectors + result.count ≤ block_sectors }
    ensures whole { (result.first + result.count ≡ end) ⊎ (first % block_sectors + result.count ≡ block_sectors) }
{
    let size = u64::from(block_sectors);
    let room = size - first % size;
    Part {
        block: OBlock((first / size) as u32),
        first,
        count: room.min(end - first),
    }
}
