//! Sets of blocks.

ghost use Rattle.std.specs.Prelude.{◌≡◌, ◌<◌, ◌^◌, IfOk, length};

use std::alloc::Global;
use wb_bits::BitSet;
use wb_types::Refusal;

/// Some blocks of a cache.
#[derive(Clone, Copy)]
pub enum Blocks {
    None,
    One(usize),
    Last,
    /// The first and each 64th behind it.
    Every64th,
    All,
}

impl Blocks {
    /// Whether a block of so many is one of them.
    fn have(self, block: usize, size: usize) -> bool {
        match self {
            Blocks::None => false,
            Blocks::One(one) => block == one,
            Blocks::Last => block == size.saturating_sub(1),
            Blocks::Every64th => block % 64 == 0,
            Blocks::All => true,
        }
    }
}

/// These blocks of so many.
pub fn set_of(alloc: Global, size: u32, blocks: Blocks) -> Result<BitSet, Refusal>
    requires { size < 2 ^ 20 }
    ensures { IfOk result (λ set. length set ≡ size) }
{
    let size = size as usize;
    let mut set = BitSet::new(alloc, size)?;
    for block in 0..size {
        if blocks.have(block, size) {
            set.insert(block);
        }
    }
    Ok(set)
}
