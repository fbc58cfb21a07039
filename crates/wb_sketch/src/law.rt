//! What a sketch says, beside the exact frequencies.

ghost use Rattle.std.specs.Prelude.{◌≡◌, ◌≤◌, ℕ, List};
ghost use Rattle.wb_sketch.specs.Alone.{HasOwnDoor, IsAloneInARow};
ghost use Rattle.wb_sketch.specs.Exact.{exact_frequency};
ghost use Rattle.wb_sketch.specs.Frequencies.{after_accesses, estimate_of};

/// For every cache and every list of accesses, an estimate is never less than the exact frequency: counted
/// with no hashing, a number up to 15 and a membership for each block, halved where the sketch resets.
/// It is equal to it where, among the blocks accessed, no other shares the block's place in some one row,
/// and none has some one doorkeeper place of the block.
pub fn estimate_law()
    ensures never_less { (cache_blocks : ℕ) (blocks : List ℕ) (block : ℕ) → exact_frequency cache_blocks blocks block ≤ estimate_of (after_accesses cache_blocks blocks) block }
    ensures exact_where_alone { (cache_blocks : ℕ) (blocks : List ℕ) (block : ℕ) → IsAloneInARow cache_blocks blocks block → HasOwnDoor cache_blocks blocks block
        → estimate_of (after_accesses cache_blocks blocks) block ≡ exact_frequency cache_blocks blocks block }
{}
