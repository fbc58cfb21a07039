//! What the policy's sketch says after any accesses.

ghost use Rattle.std.specs.Prelude.{◌≡◌, ℕ, List};
ghost use Rattle.wb_policy.specs.TinyLfu.{Knowledge, known_after_all};
ghost use Rattle.wb_sketch.specs.Frequencies.{after_accesses, empty};

/// For every list of accesses since the policy was made, what its sketch says is the sketch's own function of that list.
pub fn accesses_law()
    ensures { (k : Knowledge) (cache_blocks : ℕ) (blocks : List ℕ) → k.frequencies ≡ empty cache_blocks
        → (known_after_all k blocks).frequencies ≡ after_accesses cache_blocks blocks }
{}
