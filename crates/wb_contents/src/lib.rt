//! What happens to the contents of the devices over many lives of a target, whatever tasks, locks and metadata do it:
//! definitions and a law, no code. A layer that shows that each of its steps is such an act, and meets its condition,
//! has the promises.
#![tactic(auto)]

ghost use Rattle.std.specs.Prelude.{ℕ, List};
ghost use Rattle.wb_types.specs.declared.mode.Mode.{Mode};
ghost use Rattle.wb_types.specs.declared.mode.Mode.TheVariants.{Writeback};
ghost use Rattle.wb_disk.specs.Device.{Content};
ghost use Rattle.wb_contents.specs.Acts.{Act, volume_after_all};
ghost use Rattle.wb_contents.specs.Conditions.{IsRunOfActs};
ghost use Rattle.wb_contents.specs.Promises.{IsConsistent, IsEntryFrom, first_volume};
ghost use Rattle.wb_contents.specs.Devices.{ReadIsNewest, WriteIsAct, SyncIsAct, FailedSyncIsAct, CrashIsAct};
ghost use Rattle.wb_contents.specs.Examples.{blank_volume, nothing, Breaks, two_lives, a_third_life, flushed_one, stale_copy, suspend_root_before_its_syncs, flush_by_an_older_commit, flush_of_syncs_alone, root_before_its_syncs, opening_without_the_origin_sync, committed_cache_block_filled, dirty_block_removed_uncopied, passthrough_over_a_dirty_block};

/// After any run of acts whose conditions are met, over any number of crashes, ends and openings, in any mode: a read gives
/// the last entry of its sector's history, and whatever a crash leaves, and whatever an opening shows, is an entry at or
/// after the durable floor.
pub fn lives_are_consistent()
    ensures { (m : Mode) (c : ℕ → ℕ → Content) (acts : List Act) → IsRunOfActs (first_volume m c) acts → IsConsistent (volume_after_all (first_volume m c) acts) }
{}

/// Runs that leave out one condition each, after which the promises do not hold; and one state that no run reaches, in
/// which a copy that is older than the last finished write breaks them.
pub fn conditions_are_needed()
    ensures suspend_root_before_its_syncs { Breaks suspend_root_before_its_syncs }
    ensures flush_by_an_older_commit { Breaks flush_by_an_older_commit }
    ensures flush_of_syncs_alone { Breaks flush_of_syncs_alone }
    ensures root_before_its_syncs { Breaks root_before_its_syncs }
    ensures opening_without_the_origin_sync { Breaks opening_without_the_origin_sync }
    ensures committed_cache_block_filled { Breaks committed_cache_block_filled }
    ensures dirty_block_removed_uncopied { Breaks dirty_block_removed_uncopied }
    ensures passthrough_over_a_dirty_block { Breaks passthrough_over_a_dirty_block }
    ensures an_entry { IsEntryFrom 0 (flushed_one.histories 0 0) nothing }
    ensures stale_copy { IsConsistent stale_copy → ⊥ }
{}

/// A run over three lives, in each mode once, that meets every condition: the law is not empty.
pub fn conditions_can_be_met()
    ensures two_lives { IsRunOfActs (first_volume Writeback blank_volume) two_lives }
    ensures a_third_life { IsRunOfActs (volume_after_all (first_volume Writeback blank_volume) two_lives) a_third_life }
{}

/// A device's steps on its list of sectors are acts on the same sectors seen by block and offset.
pub fn device_steps_are_acts()
    ensures read { ReadIsNewest }
    ensures write { WriteIsAct }
    ensures sync { SyncIsAct }
    ensures failed_sync { FailedSyncIsAct }
    ensures crash { CrashIsAct }
{}
