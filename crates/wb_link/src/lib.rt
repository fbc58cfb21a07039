//! The tasks of a cache as an abstract machine, and that each of its runs is a run of the contents machine (wb_contents):
//! definitions and laws, no code. The world is abstract: sectors by block and offset, exchanges on lock words that are one
//! step, the images of the metadata for their sectors. What performs real steps has these laws once it is shown that each of
//! its steps is a list of steps of this world.
#![tactic(auto)]

ghost use Rattle.std.specs.Prelude.{◌≡◌, ℕ, true, List, []};
ghost use Rattle.wb_disk.specs.Device.{Content};
ghost use Rattle.wb_link.specs.World.{IsAbstractRun, abstract_begins};
ghost use Rattle.wb_link.specs.Openings.{Event, AbstractHappens, Site, site};
ghost use Rattle.wb_link.specs.Headline.{Headline};
ghost use Rattle.wb_link.specs.Examples.{one_actor, replaced, lives_of, reopening, past_the_cache};

/// In every run of the abstract world, from devices of one content and any number of actors at rest, of reads, writes,
/// flushes, suspends, promotions, demotions, replacements and write-backs, and in passthrough reads and writes past the cache
/// and removals, interleaved step by step, with a fault at any step on a device, of a write or a copy also on each of several
/// sectors, a desk without room for an entry or an image or that runs another commit, crashes anywhere, and openings by steps in any mode, refused or failing: each sector that a read is given is the last entry of its write
/// history, what an opening shows is an entry at its durable floor or later, and so is each content that the devices have
/// pending where the metadata may say that a block is.
pub fn headline()
    ensures { (size many : ℕ) (z : Content) (es : List Event) → AbstractHappens size (site many z) es → Headline many z es }
{}

/// There are such runs: one of one actor; one of three, with a replacement and a commit that two flushes share; one that goes
/// on in passthrough, with reads past the cache and a write that unmaps its block; and any site can crash and be opened, or be opened without a crash once it has failed.
pub fn runs_exist()
    ensures one_actor { IsAbstractRun 1 (abstract_begins 1 []) one_actor }
    ensures replaced { IsAbstractRun 1 (abstract_begins 3 []) replaced }
    ensures crashed { (size : ℕ) (w : Site) → AbstractHappens size w (lives_of w.world.shared) }
    ensures passed { AbstractHappens 1 (site 1 []) past_the_cache }
    ensures failed { (size : ℕ) (w : Site) → w.world.shared.fail ≡ true → AbstractHappens size w (reopening w.world.shared) }
{}
