//! Having all dirty blocks written home, in rounds.

ghost use Rattle.std.specs.Prelude.{◌≡◌};

use crate::ending::outcome;
use crate::lives::{live, table_in};
use crate::progress::Progress;
use crate::shadow::Shadow;
use std::alloc::Global;
use std::sync::Wait;
use std::thread::Threads;
use wb_devices::Devices;
use wb_disk::Disk;
use wb_opened::{Served, Unserved};
use wb_policy::Policy;
use wb_table::Table;
use wb_target::{Client, Errand};
use wb_types::{Mode, Refusal};

/// How many blocks are written home in a round, at most.
const BLOCKS_OF_A_ROUND: u64 = 4096;

/// How many sectors are, at least a block: 1 GiB.
const SECTORS_OF_A_ROUND: u64 = 2_097_152;

/// What a round has come to.
#[derive(Clone, Copy)]
pub struct Round {
    /// How many blocks were dirty at its begin.
    pub all: u32,
    /// How many were written home.
    pub homes: u32,
    /// Whether a block is dirty that was not tried in vain.
    pub goes_on: bool,
    /// The first fault of a block that was passed over.
    pub passed_over: Option<Refusal>,
    /// What ended it before its time.
    pub stopped: Option<Refusal>,
}

/// What all rounds have come to.
#[derive(Clone, Copy)]
pub struct Drained {
    /// How many blocks were written home.
    pub homes: u32,
    /// The first fault of a block that was passed over.
    pub passed_over: Option<Refusal>,
}

/// Writes dirty blocks home, up to a limit.
#[derive(Drop)]
struct BringHome<'a, T> {
    progress: Progress<'a, T>,
    /// How many were written home before it.
    before: u32,
    limit: u32,
}

impl<'a, T: Eprint> Errand for BringHome<'a, T> {
    type Told = Round;

    ghost tells = { λ errand told. Unit {0} };

    fn run<R: Wait, D: Disk + Drop, P: Policy>(
        self,
        rt: &R,
        client: &mut Client<'_, D, P>,
    ) -> Round {
        self.bring_home(rt, client)
    }
}

impl<'a, T: Eprint> BringHome<'a, T> {
    /// Has the policy order blocks, and carries the orders out, until enough are home, all that are left were tried in vain, or the target
    /// refuses.
    fn bring_home<R: Wait, C: Served>(&self, rt: &R, client: &mut C) -> Round {
        let all = client.dirty(rt);
        let mut turn = Turn::new();
        let mut left = all;
        let mut stopped = None;
        for _ in 0..u64::MAX {
            self.progress.show(
                self.before.saturating_add(turn.homes),
                self.before.saturating_add(all),
            );
            if turn.in_vain >= left || turn.homes >= self.limit {
                break;
            }
            if let Err(refusal) = turn.go_round(rt, client) {
                stopped = Some(refusal);
                break;
            }
            left = client.dirty(rt);
        }
        Round {
            all,
            homes: turn.homes,
            goes_on: turn.in_vain < left,
            passed_over: turn.passed_over,
            stopped,
        }
    }
}

/// How far a round has come.
#[derive(Clone, Copy)]
struct Turn {
    homes: u32,
    /// How many orders failed since the last that did not.
    in_vain: u32,
    passed_over: Option<Refusal>,
}

impl Turn {
    fn new() -> Turn {
        Turn {
            homes: 0,
            in_vain: 0,
            passed_over: None,
        }
    }

    /// Has the policy order blocks once, and carries all orders out. An order whose block cannot be read is passed over; a step that failed the
    /// target ends it.
    fn go_round<R: Wait, C: Served>(&mut self, rt: &R, client: &mut C) -> Result<(), Refusal> {
        client.tick(rt)?;
        let (homes, in_vain) = (self.homes, self.in_vain);
        let mut fault = None;
        for _ in 0..u64::MAX {
            match client.work_one(rt) {
                Ok(Some(_)) => {
                    self.homes = self.homes.saturating_add(1);
                    self.in_vain = 0;
                    fault = None;
                }
                Ok(None) => break,
                Err(Refusal::Io(device)) => {
                    self.in_vain = self.in_vain.saturating_add(1);
                    fault = Some(Refusal::Io(device));
                    self.passed_over = self.passed_over.or(fault);
                }
                // The step before failed the target: that says why.
                Err(Refusal::Failed) => return Err(fault.unwrap_or(Refusal::Failed)),
                Err(refusal) => return Err(refusal),
            }
        }
        if self.homes == homes && self.in_vain == in_vain {
            // Nothing was ordered though blocks are dirty: others would have to have orders.
            return Err(Refusal::Busy);
        }
        Ok(())
    }
}

/// How many blocks of so many sectors are written home in the first round.
fn first_limit(block: u64) -> u32 {
    let many = SECTORS_OF_A_ROUND / block.max(1);
    many.clamp(1, BLOCKS_OF_A_ROUND) as u32
}

/// Has all dirty blocks of the cache of a table written home, in rounds. Behind each the metadata say what is dirty still, so that a later call
/// goes on there: a round runs over shadowed metadata, which are stored at its end.
///
/// A block that cannot be read is passed over, and stays dirty: `passed_over` says why. Refused as an opening, where a step failed the target,
/// where a suspend is refused, and where the metadata cannot be stored: what the rounds before brought home stays so.
pub fn drain<'a, T: Threads + Wait + Sync, E: Eprint + Sync, D: Disk + Drop + Send>(
    waits: &T,
    log: &E,
    alloc: Global,
    devices: Devices<Shadow<D>>,
    table: &Table<'a>,
    is_shown: bool,
) -> Result<(Devices<Shadow<D>>, Result<Drained, Refusal>), Unserved<'a>> {
    let progress = Progress { rt: log, is_shown };
    let table = table_in(table, Mode::Writeback);
    let mut devices = devices;
    let mut drained = Drained {
        homes: 0,
        passed_over: None,
    };
    let mut limit = first_limit(table.block);
    for _ in 0..u64::MAX {
        devices.metadata.keep(alloc);
        let errand = BringHome {
            progress: Progress { rt: log, is_shown },
            before: drained.homes,
            limit,
        };
        let lived = live(waits, alloc, devices, &table, errand)?;
        devices = lived.devices;
        let round = match outcome(lived.told, lived.ended) {
            Ok(round) => round,
            Err(refusal) => {
                progress.end_line();
                return Ok((devices, Err(refusal)));
            }
        };
        drained.homes = drained.homes.saturating_add(round.homes);
        drained.passed_over = drained.passed_over.or(round.passed_over);
        if !round.goes_on {
            break;
        }
        if round.passed_over.is_some() {
            // Each round meets those blocks again.
            limit = limit.saturating_mul(2);
        }
    }
    progress.end_line();
    Ok((devices, Ok(drained)))
}
