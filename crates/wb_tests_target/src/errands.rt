//! What clients do beside one another, each of which ends well or is told why not.

use crate::waiting::{flush_in_it, let_go};
use crate::workers::{Holding, Signals};
use std::process::Abort;
use std::sync::Wait;
use std::sync::atomic::AtomicU64;
use std::time::Clock;
use wb_disk::Disk;
use wb_policy::Policy;
use wb_target::{Client, Errand};
use wb_types::Refusal;

#[derive(Drop)]
pub enum Beside<'a, C> {
    /// Carries out a replacement, whose flush begins a commit, and is held in it.
    Replaces(&'a C, &'a Signals),
    /// Flushes once that commit runs, and tells that it is answered.
    Flushes(&'a C, &'a Signals, &'a AtomicU64),
    /// Lets that commit go on after a while, if no flush is answered by then, and ends the test if so many never are.
    LetsGo(&'a C, &'a Signals, &'a AtomicU64, u64),
}

impl<'a, C: Clock + Abort> Errand for Beside<'a, C> {
    type Told = Result<(), Refusal>;

    ghost tells = { λ beside told. Unit {0} };

    fn run<R: Wait, D: Disk + Drop, P: Policy>(
        self,
        rt: &R,
        client: &mut Client<'_, D, P>,
    ) -> Result<(), Refusal> {
        match self {
            Beside::Replaces(clock, signals) => client.worker(rt, &Holding { clock, signals }),
            Beside::Flushes(clock, signals, answered) => {
                flush_in_it(rt, client, clock, signals, answered)
            }
            Beside::LetsGo(clock, signals, answered, wanted) => let_go(
                clock, signals, answered, wanted,
            ),
        }
    }
}
