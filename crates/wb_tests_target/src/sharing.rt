//! Clients that write and flush in turns, beside one another: a commit serves several of them.

use crate::bounds::end_with;
use crate::files::{Images, Names, client_over, images, target_over};
use crate::fixture::{Lent, begun_with, shows};
use crate::hooked::{Hook, Hooked, with_hook};
use crate::questions::{Question, answered};
use std::alloc::AllocError;
use std::process::Abort;
use std::sync::Wait;
use std::sync::atomic::{AtomicU64, Ordering};
use std::test::Fail;
use std::thread;
use std::thread::Threads;
use std::time::{Clock, Duration};
use wb_disk::{Disk, FileDisk};
use wb_policy::{Policy, TinyLfu};
use wb_target::{Client, Errand, Flushed, Returned, Sent, Target};
use wb_types::{Dev, Refusal, Sector};

/// How many clients there are.
const FLUSHERS: u64 = 16;

/// How often each writes and flushes.
const TURNS: u8 = 8;

/// Of a client its own sector, and so of the sixteen some in each block.
fn own_sector(client: u64) -> u64 {
    client.wrapping_mul(40)
}

/// Syncs take two milliseconds at the least, so that flushes come while a commit runs.
#[derive(Drop)]
struct Slow<'a, C> {
    clock: &'a C,
}

impl<'a, C: Clock> Hook for Slow<'a, C> {
    fn before_sync(&self, _device: Dev) {
        thread::sleep(self.clock, Duration::from_millis(2));
    }
}

/// How many flushes of a client were answered in each way.
#[derive(Clone, Copy, Drop)]
struct Flushes {
    led: u64,
    served: u64,
}

/// What is done beside one another.
#[derive(Drop)]
enum Beside<'a, C> {
    /// Writes a sector and flushes, in turns, and tells that it has ended.
    Flushes(u64, &'a AtomicU64),
    /// Ends the test if some client never ends.
    Watches(&'a C, &'a AtomicU64),
}

impl<'a, C: Clock + Abort> Errand for Beside<'a, C> {
    type Told = Result<Flushes, Refusal>;

    ghost tells = { λ beside told. Unit {0} };

    fn run<R: Wait, D: Disk + Drop, P: Policy>(
        self,
        rt: &R,
        client: &mut Client<'_, D, P>,
    ) -> Result<Flushes, Refusal> {
        match self {
            Beside::Flushes(at, ended) => {
                let told = flush_in_turns(rt, client, at);
                ended.fetch_add(1, Ordering::SeqCst);
                told
            }
            Beside::Watches(clock, ended) => {
                end_with(clock, ended, FLUSHERS);
                Ok(Flushes { led: 0, served: 0 })
            }
        }
    }
}

/// Writes a sector and flushes, in turns. `Range` where a flush is served by a commit that cannot have begun after another one that ran as
/// it came: its number is 2 at the least.
fn flush_in_turns<D: Disk + Drop, P: Policy>(
    rt: &impl Wait,
    client: &mut Client<'_, D, P>,
    at: u64,
) -> Result<Flushes, Refusal> {
    let mut flushes = Flushes { led: 0, served: 0 };
    for turn in 0..TURNS {
        if let Err(stopped) = client.write(rt, Sector(at), &[begun_with(turn)]) {
            return Err(stopped.refusal);
        }
        match client.flush(rt)? {
            Flushed::Led => flushes.led = flushes.led.saturating_add(1),
            Flushed::Served(receipt) if receipt.number() < 2 => return Err(Refusal::Range),
            Flushed::Served(_) => flushes.served = flushes.served.saturating_add(1),
        }
    }
    Ok(flushes)
}

/// The sixteen, and who watches them.
fn all_of_them<'a>(
    rt: &'a HostRuntime,
    ended: &'a AtomicU64,
) -> Result<Vec<Beside<'a, HostRuntime>>, Fail> {
    let mut errands = Vec::new(rt.alloc());
    for client in 0..FLUSHERS {
        errands.push(Beside::Flushes(own_sector(client), ended))?;
    }
    errands.push(Beside::Watches(rt, ended))?;
    Ok(errands)
}

/// Each of these over files that it opens for itself, whose syncs are slow.
fn sent_slowly<'h, E: Drop>(
    rt: &HostRuntime,
    slow: &'h Slow<'h, HostRuntime>,
    errands: Vec<E>,
) -> Result<Vec<Sent<Hooked<'h, FileDisk, Slow<'h, HostRuntime>>, E>>, Fail> {
    let mut sent = Vec::new(rt.alloc());
    for errand in errands {
        let devices = with_hook(images(rt, &SHARED)?, slow);
        sent.push(Sent { devices, errand })?;
    }
    Ok(sent)
}

/// How all flushes were answered, if each was.
fn count_flushes<D>(returned: &[Returned<D, Result<Flushes, Refusal>>]) -> Option<Flushes> {
    let mut all = Flushes { led: 0, served: 0 };
    for one in returned {
        let Ok(Ok(flushes)) = &one.told else {
            return None;
        };
        all.led = all.led.saturating_add(flushes.led);
        all.served = all.served.saturating_add(flushes.served);
    }
    Some(all)
}

/// Whether all flushes were answered, some of them as served, and each other one by a commit of its own.
fn are_shared<R: Threads + Wait + Sync, D: Disk + Drop + Send, E: Errand + Send + Drop>(
    rt: &R,
    target: &Target<TinyLfu>,
    errands: Vec<Sent<D, E>>,
) -> Result<bool, AllocError>
where
    E: Errand<Told = Result<Flushes, Refusal>>,
{
    let before = target.counts(rt).generation;
    let returned = target.together(rt, errands)?;
    let commits = target.counts(rt).generation.wrapping_sub(before);
    let Some(all) = count_flushes(returned.as_slice()) else {
        return Ok(false);
    };
    Ok(
        all.served >= 1
            && all.led == commits
            && all.led.saturating_add(all.served) == FLUSHERS.wrapping_mul(u64::from(TURNS)),
    )
}

/// Whether each sector is shown as it was written last.
fn shows_last(rt: &impl Wait, target: &Target<TinyLfu>, images: Images) -> Result<bool, Refusal> {
    let mut client = client_over(rt, target, images)?;
    let shown = (0..FLUSHERS).all(|flusher| shows(rt, &mut client, own_sector(flusher), TURNS - 1));
    target.retire(rt, client);
    Ok(shown)
}

const SHARED: Names = ["shared_m.img", "shared_c.img", "shared_o.img"];

#[test]
fn sixteen_clients_that_write_and_flush_share_commits(rt: HostRuntime) -> Result<(), Fail> {
    let target = target_over(&rt, &SHARED)?;
    let ended = AtomicU64::new(0);
    let slow = Slow { clock: &rt };
    let errands = sent_slowly(&rt, &slow, all_of_them(&rt, &ended)?)?;
    let shared = are_shared(&rt, &target, errands);
    let shown = shows_last(&rt, &target, images(&rt, &SHARED)?);
    drop(target);
    assert!(rt; shared? && shown?);
    Ok(())
}

/// Whether a client that is alone leads the commit of each of its flushes.
pub fn leads_alone(rt: &impl Wait, target: &Target<TinyLfu>, client: &mut Lent<'_>) -> bool {
    let before = target.counts(rt).generation;
    (0..3).all(|_| matches!(client.flush(rt), Ok(Flushed::Led)))
        && target.counts(rt).generation.wrapping_sub(before) == 3
}

#[test]
fn a_client_that_is_alone_leads_its_flushes(rt: HostRuntime) -> Result<(), Fail> {
    assert!(rt; answered(&rt, rt.alloc(), Question::LeadsAlone)?);
    Ok(())
}
