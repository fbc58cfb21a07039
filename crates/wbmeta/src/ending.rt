//! When a call that writes may say that it is done, and the exit statuses.

ghost use Rattle.std.specs.Prelude.{◌≡◌, Ok, Some, None, IsOk, IsSome, IfOk, IfErr, OnOk, map};
ghost use Rattle.wb_types.specs.declared.refusal.Refusal.{Refusal as RefusalValue};
ghost use Rattle.wb_disk.specs.Device.{newest};
ghost use Rattle.std.specs.Bool.{OnTrue};
ghost use Rattle.wbmeta.specs.Ending.{IsDeviceFailure, IsLeftAs, IsReached};

use crate::draining::Round;
use crate::found::{Counted, Found, count_all, read_metadata};
use std::alloc::Global;
use wb_disk::Disk;
use wb_types::{Geometry, Refusal};

/// The exit status of a refusal.
const REFUSED: u8 = 1;

/// The exit status where a device failed, a file is held, or a block stayed dirty.
const DEVICE_FAILED: u8 = 3;

/// How a call is to leave a cache, which is clean in either case.
#[derive(Clone, Copy, PartialEq, Eq)]
pub enum Aim {
    /// No block is dirty.
    AllHome,
    /// No block is mapped.
    Empty,
}

/// What a round brought home, where nothing ended it before its time, the target was suspended behind it, and its metadata are stored.
pub fn outcome(told: Result<Round, Refusal>, ended: Result<(), Refusal>) -> Result<Round, Refusal>
    ensures told { IfOk result (λ round. told ≡ Ok round) }
    ensures whole { IfOk result (λ round. round.stopped ≡ None) }
    ensures ended { OnOk result (IsOk ended) }
{
    let round = told?;
    if let Some(refusal) = round.stopped {
        return Err(refusal);
    }
    ended?;
    Ok(round)
}

/// Reads the metadata once more, and answers so many blocks only where they say that the cache is left as it should be. What was found, where
/// it can be read.
///
/// Refused as `read_metadata`; else for the fault of a block that was passed over, or `Busy` where none was.
pub fn confirm<D: Disk>(
    alloc: Global,
    geometry: &Geometry,
    disk: &mut D,
    aim: Aim,
    homes: u32,
    passed_over: Option<Refusal>,
) -> (Option<Found>, Result<u32, Refusal>)
    ensures reached { D.tells → OnOk result.1 (IsLeftAs aim (map newest (D.contents disk.old)) geometry.now) }
    ensures homes { IfOk result.1 (λ told. told ≡ homes) }
    ensures fault { (fault : RefusalValue) → passed_over ≡ Some fault → IsSome result.0 → IfErr result.1 (λ refusal. refusal ≡ fault) }
{
    match read_metadata(alloc, geometry, disk) {
        Ok(found) => {
            if is_reached(aim, count_all(&found)) {
                (Some(found), Ok(homes))
            } else {
                (Some(found), Err(passed_over.unwrap_or(Refusal::Busy)))
            }
        }
        Err(refusal) => (None, Err(refusal)),
    }
}

/// Whether what is counted is as it should be.
fn is_reached(aim: Aim, counted: Counted) -> bool
    ensures { OnTrue result (IsReached aim counted) }
{
    let is_empty = counted.mapped == 0 || aim == Aim::AllHome;
    counted.clean && counted.dirty == 0 && is_empty
}

/// The exit status of a refusal: 3 where a device or the target failed, else 1.
pub fn status_of(refusal: Refusal) -> u8
    ensures failed { IsDeviceFailure refusal → result ≡ 3 }
    ensures refused { ¬ IsDeviceFailure refusal → result ≡ 1 }
{
    match refusal {
        Refusal::Io(_) | Refusal::Failed => DEVICE_FAILED,
        _ => REFUSED,
    }
}
