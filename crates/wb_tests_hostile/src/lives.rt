//! Lives of a target while one of its devices stops or fails, and what the next target shows.

use crate::broken::{Call, Memory, begun_with, break_at, formatted, has_failed, mended};
use crate::record::{Kind, Record, WRITTEN};
use std::alloc::Global;
use std::sync::Wait;
use std::test::Fail;
use wb_devices::Devices;
use wb_disk::{Base, CrashChoice, Disk};
use wb_policy::{Order, TinyLfu};
use wb_target::{Client, Target};
use wb_types::{CBlock, Dev, Mode, OBlock, Refusal, SECTOR_BYTES, Sector};

/// No life makes as many calls of a device.
const MOST_CALLS: u64 = 200;

/// What is done by a client.
#[derive(Clone, Copy)]
enum Part {
    /// Four blocks are read twice each and cached, a fifth thrice, by which it replaces one, and written; with a flush behind each order and the write.
    Plays(Mode),
    /// Each sector is looked at.
    Looks,
}

fn read_one<D: Disk + Drop>(
    rt: &impl Wait,
    client: &mut Client<'_, D, TinyLfu>,
    record: &mut Record,
    block: u8,
) {
    let mut out = [[0; SECTOR_BYTES]];
    match client.read(rt, Sector(64 * u64::from(block)), &mut out) {
        Ok(()) => record.read(out[0][0], 0x80 | block),
        Err(stopped) => record.refused(Kind::Reads, stopped.refusal),
    }
}

fn work_and_flush<D: Disk + Drop>(
    rt: &impl Wait,
    client: &mut Client<'_, D, TinyLfu>,
    record: &mut Record,
    wanted: Option<Order>,
) {
    match client.work_one(rt) {
        Ok(order) => record.worked(order, wanted),
        Err(refusal) => record.refused_work(wanted, refusal),
    }
    flush(rt, client, record);
}

fn flush<D: Disk + Drop>(rt: &impl Wait, client: &mut Client<'_, D, TinyLfu>, record: &mut Record) {
    match client.flush(rt) {
        Ok(_) => record.flush(),
        Err(refusal) => record.refused(Kind::Changes, refusal),
    }
}

fn write_one<D: Disk + Drop>(
    rt: &impl Wait,
    client: &mut Client<'_, D, TinyLfu>,
    record: &mut Record,
) {
    let (at, byte) = WRITTEN;
    record.begin();
    match client.write(rt, Sector(at), &[begun_with(byte, 0)]) {
        Ok(_) => record.written(),
        Err(stopped) => record.refused(Kind::Changes, stopped.refusal),
    }
}

/// An order where the mode gives any.
fn in_mode(mode: Mode, order: Order) -> Option<Order> {
    if mode == Mode::Passthrough {
        None
    } else {
        Some(order)
    }
}

fn play<D: Disk + Drop>(
    rt: &impl Wait,
    client: &mut Client<'_, D, TinyLfu>,
    record: &mut Record,
    mode: Mode,
) {
    for block in 0..4_u8 {
        read_one(rt, client, record, block);
        read_one(rt, client, record, block);
        let number = u32::from(block);
        let wanted = in_mode(mode, Order::Promote(OBlock(number), CBlock(number)));
        work_and_flush(rt, client, record, wanted);
    }
    read_one(rt, client, record, 4);
    read_one(rt, client, record, 4);
    work_and_flush(rt, client, record, None);
    read_one(rt, client, record, 4);
    let wanted = in_mode(mode, Order::Replace(OBlock(0), OBlock(4), CBlock(0)));
    work_and_flush(rt, client, record, wanted);
    write_one(rt, client, record);
    flush(rt, client, record);
}

fn look<D: Disk + Drop>(rt: &impl Wait, client: &mut Client<'_, D, TinyLfu>, record: &mut Record) {
    let mut out = [[0; SECTOR_BYTES]; 64];
    for block in 0..10_u8 {
        let first = 64 * u64::from(block);
        let is_read = client.read(rt, Sector(first), &mut out).is_ok();
        record.expect(is_read);
        for k in 0..64_u8 {
            let content = &out[usize::from(k)];
            record.shown(first + u64::from(k), content[0], 0x80 | block);
            record.expect(content[1] == k);
        }
    }
}

fn by_client<D: Disk + Drop>(
    rt: &impl Wait,
    target: &Target<TinyLfu>,
    devices: Devices<D>,
    record: &mut Record,
    part: Part,
) -> Devices<D> {
    match target.client(rt, devices) {
        Ok(mut client) => {
            match part {
                Part::Plays(mode) => {
                    play(rt, &mut client, record, mode);
                    record.counted(target.counts(rt).promotions);
                }
                Part::Looks => look(rt, &mut client, record),
            }
            target.retire(rt, client)
        }
        Err((devices, _)) => {
            record.expect(false);
            devices
        }
    }
}

/// A target is opened over these devices, and has a client that does its part; the devices come back.
fn lived<D: Disk + Drop>(
    rt: &impl Wait,
    alloc: Global,
    devices: Devices<D>,
    record: &mut Record,
    part: Part,
) -> Devices<D> {
    let mode = match part {
        Part::Plays(mode) => mode,
        Part::Looks => Mode::Writeback,
    };
    let (devices, target) = Target::<TinyLfu>::open(alloc, devices, 64, mode, &[], false);
    match target {
        Ok(target) => by_client(rt, &target, devices, record, part),
        Err(refusal) => {
            record.expect(matches!(part, Part::Plays(_)));
            record.refused(Kind::Changes, refusal);
            devices
        }
    }
}

/// Power is lost: each sector of each device has its oldest or its newest content.
fn crash(memory: &mut Memory, choice: &CrashChoice) -> bool {
    memory.metadata.stop(Dev::Metadata, choice)
        && memory.cache.stop(Dev::Cache, choice)
        && memory.origin.stop(Dev::Origin, choice)
}

/// A life in this mode while this call fails, then a loss of power, and the next target: what was answered, and whether a call failed.
fn record_of(
    rt: &impl Wait,
    alloc: Global,
    mode: Mode,
    call: Call,
    base: Base,
) -> Result<(Record, bool), Refusal> {
    let mut record = Record::new(call.device, !call.stops);
    let devices = break_at(formatted(alloc)?, call);
    let devices = lived(rt, alloc, devices, &mut record, Part::Plays(mode));
    let has_failed = has_failed(&devices);
    let mut memory = mended(devices);
    let is_crashed = crash(&mut memory, &CrashChoice::new(base, Vec::new(alloc)));
    record.expect(is_crashed);
    lived(rt, alloc, memory, &mut record, Part::Looks);
    Ok((record, has_failed))
}

/// How many calls failed, this one and those behind it, one in each life, if in each all was as it may be, and in one in which none fails all was done.
fn count_borne(
    rt: &impl Wait,
    alloc: Global,
    mode: Mode,
    first: Call,
    base: Base,
) -> Result<Option<u64>, Refusal> {
    for number in 0..MOST_CALLS {
        let call = Call { number, ..first };
        let (record, has_failed) = record_of(rt, alloc, mode, call, base)?;
        if !record.is_right() || has_failed != (record.met() != 0) {
            return Ok(None);
        }
        if !has_failed {
            return Ok(if record.is_flushed() {
                Some(number)
            } else {
                None
            });
        }
    }
    Ok(None)
}

/// A mode, with how many calls of the metadata, the cache and the origin its life makes.
///
/// An opening syncs all three, reads two roots and writes one, which it syncs. A flush syncs all three, writes the leaf where the mapping has changed, writes a
/// root and syncs it: there are seven, one more serves the replacement, and in six of these the mapping has changed, in passthrough in none. A promotion reads
/// the origin and writes the cache. The origin is read eleven times, and the last write goes to the cache, in write-through to both, in passthrough to the origin.
const CALLS: [(Mode, u64, u64, u64); 3] = [
    (
        Mode::Writeback,
        5 + 8 * 3 + 6,
        1 + 8 + 5 + 1,
        1 + 8 + 5 + 11,
    ),
    (
        Mode::Writethrough,
        5 + 8 * 3 + 6,
        1 + 8 + 5 + 1,
        1 + 8 + 5 + 11 + 1,
    ),
    (Mode::Passthrough, 5 + 7 * 3, 1 + 7, 1 + 7 + 11 + 1),
];

/// Whether each of a device's calls from this one on is borne, as many as these.
fn are_borne(
    rt: &impl Wait,
    alloc: Global,
    mode: Mode,
    first: Call,
    calls: u64,
) -> Result<bool, Refusal> {
    let durable = count_borne(rt, alloc, mode, first, Base::Durable)?;
    let newest = count_borne(rt, alloc, mode, first, Base::Newest)?;
    Ok(durable.unwrap_or(0) == calls && newest.unwrap_or(0) == calls)
}

/// Whether each call of each device is borne in each mode, where it stops the device or fails alone.
fn all_are_borne(rt: &impl Wait, alloc: Global, stops: bool) -> Result<bool, Refusal> {
    let mut borne = true;
    for (mode, metadata, cache, origin) in CALLS {
        for (device, calls) in [
            (Dev::Metadata, metadata),
            (Dev::Cache, cache),
            (Dev::Origin, origin),
        ] {
            let first = Call {
                device,
                number: 0,
                stops,
            };
            borne = borne && are_borne(rt, alloc, mode, first, calls)?;
        }
    }
    Ok(borne)
}

#[test]
fn what_was_flushed_is_shown_wherever_a_device_stopped(rt: HostRuntime) -> Result<(), Fail> {
    assert!(rt; all_are_borne(&rt, rt.alloc(), true)?);
    Ok(())
}

#[test]
fn what_was_flushed_is_shown_wherever_a_call_failed(rt: HostRuntime) -> Result<(), Fail> {
    assert!(rt; all_are_borne(&rt, rt.alloc(), false)?);
    Ok(())
}
