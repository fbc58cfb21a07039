//! Errands by clients on threads of their own, over files.

use crate::files::{Images, Names, client_over, images, target_over};
use crate::fixture::{begun_with, shows, tells};
use std::alloc::AllocError;
use std::sync::Wait;
use std::test::Fail;
use std::thread::Threads;
use wb_disk::{Disk, FileDisk};
use wb_policy::{Policy, TinyLfu};
use wb_target::{Client, Errand, Sent, Target};
use wb_types::{Refusal, SECTOR_BYTES, Sector};

/// Whether errands by clients on threads of their own end, and tell these, in order.
pub fn all_tell<R: Threads + Wait + Sync, D: Disk + Drop + Send, E: Errand + Send + Drop>(
    rt: &R,
    target: &Target<TinyLfu>,
    errands: Vec<Sent<D, E>>,
    wanted: &[E::Told],
) -> Result<bool, AllocError>
where
    E::Told: PartialEq,
{
    let returned = target.together(rt, errands)?;
    let mut pairs = wanted.iter().zip(&returned);
    let told = pairs.all(|pair| matches!(&pair.1.told, Ok(told) if told == pair.0));
    Ok(told && returned.len() == wanted.len())
}

/// Reads a sector so many times, and tells whether each was answered.
#[derive(Drop)]
struct Reads {
    at: u64,
    times: u32,
}

impl Errand for Reads {
    type Told = bool;

    ghost tells = { λ reads told. Unit {0} };

    fn run<R: Wait, D: Disk + Drop, P: Policy>(
        self,
        rt: &R,
        client: &mut Client<'_, D, P>,
    ) -> bool {
        let mut out = [[0; SECTOR_BYTES]];
        for _ in 0..self.times {
            if client.read(rt, Sector(self.at), &mut out).is_err() {
                return false;
            }
        }
        true
    }
}

/// Four errands that read sector 0 a hundred times each.
fn readers(rt: &HostRuntime, names: &Names) -> Result<Vec<Sent<FileDisk, Reads>>, Fail> {
    let mut sent = Vec::new(rt.alloc());
    for _ in 0..4 {
        let devices = images(rt, names)?;
        let errand = Reads { at: 0, times: 100 };
        sent.push(Sent { devices, errand })?;
    }
    Ok(sent)
}

const READ: Names = ["read_m.img", "read_c.img", "read_o.img"];

/// The status line after these.
const READ_LINE: &str =
    "1 2/4 64 0/4 0 400 0 0 0 0 0 1 writeback 2 migration_threshold 2048 tinylfu 2 promote_min 2 rw -";

#[test]
fn four_clients_read_one_sector(rt: HostRuntime) -> Result<(), Fail> {
    let target = target_over(&rt, &READ)?;
    let read = all_tell(&rt, &target, readers(&rt, &READ)?, &[true; 4]);
    let told = tells(&rt, rt.alloc(), &target, READ_LINE);
    drop(target);
    assert!(rt; told && read?);
    Ok(())
}

/// Writes a sector that begins with this byte, and tells the first byte that is read there then.
#[derive(Drop)]
struct Writes {
    at: u64,
    byte: u8,
}

impl Errand for Writes {
    type Told = Option<u8>;

    ghost tells = { λ writes told. Unit {0} };

    fn run<R: Wait, D: Disk + Drop, P: Policy>(
        self,
        rt: &R,
        client: &mut Client<'_, D, P>,
    ) -> Option<u8> {
        let at = Sector(self.at);
        let mut out = [[0; SECTOR_BYTES]];
        for _ in 0..3 {
            client.write(rt, at, &[begun_with(self.byte)]).ok()?;
        }
        client.work_one(rt).ok()?;
        client.read(rt, at, &mut out).ok()?;
        Some(out[0][0])
    }
}

/// What is written, and where: one sector in each of two blocks.
const WRITES: [(u64, u8); 2] = [(0, 0x40), (64, 0x41)];

/// Errands that write one each.
fn writers(rt: &HostRuntime, names: &Names) -> Result<Vec<Sent<FileDisk, Writes>>, Fail> {
    let mut sent = Vec::new(rt.alloc());
    for (at, byte) in WRITES {
        let devices = images(rt, names)?;
        let errand = Writes { at, byte };
        sent.push(Sent { devices, errand })?;
    }
    Ok(sent)
}

const WRITTEN: Names = ["written_m.img", "written_c.img", "written_o.img"];

/// What each of them reads then.
const READ_BACK: [Option<u8>; 2] = [Some(WRITES[0].1), Some(WRITES[1].1)];

#[test]
fn clients_read_what_they_wrote_each_in_its_place(rt: HostRuntime) -> Result<(), Fail> {
    let target = target_over(&rt, &WRITTEN)?;
    let written = all_tell(&rt, &target, writers(&rt, &WRITTEN)?, &READ_BACK);
    let promotions = target.counts(&rt).promotions;
    drop(target);
    assert!(rt; promotions == 2 && written?);
    Ok(())
}

const BACK: Names = ["back_m.img", "back_c.img", "back_o.img"];

/// The devices that errands which wrote had, by one of them.
fn back_from<R: Threads + Wait + Sync>(
    rt: &R,
    target: &Target<TinyLfu>,
    errands: Vec<Sent<FileDisk, Writes>>,
) -> Result<Option<Images>, AllocError> {
    let mut returned = target.together(rt, errands)?;
    Ok(returned.pop().map(|one| one.devices))
}

/// Whether a client over them reads what was written.
fn shows_both(rt: &impl Wait, target: &Target<TinyLfu>, images: Images) -> Result<bool, Refusal> {
    let mut client = client_over(rt, target, images)?;
    let shown = WRITES
        .iter()
        .all(|written| shows(rt, &mut client, written.0, written.1));
    target.retire(rt, client);
    Ok(shown)
}

#[test]
fn devices_come_back_each_in_its_place(rt: HostRuntime) -> Result<(), Fail> {
    let target = target_over(&rt, &BACK)?;
    let back = back_from(&rt, &target, writers(&rt, &BACK)?);
    let shown = match back? {
        Some(images) => shows_both(&rt, &target, images),
        None => Ok(false),
    };
    drop(target);
    assert!(rt; shown?);
    Ok(())
}
