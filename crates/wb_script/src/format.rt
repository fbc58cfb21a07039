//! Formatting of a target's metadata.

ghost use Rattle.std.specs.Prelude.{◌≡◌, ◌⊎◌, IfOk, map};
ghost use Rattle.std.specs.Bool.{OnTrue, OnFalse};
ghost use Rattle.wb_disk.specs.Device.{newest};
ghost use Rattle.wb_meta.specs.Formats.{IsFormatted};
ghost use Rattle.wb_script.specs.Formatting.{MayFormat};

use crate::ended::{Ended, refused};
use crate::given_up::{Consent, Notice, find_overwritten};
use crate::sparse::find_holes;
use std::alloc::Global;
use std::fmt::Write as _;
use std::fs::File;
use std::io::Write;
use std::rt::Files;
use std::sync::Wait;
use wb_checks::threshold_notice;
use wb_dialogue::{Status, StreamFailed, print, refuse, see_out};
use wb_disk::Disk;
use wb_files::{Patience, Watch, find_conflict, open_table};
use wb_opened::{Uninspected, Unserved};
use wb_table::Table;
use wb_types::{Dev, Geometry, Refusal};

/// Formats the metadata over the files of a table, in the version that it asks for, prints `formatted <cache blocks> <origin blocks>` or the refusal,
/// and gives the exit status with the reason of a refusal. The cache and the origin are opened, locked and measured,
/// and left alone. Files that the system uses, and two that are one, are refused as those that cannot be opened; files that another program
/// holds are waited for as long as there is patience.
///
/// Where the first sectors of the metadata are neither zeros nor a cache's, or they are those of a cache with blocks in it, somebody is asked
/// first; without consent nothing is written. Of a metadata or cache file with holes, and of a threshold that stops something, notices are told
/// once it is formatted.
///
/// 0 where the metadata were formatted, 1 where that was refused or not consented to, 3 where a device failed, 4 where the writer did. A
/// formatting that was refused can be repeated.
pub fn format_files<
    'a,
    R: Files<File = File> + AllocGlobal + Clone + Drop,
    T: Wait,
    P: Patience,
    N: Watch,
    C: Consent,
    W: Write,
>(
    rt: &R,
    waits: &T,
    alloc: Global,
    table: &'a str,
    patience: &mut P,
    watch: &N,
    consent: &mut C,
    writer: &mut W,
) -> Ended<'a> {
    let (table, files, geometry) = match open_table(rt, table, patience) {
        Ok(opened) => opened,
        Err(unopened) => return refused(alloc, Unserved::Unopened(unopened), writer),
    };
    if let Some(uninspected) = refused_use(rt, &table) {
        return refused(alloc, Unserved::Uninspected(uninspected), writer);
    }
    match files.disks(waits, watch) {
        Ok(mut disks) => {
            let formatted = format_disk(
                alloc,
                &mut disks.metadata,
                table.metadata,
                &geometry,
                consent,
            );
            if formatted == Ok(true) {
                tell_notices(rt, &table, &geometry, consent);
            }
            end(alloc, formatted, &geometry, writer)
        }
        Err(unopened) => refused(alloc, Unserved::Unopened(unopened), writer),
    }
}

/// Why the files must not be written, where the system uses one of them or two are one.
fn refused_use<R: Files<File = File> + AllocGlobal + Clone + Drop>(
    rt: &R,
    table: &Table<'_>,
) -> Option<Uninspected> {
    match find_conflict(rt, table) {
        Ok(None) => None,
        Ok(Some(conflict)) => {
            let refusal = Refusal::Io(conflict.device);
            match format!(in rt.alloc(); "{conflict}") {
                Ok(reason) => Some(Uninspected::told(refusal, reason)),
                Err(_) => Some(Uninspected::refused(refusal)),
            }
        }
        Err(_) => Some(Uninspected::refused(Refusal::Memory)),
    }
}

/// Formats the metadata device of a file, where it is blank or what it holds may be written over: whether it was formatted. Where it was not,
/// nothing was written.
fn format_disk<D: Disk, C: Consent>(
    alloc: Global,
    metadata: &mut D,
    file: &str,
    geometry: &Geometry,
    consent: &mut C,
) -> Result<bool, Refusal>
    ensures withheld { D.tells → IfOk result (λ done. OnFalse done (D.contents metadata.new ≡ D.contents metadata.old)) }
    ensures formatted { D.tells → IfOk result (λ done. OnTrue done (IsFormatted geometry.now (D.contents metadata.new))) }
    ensures consent { D.tells → (D.contents metadata.new ≡ D.contents metadata.old)
        ⊎ MayFormat (C.allows consent.old) (map newest (D.contents metadata.old)) }
{
    if !may_format(alloc, metadata, file, consent) {
        return Ok(false);
    }
    wb_meta::format(metadata, geometry)?;
    Ok(true)
}

/// Whether a metadata device is blank, or what it holds may be written over. It writes nothing.
fn may_format<D: Disk, C: Consent>(
    alloc: Global,
    metadata: &mut D,
    file: &str,
    consent: &mut C,
) -> bool
    ensures size { D.size metadata.new ≡ D.size metadata.old }
    ensures same { D.tells → D.contents metadata.new ≡ D.contents metadata.old }
    ensures allowed { D.tells → OnTrue result (MayFormat (C.allows consent.old) (map newest (D.contents metadata.old))) }
{
    match find_overwritten(alloc, metadata) {
        Some(over) => consent.may_format(file, over),
        None => true,
    }
}

/// Tells what may go wrong with what was formatted.
fn tell_notices<R: Files<File = File>, C: Consent>(
    rt: &R,
    table: &Table<'_>,
    geometry: &Geometry,
    consent: &mut C,
) {
    for (device, path) in [(Dev::Metadata, table.metadata), (Dev::Cache, table.cache)] {
        if let Some(file) = find_holes(rt, device, path) {
            consent.tell(Notice::Sparse(file));
        }
    }
    let threshold = table.keys.migration_threshold;
    if let Some(notice) = threshold_notice(table.mode, table.policy, geometry.block, threshold) {
        consent.tell(Notice::Threshold(notice));
    }
}

/// The end of a formatting, and what is printed of it.
fn end<'a, W: Write>(
    alloc: Global,
    formatted: Result<bool, Refusal>,
    geometry: &Geometry,
    writer: &mut W,
) -> Ended<'a> {
    match formatted {
        Ok(true) => Ended::new(report(alloc, geometry, writer), None),
        Ok(false) => Ended::new(Ok(Status::Refused), None),
        Err(refusal) => refused(alloc, Unserved::Refused(refusal), writer),
    }
}

/// Prints what was formatted.
fn report<W: Write>(
    alloc: Global,
    geometry: &Geometry,
    writer: &mut W,
) -> Result<Status, StreamFailed> {
    let mut text = String::new(alloc);
    let (cache, origin) = (geometry.cache_blocks, geometry.origin_blocks);
    if writeln!(text, "formatted {cache} {origin}").is_err() {
        return refuse(alloc, Refusal::Memory, writer);
    }
    let status = print(&text, writer)?;
    see_out(writer)?;
    Ok(status)
}
