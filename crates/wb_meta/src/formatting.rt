//! Formatting.

ghost use Rattle.std.specs.Prelude.{◌≡◌, ◌≢◌, ◌⊎◌, List, OnOk, IfErr, IfOk};
ghost use Rattle.wb_types.specs.declared.refusal.Refusal.TheVariants.{Io, Geometry as WrongSize};
ghost use Rattle.wb_types.specs.declared.mode.Dev.TheVariants.{Metadata};
ghost use Rattle.wb_disk.specs.Device.{OneMore};
ghost use Rattle.wb_meta.specs.Formats.{IsFormatted, SlotsAlone};

use crate::sector::{put_root, put_zeros, sync};
use wb_disk::Disk;
use wb_format::Root;
use wb_types::{Geometry, Refusal};

/// Makes a metadata device represent the empty mapping, clean. It writes the two slots and no other sector.
///
/// `Geometry` where the device has another size than the geometry says, and nothing was done; `Io` where it
/// fails, and formatting has to be repeated.
pub fn format<D: Disk>(disk: &mut D, geometry: &Geometry) -> Result<(), Refusal>
    ensures size { D.size disk.new ≡ D.size disk.old }
    ensures fits { IfOk result (λ _. geometry.now.meta_sectors ≡ D.size disk.old) }
    ensures empty { D.tells → OnOk result (IsFormatted geometry.now (D.contents disk.new)) }
    ensures slots { D.tells → OnOk result (SlotsAlone (D.contents disk.old) (D.contents disk.new)) }
    ensures no_fault { D.tells → OnOk result (D.faults disk.new ≡ D.faults disk.old) }
    ensures cause { D.tells → IfErr result (λ refusal. refusal ≡ Io Metadata
        → OneMore (D.faults disk.old) (D.faults disk.new)) }
    ensures refused { IfErr result (λ refusal. (refusal ≡ Io Metadata) ⊎ (refusal ≡ WrongSize)) }
    ensures wrong_size { IfErr result (λ refusal. refusal ≡ WrongSize
        → (geometry.now.meta_sectors ≢ D.size disk.old) × (disk.new ≡ disk.old)) }
{
    if disk.sectors() != u64::from(geometry.meta_sectors) {
        return Err(Refusal::Geometry);
    }
    put_zeros(disk, 0)?;
    put_zeros(disk, 1)?;
    sync(disk)?;
    let root = Root {
        generation: 0,
        version: geometry.version,
        clean: true,
        geometry: *geometry,
        top: None,
        top_dirty: None,
    };
    put_root(disk, 0, &root)?;
    sync(disk)
}
