//! What the first sectors of a metadata device hold, before a formatting writes over them.

ghost use Rattle.std.specs.Prelude.{◌≡◌, ◌≢◌, ◌≤◌, ◌<◌, IfOk, IfErr, OnOk, OnErr, map};
ghost use Rattle.std.specs.Bool.{OnTrue, OnFalse};
ghost use Rattle.wb_types.specs.declared.refusal.Refusal.TheVariants.{Io};
ghost use Rattle.wb_types.specs.declared.mode.Dev.TheVariants.{Metadata};
ghost use Rattle.wb_disk.specs.Device.{OneMore, newest};
ghost use Rattle.wb_checks.specs.Fronts.{AreBlank, HasMore, IsBlank, IsFront};

use crate::held::{are_zeros, read_slot};
use wb_disk::Disk;
use wb_format::Node;
use wb_types::{Content, Dev, Refusal, SECTOR_BYTES, Version};

/// What the first sectors hold.
#[derive(Clone, Copy, Debug, PartialEq, Eq)]
pub enum Front {
    /// No valid root, and zeros or a tree's node in each of the first 8 sectors, or in all where there are fewer: a formatting that was cut short
    /// leaves nodes behind slots of zeros.
    Blank,
    /// A valid root in one of the two slots, or in both.
    Formatted,
    /// No valid root, and something else than that.
    SomethingElse,
    /// A read failed.
    Unreadable,
}

/// So many sectors are looked at: a file system or a partition table shows itself there.
const FRONT: u64 = 8;

/// Says what the first sectors of a metadata device hold. It writes nothing, and `Unreadable` is the answer where the device fails.
pub fn look_at_front<D: Disk>(metadata: &mut D) -> Front
    ensures size { D.size metadata.new ≡ D.size metadata.old }
    ensures same { D.tells → D.contents metadata.new ≡ D.contents metadata.old }
    ensures told { D.tells → IsFront (map newest (D.contents metadata.old)) result }
    ensures unreadable { D.tells → result ≡ Front.Unreadable → OneMore (D.faults metadata.old) (D.faults metadata.new) }
    ensures readable { D.tells → result ≢ Front.Unreadable → D.faults metadata.new ≡ D.faults metadata.old }
{
    match read_front(metadata) {
        Ok(front) => front,
        Err(_) => Front::Unreadable,
    }
}

/// The same, with `Io` where the device fails.
fn read_front<D: Disk>(metadata: &mut D) -> Result<Front, Refusal>
    ensures size { D.size metadata.new ≡ D.size metadata.old }
    ensures same { D.tells → D.contents metadata.new ≡ D.contents metadata.old }
    ensures told { D.tells → IfOk result (IsFront (map newest (D.contents metadata.old))) }
    ensures readable { IfOk result (λ front. front ≢ Front.Unreadable) }
    ensures no_fault { D.tells → OnOk result (D.faults metadata.new ≡ D.faults metadata.old) }
    ensures cause { D.tells → OnErr result (OneMore (D.faults metadata.old) (D.faults metadata.new)) }
{
    let first = read_slot(metadata, 0)?.root;
    let second = read_slot(metadata, 1)?.root;
    if first.is_some() || second.is_some() {
        return Ok(Front::Formatted);
    }
    if is_blank(metadata, FRONT)? {
        Ok(Front::Blank)
    } else {
        Ok(Front::SomethingElse)
    }
}

/// Whether each of the first sectors, so many or all, has zeros alone or a node. `Io` where the device fails.
fn is_blank<D: Disk>(metadata: &mut D, count: u64) -> Result<bool, Refusal>
    ensures size { D.size metadata.new ≡ D.size metadata.old }
    ensures same { D.tells → D.contents metadata.new ≡ D.contents metadata.old }
    ensures blank { D.tells → IfOk result (λ blank. OnTrue blank (AreBlank (map newest (D.contents metadata.old)) count)) }
    ensures more { D.tells → IfOk result (λ blank. OnFalse blank (HasMore (map newest (D.contents metadata.old)) count)) }
    ensures refused { IfErr result (λ refusal. refusal ≡ Io Metadata) }
    ensures no_fault { D.tells → OnOk result (D.faults metadata.new ≡ D.faults metadata.old) }
    ensures cause { D.tells → OnErr result (OneMore (D.faults metadata.old) (D.faults metadata.new)) }
{
    let mut content = [0; SECTOR_BYTES];
    let end = count.min(metadata.sectors());
    'front: for at in 0..end {
        if metadata.read(at, &mut content).is_err() {
            return Err(Refusal::Io(Dev::Metadata));
        }
        if !is_blank_sector(&content) {
            return Ok(false);
        }
    }
    Ok(true)
}

/// Whether a sector has zeros alone, or spells a node of either version.
fn is_blank_sector(content: &Content) -> bool
    ensures blank { OnTrue result (IsBlank content.now) }
    ensures more { OnFalse result (¬ IsBlank content.now) }
{
    are_zeros(content)
        || Node::read(content, Version::One).is_some()
        || Node::read(content, Version::Two).is_some()
}
