//! Single steps of the metadata device.

ghost use Rattle.std.specs.Prelude.{◌≡◌, ◌<◌, OnOk, OnErr, IsErr, IfOk, IfErr, IfSome, map};
ghost use Rattle.wb_types.specs.declared.refusal.Refusal.TheVariants.{Io};
ghost use Rattle.wb_types.specs.declared.mode.Dev.TheVariants.{Metadata};
ghost use Rattle.wb_format.specs.Layout.{IsOfVersion, SpellsNode, SpellsRoot};
ghost use Rattle.wb_disk.specs.Device.{written, synced, OneMore, newest};
ghost use Rattle.wb_disk.specs.Extents.{Reading, Syncing, MayLand};
ghost use Rattle.wb_disk.specs.Failing.{SyncedSo};
ghost use Rattle.wb_meta.specs.Representing.{ReadsThere};
ghost use Rattle.wb_meta.specs.Steps.{Puts, PutSo, zero_sector};

use wb_disk::Disk;
use wb_format::{Node, Root};
use wb_types::{Dev, Refusal, SECTOR_BYTES, Version};

/// Writes a node. `Io` where the device fails; it may then have the node or not.
pub(crate) fn put_node<D: Disk>(disk: &mut D, at: u64, node: &Node) -> Result<(), Refusal>
    requires { at < D.size disk.old }
    ensures size { D.size disk.new ≡ D.size disk.old }
    ensures ok { D.tells → OnOk result (Puts (λ content. SpellsNode content node.now) at
        (D.contents disk.old) (D.contents disk.new)) }
    ensures how { D.tells → OnErr result (PutSo (D.falters disk.old) (λ content. SpellsNode content node.now) at
        (D.contents disk.old) (D.contents disk.new)) }
    ensures no_fault { D.tells → OnOk result (D.faults disk.new ≡ D.faults disk.old) }
    ensures cause { D.tells → OnErr result (OneMore (D.faults disk.old) (D.faults disk.new)) }
    ensures fails { D.fails disk.old → IsErr result }
    ensures refused { IfErr result (λ refusal. refusal ≡ Io Metadata) }
{
    let mut content = [0; SECTOR_BYTES];
    node.write(&mut content);
    disk.write(at, &content)
        .map_err(|_| Refusal::Io(Dev::Metadata))
}

/// Writes a root. `Io` where the device fails; it may then have the root or not.
pub(crate) fn put_root<D: Disk>(disk: &mut D, at: u64, root: &Root) -> Result<(), Refusal>
    requires { at < D.size disk.old }
    ensures size { D.size disk.new ≡ D.size disk.old }
    ensures ok { D.tells → OnOk result (Puts (λ content. SpellsRoot content root.now) at
        (D.contents disk.old) (D.contents disk.new)) }
    ensures how { D.tells → OnErr result (PutSo (D.falters disk.old) (λ content. SpellsRoot content root.now) at
        (D.contents disk.old) (D.contents disk.new)) }
    ensures no_fault { D.tells → OnOk result (D.faults disk.new ≡ D.faults disk.old) }
    ensures cause { D.tells → OnErr result (OneMore (D.faults disk.old) (D.faults disk.new)) }
    ensures fails { D.fails disk.old → IsErr result }
    ensures refused { IfErr result (λ refusal. refusal ≡ Io Metadata) }
{
    let mut content = [0; SECTOR_BYTES];
    root.write(&mut content);
    disk.write(at, &content)
        .map_err(|_| Refusal::Io(Dev::Metadata))
}

/// Writes a sector of zeros. `Io` where the device fails; it may then have them or not.
pub(crate) fn put_zeros<D: Disk>(disk: &mut D, at: u64) -> Result<(), Refusal>
    requires { at < D.size disk.old }
    ensures size { D.size disk.new ≡ D.size disk.old }
    ensures ok { D.tells → OnOk result (D.contents disk.new ≡ written (D.contents disk.old) at zero_sector) }
    ensures no_fault { D.tells → OnOk result (D.faults disk.new ≡ D.faults disk.old) }
    ensures cause { D.tells → OnErr result (OneMore (D.faults disk.old) (D.faults disk.new)) }
    ensures refused { IfErr result (λ refusal. refusal ≡ Io Metadata) }
{
    if disk.write(at, &[0; SECTOR_BYTES]).is_err() {
        return Err(Refusal::Io(Dev::Metadata));
    }
    Ok(())
}

/// Makes all that was written safe. `Io` where the device fails; each sector is then safe or not.
pub(crate) fn sync<D: Disk>(disk: &mut D) -> Result<(), Refusal>
    ensures size { D.size disk.new ≡ D.size disk.old }
    ensures ok { D.tells → OnOk result (D.contents disk.new ≡ synced (D.contents disk.old)) }
    ensures how { D.tells → OnErr result (SyncedSo (D.falters disk.old Syncing) (D.contents disk.old) (D.contents disk.new)) }
    ensures no_fault { D.tells → OnOk result (D.faults disk.new ≡ D.faults disk.old) }
    ensures cause { D.tells → OnErr result (OneMore (D.faults disk.old) (D.faults disk.new)) }
    ensures fails { D.fails disk.old → IsErr result }
    ensures refused { IfErr result (λ refusal. refusal ≡ Io Metadata) }
{
    disk.sync().map_err(|_| Refusal::Io(Dev::Metadata))
}

/// The node that a sector spells in metadata of a version, where it spells one. `Io` where the device fails.
pub(crate) fn get_node<D: Disk>(
    disk: &mut D,
    at: u64,
    version: Version,
) -> Result<Option<Node>, Refusal>
    requires { at < D.size disk.old }
    ensures size { D.size disk.new ≡ D.size disk.old }
    ensures same { D.tells → D.contents disk.new ≡ D.contents disk.old }
    ensures how { D.tells → OnErr result (MayLand (D.falters disk.old Reading)) }
    ensures of_version { IfOk result (λ node. IfSome node (IsOfVersion version)) }
    ensures found { D.tells → IfOk result (λ node. ReadsThere version (map newest (D.contents disk.old))
        (λ _. node) at) }
    ensures fails { D.fails disk.old → IsErr result }
    ensures refused { IfErr result (λ refusal. refusal ≡ Io Metadata) }
    ensures no_fault { D.tells → OnOk result (D.faults disk.new ≡ D.faults disk.old) }
    ensures cause { D.tells → OnErr result (OneMore (D.faults disk.old) (D.faults disk.new)) }
{
    let mut content = [0; SECTOR_BYTES];
    if disk.read(at, &mut content).is_err() {
        return Err(Refusal::Io(Dev::Metadata));
    }
    Ok(Node::read(&content, version))
}
