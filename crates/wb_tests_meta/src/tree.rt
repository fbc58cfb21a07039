//! Entries that come and go. Trees that are read, whole and with a fault in them, the tests of metadata devices show.

ghost use Rattle.std.specs.Prelude.{◌≡◌, length};

mod images;
mod memory;

use std::alloc::Global;
use std::test::Fail;
use wb_format::Node;
use wb_tree::*;
use wb_types::{CBlock, Entry, Geometry, OBlock, Place, Refusal};

const FIRST: Entry = Entry {
    origin: OBlock(7),
    dirty: false,
    hint: 0,
};

const SECOND: Entry = Entry {
    origin: OBlock(0),
    dirty: true,
    hint: 16,
};

/// Whether these are the entries of cache blocks 0, 1 and 33, and 39 has none.
fn are_entries(tree: &Tree<Global>, wanted: [Option<Entry>; 3]) -> bool
    requires { length tree.now.entries ≡ 40 }
{
    tree.get(CBlock(0)) == wanted[0]
        && tree.get(CBlock(1)) == wanted[1]
        && tree.get(CBlock(33)) == wanted[2]
        && tree.get(CBlock(39)).is_none()
}

fn come_and_go(tree: &mut Tree<Global>) -> Result<bool, Refusal>
    requires { length tree.old.entries ≡ 40 }
{
    let begins = are_entries(tree, [None, None, None]);
    tree.set(CBlock(33), FIRST)?;
    tree.set(CBlock(0), SECOND)?;
    tree.set(CBlock(0), SECOND)?;
    let have_come = are_entries(tree, [Some(SECOND), None, Some(FIRST)]);
    tree.clear(CBlock(33));
    tree.clear(CBlock(39));
    Ok(begins && have_come && are_entries(tree, [Some(SECOND), None, None]))
}

/// Whether entries of an empty tree of 40 cache blocks do.
fn entries_do(alloc: Global) -> Result<bool, Refusal> {
    let mut tree = Tree::new(alloc, 40);
    come_and_go(&mut tree)
}

#[test]
fn entries_come_and_go(rt: HostRuntime) -> Result<(), Fail> {
    assert!(rt; entries_do(rt.alloc())?);
    Ok(())
}
