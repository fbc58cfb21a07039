//! Trees that are planned, and read back from their images.

use super::*;
use wb_trial::{change, plan_at};

/// Whether this is the first leaf with the entry of cache block 0.
fn is_first_leaf(place: Place, leaf: &Node) -> bool {
    place.0 == 2
        && leaf.generation == 1
        && leaf.level == 1
        && leaf.index == 0
        && leaf.words[0] == 1
        && leaf.words[1] == 0
}

/// Whether an image is of the first leaf alone.
fn is_leaf_alone(image: &Image) -> bool {
    for (place, leaf) in image.nodes.iter() {
        if !is_first_leaf(*place, leaf) {
            return false;
        }
    }
    image.nodes.len() == 1 && image.root.generation == 1 && image.root.top == Some(Place(2))
}

/// Whether the image of a tree of one entry is of its leaf alone, which stands there from then on.
fn plans_a_leaf(alloc: Global) -> Result<bool, Refusal> {
    let geometry = Geometry::new(64, 4, 10, 4)?;
    let mut tree = Tree::new(alloc, 4);
    change(&mut tree, 0, Some(0))?;
    let image = plan_at(alloc, &mut tree, &geometry, 1, 2)?;
    let places = tree.places(alloc)?;
    Ok(is_leaf_alone(&image) && places.as_slice() == [Place(2)].as_slice())
}

#[test]
fn a_leaf_alone_is_planned(rt: HostRuntime) -> Result<(), Fail> {
    assert!(rt; plans_a_leaf(rt.alloc())?);
    Ok(())
}

/// What an image is to be: the hints at cache blocks 0 and 33, the first of the free places, and then the nodes by level,
/// index and place, the place of the top, and how many places are then used.
#[derive(Clone, Copy)]
struct Row {
    hints: (Option<u8>, Option<u8>),
    first: u32,
    nodes: [(u32, u32, u32); 3],
    written: usize,
    top: Option<u32>,
    used: usize,
}

const ROWS: [Row; 5] = [
    Row {
        hints: (Some(0), Some(0)),
        first: 2,
        nodes: [(1, 0, 2), (1, 1, 3), (2, 0, 4)],
        written: 3,
        top: Some(4),
        used: 3,
    },
    Row {
        hints: (Some(0), Some(0)),
        first: 5,
        nodes: [(0, 0, 0); 3],
        written: 0,
        top: Some(4),
        used: 3,
    },
    Row {
        hints: (Some(0), Some(5)),
        first: 5,
        nodes: [(1, 1, 5), (2, 0, 6), (0, 0, 0)],
        written: 2,
        top: Some(6),
        used: 3,
    },
    Row {
        hints: (Some(0), None),
        first: 3,
        nodes: [(2, 0, 3), (0, 0, 0), (0, 0, 0)],
        written: 1,
        top: Some(3),
        used: 2,
    },
    Row {
        hints: (None, None),
        first: 4,
        nodes: [(0, 0, 0); 3],
        written: 0,
        top: None,
        used: 0,
    },
];

/// Whether an image is what a row says.
fn is_as(image: &Image, row: &Row) -> bool {
    for (at, node) in image.nodes.iter().enumerate() {
        let Some((level, index, place)) = row.nodes.get(at) else {
            return false;
        };
        if *level != node.1.level || *index != node.1.index || *place != node.0.0 {
            return false;
        }
    }
    let top = match image.root.top {
        Some(Place(number)) => Some(number),
        None => None,
    };
    image.nodes.len() == row.written && top == row.top
}

/// Whether the images of a tree, one after the other, are what these rows say.
fn come_out(alloc: Global, rows: &[Row]) -> Result<bool, Refusal> {
    let geometry = Geometry::new(64, 40, 40, 8)?;
    let mut tree = Tree::new(alloc, 40);
    for row in rows {
        if row.first < 2 {
            return Ok(false);
        }
        change(&mut tree, 0, row.hints.0)?;
        change(&mut tree, 33, row.hints.1)?;
        let changed = tree.changed_nodes() as usize;
        let image = plan_at(alloc, &mut tree, &geometry, 1, row.first)?;
        let used = tree.places(alloc)?.len();
        if changed != row.written || used != row.used || !is_as(&image, row) {
            return Ok(false);
        }
        if tree.known_nodes() as usize != row.used {
            return Ok(false);
        }
    }
    Ok(true)
}

#[test]
fn an_image_writes_the_nodes_that_changed(rt: HostRuntime) -> Result<(), Fail> {
    assert!(rt; come_out(rt.alloc(), &ROWS)?);
    Ok(())
}

/// Whether the places above cache block 33 are told once its image is planned, and none before.
fn are_told(alloc: Global) -> Result<bool, Refusal> {
    let geometry = Geometry::new(64, 40, 40, 8)?;
    let mut tree = Tree::new(alloc, 40);
    change(&mut tree, 33, Some(0))?;
    let before = tree.places_above(CBlock(33));
    plan_at(alloc, &mut tree, &geometry, 1, 2)?;
    let (leaf, top) = (Some(Place(2)), Some(Place(3)));
    Ok(
        before == [None, None, None, None]
            && tree.places_above(CBlock(33)) == [leaf, top, None, None]
            && tree.places_above(CBlock(0)) == [None, top, None, None],
    )
}

#[test]
fn the_places_above_a_block_are_told(rt: HostRuntime) -> Result<(), Fail> {
    assert!(rt; are_told(rt.alloc())?);
    Ok(())
}
