//! What a replay keeps of an actor.

use std::alloc::{AllocError, Global};
use wb_types::Content;

/// What an actor was told to do last.
#[derive(Clone, Copy)]
pub(crate) enum Given {
    Read,
    Open,
    /// A write, a flush, a suspend or a migration.
    Other,
}

/// What fills a sector.
#[derive(Clone, Copy)]
pub(crate) enum Fill {
    /// Each byte is this one.
    Uniform(u8),
    /// Two bytes differ.
    Mixed,
}

impl Fill {
    /// What fills this content.
    pub(crate) fn of(content: &Content) -> Fill {
        if content[1..] == content[..content.len() - 1] {
            Fill::Uniform(content[0])
        } else {
            Fill::Mixed
        }
    }
}

/// An actor: what it was told last, where the block of its request begins, and what a read was given of each sector.
#[derive(Drop)]
pub(crate) struct Actor {
    pub(crate) given: Given,
    pub(crate) block: u64,
    pub(crate) read: Vec<(u64, Fill)>,
}

impl Actor {
    /// One that was told nothing.
    fn new(alloc: Global) -> Actor {
        Actor {
            given: Given::Other,
            block: 0,
            read: Vec::new(alloc),
        }
    }

    /// It was told this, of sectors of a block that begins there.
    pub(crate) fn begin(&mut self, given: Given, block: u64) {
        self.given = given;
        self.block = block;
        self.read.clear();
    }
}

/// So many actors.
pub(crate) fn actors_of(alloc: Global, count: u64) -> Result<Vec<Actor>, AllocError> {
    let mut actors = Vec::new(alloc);
    for _ in 0..count {
        actors.reserve(1)?;
        actors.push_reserved(Actor::new(alloc));
    }
    Ok(actors)
}
