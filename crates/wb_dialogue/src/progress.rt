//! Where long work stands, for who asked for it.

use std::time::{Clock, Instant};
use wb_types::Geometry;

/// Who is told how far a request has come.
pub trait Paced {
    /// A request begins.
    fn begin(&mut self);

    /// So many of the request's sectors are done.
    fn reach(&mut self, done: u64, all: u64);
}

/// Says on standard error what was opened, and each second how far a long request has come; nothing where nobody asked.
#[derive(Drop)]
pub struct Progress<'a, T> {
    rt: &'a T,
    asked: bool,
    /// When something was last told, or the request began.
    since: Option<Instant>,
}

impl<'a, T: Clock + Eprint> Progress<'a, T> {
    pub fn new(rt: &'a T, asked: bool) -> Progress<'a, T> {
        Progress {
            rt,
            asked,
            since: None,
        }
    }

    /// Whether somebody asked.
    pub fn is_asked(&self) -> bool {
        self.asked
    }

    /// The cache is open, with so many blocks mapped and so many of them dirty. It is for who asked.
    pub fn opened(&self, geometry: &Geometry, mapped: u32, dirty: u32) {
        let (sectors, cache_blocks) = (geometry.origin_sectors(), geometry.cache_blocks);
        let _ = eprintln!(self.rt;
            "wbcache: opened {sectors} sectors; {mapped} of {cache_blocks} cache blocks mapped, {dirty} dirty"
        );
    }
}

impl<'a, T: Clock + Eprint> Paced for Progress<'a, T> {
    fn begin(&mut self) {
        if self.asked {
            self.since = Instant::now(self.rt).ok();
        }
    }

    fn reach(&mut self, done: u64, all: u64) {
        let Some(since) = &self.since else {
            return;
        };
        match since.elapsed(self.rt) {
            Ok(passed) if passed.as_secs() >= 1 => {
                let _ = eprintln!(self.rt; "wbcache: {done} of {all} sectors");
                self.since = Instant::now(self.rt).ok();
            }
            _ => {}
        }
    }
}

/// Nobody is told.
#[derive(Clone, Copy)]
pub struct Unseen;

impl Paced for Unseen {
    fn begin(&mut self) {}

    fn reach(&mut self, _done: u64, _all: u64) {}
}
