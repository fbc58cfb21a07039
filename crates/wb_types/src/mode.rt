//! Modes and devices.

use std::fmt;

/// How writes to cached blocks reach the devices (the kernel's `cache.rst`, "Cache operating modes").
#[derive(Clone, Copy, PartialEq, Eq)]
pub enum Mode {
    /// A write to a cached block goes to the cache alone, and the block becomes dirty.
    Writeback,
    /// A write to a cached block reaches origin and cache before it completes.
    Writethrough,
    /// Every read and write goes to the origin, and a write removes the block's entry.
    Passthrough,
}

impl fmt::Display for Mode {
    fn fmt<W: fmt::Write>(&self, f: &mut fmt::Formatter<W>) -> fmt::Result {
        f.write_str(match self {
            Mode::Writeback => "writeback",
            Mode::Writethrough => "writethrough",
            Mode::Passthrough => "passthrough",
        })
    }
}

/// A device of the cache target.
#[derive(Clone, Copy, Debug, PartialEq, Eq)]
pub enum Dev {
    Metadata,
    Cache,
    Origin,
}

impl fmt::Display for Dev {
    fn fmt<W: fmt::Write>(&self, f: &mut fmt::Formatter<W>) -> fmt::Result {
        f.write_str(match self {
            Dev::Metadata => "metadata",
            Dev::Cache => "cache",
            Dev::Origin => "origin",
        })
    }
}
