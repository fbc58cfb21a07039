//! The status line of a target.

ghost use Rattle.std.specs.Prelude.{◌≡◌, ◌++◌, Some, OnOk, OnErr, IfErr, string_bytes};
ghost use Rattle.wb_table.specs.Status.{accesses, arguments, features, figures, mode_name, moves, settings, sizes, status_line};

use std::fmt;
use std::fmt::Display;
use wb_types::{Mode, Refusal};

/// What the status line tells (the kernel's `cache.rst`, "Status"), in its order.
#[derive(Clone, Copy)]
pub struct Fields<'a> {
    /// Whether the target has failed: then nothing else is told.
    pub failed: bool,
    /// Metadata blocks, of one sector each: the root's two slots, and the nodes of the committed mapping.
    pub used_metadata: u32,
    pub metadata: u32,
    /// Sectors of a cache block.
    pub block: u32,
    /// Cache blocks with an entry.
    pub mapped: u32,
    pub cache_blocks: u32,
    pub read_hits: u64,
    pub read_misses: u64,
    pub write_hits: u64,
    pub write_misses: u64,
    pub demotions: u64,
    pub promotions: u64,
    /// Mapped blocks whose newest content is in the cache alone.
    pub dirty: u32,
    pub mode: Mode,
    /// Whether the metadata are of version 2.
    pub metadata2: bool,
    /// The greatest sum of sectors that live orders may have.
    pub threshold: u64,
    /// The policy's name.
    pub policy: &'a str,
    /// The least estimate at which a block is promoted, where the policy has one.
    pub promote_min: Option<u64>,
}

impl Display for Fields<'_> {
    ghost output = { λ fields. Some (status_line fields) };

    fn fmt<W: fmt::Write>(&self, f: &mut fmt::Formatter<W>) -> fmt::Result {
        if self.failed {
            f.write_str("Fail")
        } else {
            write!(f, "{}", Figures(*self))
        }
    }
}

/// What is told of a target that works.
#[derive(Clone, Copy)]
struct Figures<'a>(Fields<'a>);

impl Display for Figures<'_> {
    ghost output = { λ told. Some (figures told.0) };

    fn fmt<W: fmt::Write>(&self, f: &mut fmt::Formatter<W>) -> fmt::Result {
        let Figures(told) = *self;
        let (sizes, accesses) = (Sizes(told), Accesses(told));
        let (moves, settings) = (Moves(told), Settings(told));
        write!(f, "{sizes} {accesses} {moves} {settings} rw -")
    }
}

/// What is in use, of how much.
#[derive(Clone, Copy)]
struct Sizes<'a>(Fields<'a>);

impl Display for Sizes<'_> {
    ghost output = { λ told. Some (sizes told.0) };

    fn fmt<W: fmt::Write>(&self, f: &mut fmt::Formatter<W>) -> fmt::Result {
        let Fields {
            used_metadata,
            metadata,
            block,
            mapped,
            cache_blocks,
            ..
        } = self.0;
        write!(
            f,
            "1 {used_metadata}/{metadata} {block} {mapped}/{cache_blocks}"
        )
    }
}

/// Hits and misses.
#[derive(Clone, Copy)]
struct Accesses<'a>(Fields<'a>);

impl Display for Accesses<'_> {
    ghost output = { λ told. Some (accesses told.0) };

    fn fmt<W: fmt::Write>(&self, f: &mut fmt::Formatter<W>) -> fmt::Result {
        let Fields {
            read_hits,
            read_misses,
            write_hits,
            write_misses,
            ..
        } = self.0;
        write!(f, "{read_hits} {read_misses} {write_hits} {write_misses}")
    }
}

/// What was moved, and what is to be.
#[derive(Clone, Copy)]
struct Moves<'a>(Fields<'a>);

impl Display for Moves<'_> {
    ghost output = { λ told. Some (moves told.0) };

    fn fmt<W: fmt::Write>(&self, f: &mut fmt::Formatter<W>) -> fmt::Result {
        let Fields {
            demotions,
            promotions,
            dirty,
            ..
        } = self.0;
        write!(f, "{demotions} {promotions} {dirty}")
    }
}

/// Features, and the arguments of the target and of its policy.
#[derive(Clone, Copy)]
struct Settings<'a>(Fields<'a>);

impl Display for Settings<'_> {
    ghost output = { λ told. Some (settings told.0) };

    fn fmt<W: fmt::Write>(&self, f: &mut fmt::Formatter<W>) -> fmt::Result {
        let Fields {
            mode,
            metadata2,
            threshold,
            policy,
            promote_min,
            ..
        } = self.0;
        let features = Features(mode, metadata2);
        let arguments = Arguments(promote_min);
        write!(
            f,
            "{features} 2 migration_threshold {threshold} {policy} {arguments}"
        )
    }
}

/// How many features there are, and each.
#[derive(Clone, Copy)]
struct Features(Mode, bool);

impl Display for Features {
    ghost output = { λ told. Some (features told.0 told.1) };

    fn fmt<W: fmt::Write>(&self, f: &mut fmt::Formatter<W>) -> fmt::Result {
        let mode = ModeName(self.0);
        if self.1 {
            write!(f, "2 metadata2 {mode}")
        } else {
            write!(f, "1 {mode}")
        }
    }
}

/// How many arguments a policy has, and each by its key and value.
#[derive(Clone, Copy)]
struct Arguments(Option<u64>);

impl Display for Arguments {
    ghost output = { λ told. Some (arguments told.0) };

    fn fmt<W: fmt::Write>(&self, f: &mut fmt::Formatter<W>) -> fmt::Result {
        match self.0 {
            Some(least) => write!(f, "2 promote_min {least}"),
            None => f.write_str("0"),
        }
    }
}

/// The feature that a mode is.
#[derive(Clone, Copy)]
struct ModeName(Mode);

impl Display for ModeName {
    ghost output = { λ told. Some (mode_name told.0) };

    fn fmt<W: fmt::Write>(&self, f: &mut fmt::Formatter<W>) -> fmt::Result {
        match self.0 {
            Mode::Writeback => f.write_str("writeback"),
            Mode::Writethrough => f.write_str("writethrough"),
            Mode::Passthrough => f.write_str("passthrough"),
        }
    }
}

/// Adds the status line, with no end of line. `Memory` where there is none, and then nothing is added.
pub fn status_text(fields: &Fields<'_>, text: &mut String) -> Result<(), Refusal>
    ensures line { OnOk result (string_bytes text.new ≡ string_bytes text.old ++ status_line fields.now) }
    ensures refused { IfErr result (λ refusal. refusal ≡ Refusal.Memory) }
    ensures unchanged { OnErr result (string_bytes text.new ≡ string_bytes text.old) }
{
    let line = fields.to_string(*text.allocator())?;
    text.push_str(line.as_str())?;
    Ok(())
}
