//! Numbers that are not to be taken for one another.

use std::fmt;

/// A sector of the origin's address range, counted from 0.
#[derive(Clone, Copy, PartialEq, Eq)]
pub struct Sector(pub u64);

/// A block of the origin, counted from 0.
#[derive(Clone, Copy, PartialEq, Eq)]
pub struct OBlock(pub u32);

/// A block of the cache device, counted from 0.
#[derive(Clone, Copy, PartialEq, Eq)]
pub struct CBlock(pub u32);

/// A sector of the metadata device, counted from 0; 0 and 1 are the root slots.
#[derive(Clone, Copy, Debug, PartialEq, Eq)]
pub struct Place(pub u32);

impl fmt::Display for Sector {
    fn fmt<W: fmt::Write>(&self, f: &mut fmt::Formatter<W>) -> fmt::Result {
        let Sector(number) = *self;
        write!(f, "{number}")
    }
}

impl fmt::Display for OBlock {
    fn fmt<W: fmt::Write>(&self, f: &mut fmt::Formatter<W>) -> fmt::Result {
        let OBlock(number) = *self;
        write!(f, "{number}")
    }
}

impl fmt::Display for CBlock {
    fn fmt<W: fmt::Write>(&self, f: &mut fmt::Formatter<W>) -> fmt::Result {
        let CBlock(number) = *self;
        write!(f, "{number}")
    }
}

impl fmt::Display for Place {
    fn fmt<W: fmt::Write>(&self, f: &mut fmt::Formatter<W>) -> fmt::Result {
        let Place(number) = *self;
        write!(f, "{number}")
    }
}
