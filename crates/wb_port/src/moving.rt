//! Where a client's requests are performed: on the shared words by its pass, on its devices, from or into the caller's slice.

ghost use Rattle.std.specs.Prelude.{◌≤◌, length};

use crate::hand::Hand;
use wb_cells::Cells;
use wb_types::Content;

/// How many sectors a step on a device takes at most: 128 KiB.
pub const LONGEST: u64 = 256;

/// The stage of a read: extents go from a device straight to the caller's slice.
#[derive(Drop)]
pub struct ReadStage<'a, D> {
    pub cells: &'a Cells,
    pub hand: &'a mut Hand<D>,
    pub out: &'a mut [Content],
    /// How many sectors of the slice were read.
    pub moved: usize,
    ghost within: { moved ≤ length out.now },
}

/// The stage of a write: extents go from the caller's slice straight to a device.
#[derive(Drop)]
pub struct WriteStage<'a, D> {
    pub cells: &'a Cells,
    pub hand: &'a mut Hand<D>,
    pub from: &'a [Content],
    /// How many sectors of the slice were written.
    pub moved: usize,
    ghost within: { moved ≤ length from.now },
}
