//! An opening that was asked for.

use wb_types::Mode;

/// By whom an opening was asked for, in which mode, and whether with metadata of the second version.
#[derive(Clone, Copy)]
pub struct Asked {
    pub actor: usize,
    pub mode: Mode,
    pub second: bool,
}
