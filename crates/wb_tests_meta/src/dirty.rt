//! Trees of dirty bits. Which damage of them is told by which place stands in scripts/cases/damaged_bits.txt.

mod blocks;
mod planning;
mod root;
