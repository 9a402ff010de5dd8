// Whole blocks of indices, by which the walk goes faster where nothing in them can branch: what a
// block is made of, what its bits lose at the block's row, and the bits themselves.
#![tactic(auto)]

pub mod frozen;
pub mod information;
