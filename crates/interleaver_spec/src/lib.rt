// The interleaver, definitions and laws, and the types that they use: 01, "Interleaver". The workers are in `block_core` and
// `interleaver_core`, the calls in `interleaver`. Each block row has 16 bit rows, and a number of one never serves as the other.
#![tactic(auto)]

// The three bounds stand in the contracts and not in the types: the definitions of specs/ make a row of any number, and a ghost field
// would change what they mean.

// A block row of the buffer, 0 to 83.
#[derive(Clone, Copy)]
pub struct BlockRow(pub usize);

// A bit row of a block row, 0 to 15.
#[derive(Clone, Copy)]
pub struct BitRow(pub usize);

// A bit row of a subset, 0 to 335: 16 for each of its 21 block rows.
#[derive(Clone, Copy)]
pub struct SubsetBitRow(pub usize);
