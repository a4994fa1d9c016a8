// Workers of the interleaver on the block rows of a buffer. Over `block_core`; the calls are in `interleaver`.
#![tactic(auto)]

mod buffer;
pub mod joining;
pub mod rows;
pub mod taking_apart;
