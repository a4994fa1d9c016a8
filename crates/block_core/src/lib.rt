// Workers of the interleaver on one block. Over `interleaver_spec`; the block rows of a buffer are in `interleaver_core`.
#![tactic(auto)]

pub mod block;
