// S1, S3 and parities of the words of a pair, from rows that have its words side by side, as 02, E3 asks: the sums of all words are formed
// together. Over `block_sums_core` and `moved_sums_core`; `rows_core` has the rows, and the repairs come afterwards, in `receiving_core`.
#![tactic(auto)]

pub mod lanes;
