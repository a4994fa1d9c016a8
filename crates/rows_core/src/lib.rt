// The words of a pair side by side, from rows in byte order: back halves of a coded pair, front halves as a history holds them. Over
// `permutation_core`; `receiving_core` gathers syndromes of them.
#![tactic(auto)]

pub mod rows;
