// Sums of sixteen numbers by constant matrices, definitions and laws: the columns are those of the code, and circuits form the sums with
// terms in common. Over `gf256`; the workers are in `block_sums_core` and `moved_sums_core`.
#![tactic(auto)]
