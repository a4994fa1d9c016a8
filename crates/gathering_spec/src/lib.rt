// The syndromes of the words of a pair gathered by rows, definitions and laws: 02, E3. The workers are in `rows_core`, `gathering_core` and
// `mending_core`.
#![tactic(auto)]
