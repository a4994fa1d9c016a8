// Profiles, levels and cells, definitions and laws: 01, "Cells". The workers are in `levels_core`, `mapping_core` and
// `cells_core`, the calls in `cells`.
#![tactic(auto)]
