// Whole runs of the exported functions, definitions and laws alone. Over `capi` and `line_spec`.
#![tactic(auto)]
