// Whole runs of the line, definitions and theorems alone: demand 3. Over `pair_spec`, `interleaver_spec`, `cells_spec` and `frame_spec`;
// `superframe_spec` and `clients_spec` tie steps and exported calls to it.
#![tactic(auto)]
