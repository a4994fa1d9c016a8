// Sub-frames, definitions and laws: 01, "Super-frame". Over `cells_spec`; the workers are in `frame_core`, the calls in `frame`.
#![tactic(auto)]
