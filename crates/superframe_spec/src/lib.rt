// Super-frames of the line, definitions and laws. Over `line_spec`; the workers are in `superframe_buffers_core` and `superframe_core`, the
// steps in `superframe`.
#![tactic(auto)]
