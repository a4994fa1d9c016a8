// Workers: a sub-frame of a line file, given as a slice and numbers, read in place. Over `opening_core`, by the definitions of
// `line_file_spec`; the calls are in `line_file`.
#![tactic(auto)]

pub mod reading;
