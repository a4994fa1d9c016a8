// Workers: the header of a line file, its rules over sixteen bytes and a length. By the definitions of `line_file_spec`, below
// `opening_core` and the programs.
#![tactic(auto)]

pub mod rules;
