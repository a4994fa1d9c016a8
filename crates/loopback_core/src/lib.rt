// Workers of `loopback` that call none of the steps over pairs and super-frames: what is drawn, struck on the line, passed through a line
// file, compared and counted; and steps one after the other, as loops make them. Over `cells_core`, `pair_words_core` and `line_file`.
#![tactic(auto)]

pub mod comparing;
pub mod counts;
pub mod file;
pub mod noise;
pub mod random;
