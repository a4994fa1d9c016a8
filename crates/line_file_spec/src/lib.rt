// The line file, definitions and laws, and the type that they use: 01, "Line file". The workers are in `header_core`,
// `opening_core` and `line_file_core`, the calls in `header` and `line_file`.
#![tactic(auto)]

// The numbers of a header that keeps the rules.
#[derive(Clone, Copy, Debug, PartialEq, Eq)]
pub struct Header {
    pub superframes: u32,
    pub overhead: u32,
    pub frames: u32,
    pub total: u32,
}
