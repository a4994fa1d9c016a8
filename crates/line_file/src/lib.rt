// The calls on a line file: opening it, reading its sub-frames, writing a header (01, "Line file"). Over `opening_core`,
// `line_file_core` and `header`, by the definitions of `line_file_spec`.
#![tactic(auto)]

mod line_file;

pub use header::write_header;
pub use line_file::{LineFile, frame_of, open, read, read_refusal, refusal_of_frame};
pub use line_file_core::reading::{read_at, read_refusal_at, start};
pub use opening_core::{open_header, open_part, open_refusal};
