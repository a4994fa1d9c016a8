// Workers on a sub-frame and its own parts. Over `frame_spec`; the calls are in `frame`, and `frame_legal_core` looks for illegal bytes.
#![tactic(auto)]

pub mod comparing;
pub mod layout;
pub mod placing;
