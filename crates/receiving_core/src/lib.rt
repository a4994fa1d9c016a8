// Workers: a pair received by rows, given buffers that fit: syndromes gathered side by side, then the repairs. Over `rows_core`,
// `gathering_core`, `mending_core` and `payload_core`; the call is in `receiver`.
#![tactic(auto)]

mod checks;
pub mod receiving;
