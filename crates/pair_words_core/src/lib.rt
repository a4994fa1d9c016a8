// Workers: the words of a pair gathered from history, payload and coded pair; a pair that enters the history. Over `pair_spec` and
// `blocks`, below `payload_core`, `rows_core`, `mending_core`, `encoding_core` and `receiving_core`.
#![tactic(auto)]

mod bytes;
mod columns;
pub mod history;
pub mod words;
