// Workers: legal cells, and sizes. Over `cells_spec`; the calls are in `cells`, and `mapping_core` has bits to cells and back.
#![tactic(auto)]

pub mod legal;
pub mod sizes;
