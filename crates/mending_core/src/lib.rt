// Workers: the words of a pair repaired where one needs it, by syndromes gathered side by side. Over `locating_core` and
// `permutation_core`, and specs of `pair_words_core`; `receiving_core` receives pairs with them.
#![tactic(auto)]

pub mod checks;
mod guide;
pub mod mending;
mod words;
