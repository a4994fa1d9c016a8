// Rows and pairs, definitions and laws, the code layer's promise among them: 01, "Rows and pairs". Over `word_spec`; the workers are in
// `pair_words_core`, `encoding_core`, `mending_core` and `receiving_core`, the calls in `encoder` and `receiver`, and whole runs (`line_spec`)
// rest on the promise.
#![tactic(auto)]
