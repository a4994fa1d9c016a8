// The profiles, 16-QAM and QPSK, and the modulation of each, with what holds of both. Over `cells_spec`, whose laws of the two modulations
// are facts of the profiles.
#![tactic(auto)]
