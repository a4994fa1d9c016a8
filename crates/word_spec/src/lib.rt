// Check words, definitions and laws: 01, "Code words". Over `gf256`; the functions are in `word`, and pairs (`pair_spec`) rest on it.
#![tactic(auto)]

// What the repair of a word flips: nothing, one place, two places (rising); or no code word is within two flips.
#[derive(Clone, Copy)]
pub enum Repair {
    Sound,
    One(usize),
    Two(usize, usize),
    Lost,
}

// The syndromes of a word, at a and at a^3, and its parity.
#[derive(Clone, Copy)]
pub struct Syndromes {
    pub s1: u8,
    pub s3: u8,
    pub parity: u8,
}
