// The profile of a line. At the bottom, with `bits` and `calls`; `cells_spec` says what each profile makes of a symbol.
#![tactic(auto)]

// 16-QAM, eight bits a symbol (01), or QPSK, four (02, E1).
#[derive(Clone, Copy)]
pub enum Profile {
    Qam16,
    Qpsk,
}
