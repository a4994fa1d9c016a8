// What every call answers, and the refusals of 01, "Turned-back calls", and of 02. At the bottom, with `bits`; every crate of calls uses it.
#![tactic(auto)]

ghost use Rattle.std.specs.Prelude.{◌≡◌};
ghost use Rattle.calls.specs.Answers.{number_of, place_of, refusal_of, index_of};

// The reasons for which a call is refused.
#[derive(Clone, Copy, Debug, PartialEq, Eq)]
pub enum Refusal {
    // A lent buffer is not of the stated length.
    Misfit,
    // A rule of the line file's header fails.
    BadHeader,
    // The pair number is 4,294,967,295.
    CountSpent,
    // A sub-frame above 47, or a super-frame not below n.
    NoSuchFrame,
    // An illegal byte in cells that the call reads, at this index of its buffer.
    OffGrid(usize),
    // The history's front shows another encoder or pair number than the call names, or the encoder is above 1.
    StrayHistory,
}

impl Refusal {
    // Its number in the table of 01.
    pub fn number(self) -> u32
        ensures { result ≡ number_of self }
    {
        match self {
            Refusal::Misfit => 1,
            Refusal::BadHeader => 2,
            Refusal::CountSpent => 3,
            Refusal::NoSuchFrame => 4,
            Refusal::OffGrid(_) => 5,
            Refusal::StrayHistory => 6,
        }
    }

    // The index that it returns.
    pub fn index(self) -> usize
        ensures { result ≡ place_of self }
    {
        match self {
            Refusal::OffGrid(index) => index,
            Refusal::Misfit => 0,
            Refusal::BadHeader => 0,
            Refusal::CountSpent => 0,
            Refusal::NoSuchFrame => 0,
            Refusal::StrayHistory => 0,
        }
    }
}

// What a call answers: its number where it gives one and 0 otherwise; or why it is refused.
pub type Answer = Result<u32, Refusal>;

// The refusal's number in the table of 01; 0 for a call that was done.
pub fn refusal_of(a: Answer) -> u32
    ensures { result ≡ refusal_of a }
{
    match a {
        Ok(_) => 0,
        Err(refusal) => refusal.number(),
    }
}

// The index that a refusal returns; 0 for a call that was done.
pub fn index_of(a: Answer) -> usize
    ensures { result ≡ index_of a }
{
    match a {
        Ok(_) => 0,
        Err(refusal) => refusal.index(),
    }
}
