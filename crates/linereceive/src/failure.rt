// Why nothing is received.
use calls::Refusal;
use files::Said;

#[derive(Clone, Copy)]
pub enum Failure {
    // A call, a header or a file is refused.
    Refused(Refusal),
    // The two files have not as many super-frames.
    Unequal,
}

impl From<Refusal> for Failure {
    fn from(refusal: Refusal) -> Failure {
        Failure::Refused(refusal)
    }
}

impl From<Said> for Failure {
    fn from(said: Said) -> Failure {
        Failure::Refused(Refusal::from(said))
    }
}

impl Failure {
    // The number that is printed.
    pub fn number(self) -> u32 {
        match self {
            Failure::Refused(refusal) => refusal.number(),
            Failure::Unequal => 12,
        }
    }
}
