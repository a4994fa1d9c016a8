// What the marks of received words add up to. Over `word_spec`, below `linereceive` and `loopback_core`.
#![tactic(auto)]

ghost use Rattle.std.specs.Prelude.{◌≡◌, ◌≤◌, length};
ghost use Rattle.word_spec.specs.Marks.{flips_in, lost_in};
ghost use Rattle.marks.specs.Marks.{mark_sums};

// The flips in words that were repaired, and the number of lost words.
#[derive(Clone, Copy)]
pub struct Sums {
    pub flips: u32,
    pub lost: u32,
}

// The flips that a mark tells of.
#[tactic(auto, using(word_spec::proofs::MarkLaws::marks_telling))]
fn flips_in(mark: u8) -> u32
    ensures { (result ≡ flips_in mark) × (result ≤ 2) }
{
    if mark < 3 { u32::from(mark) } else { 0 }
}

// The lost words that it tells of.
#[tactic(auto, using(word_spec::proofs::MarkLaws::marks_telling))]
pub fn lost_in(mark: u8) -> u32
    ensures { (result ≡ lost_in mark) × (result ≤ 1) }
{
    if mark == 3 { 1 } else { 0 }
}

// The sums over marks.
pub fn add_up(marks: &[u8]) -> Sums
    requires { length marks.now ≤ 65536 }
    ensures { result ≡ mark_sums marks.now }
{
    let mut sums = Sums { flips: 0, lost: 0 };
    for mark in marks {
        sums.flips += flips_in(*mark);
        sums.lost += lost_in(*mark);
    }
    sums
}
