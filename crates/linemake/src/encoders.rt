// The encoders. Each encodes the payload of its file, super-frame by super-frame.
ghost use Rattle.std.specs.Prelude.{◌≡◌, ◌+◌, ◌*◌, ◌≤◌, ◌<◌, length, OnOk};
ghost use Rattle.pair_spec.specs.Front.{BeforePair};
ghost use Rattle.profiles_spec.specs.Profiles.{modulation};

use cells_core::sizes::pairs;
use files::{Input, Said};
use profile::Profile;
use std::fs::OpenFile;
use std::io::{Read, Seek};
use std::rt::Env;

// An encoder: its number, that of its next pair, and the history before that pair.
#[derive(Drop)]
pub struct Encoder {
    pub number: u32,
    pub next: u32,
    pub history: [u8; 5128],
    ghost known: { number ≤ 1 },
    ghost before: { BeforePair number next history },
}

impl Encoder {
    // From fresh.
    pub fn fresh(number: u32) -> Encoder
        requires { number ≤ 1 }
        ensures { (result.number ≡ number) × (result.next ≡ 0) }
    {
        Encoder {
            number,
            next: 0,
            history: history_core::fresh(number),
        }
    }

    // The coded pairs of the payload of so many.
    fn encode(&mut self, pairs: usize, payload: &[u8], coded: &mut [u8])
        requires { (pairs ≤ 168) × (length payload.now ≡ pairs * 444) × (self.old.next < 65536) × (length coded.old ≡ pairs * 512) }
        ensures { (self.new.number ≡ self.old.number) × (self.new.next ≡ self.old.next + pairs) }
    {
        pair_stream::encode(
            pairs,
            payload,
            self.number,
            self.next,
            &mut self.history,
            coded,
        );
        self.next += pairs as u32;
    }

    // The coded pairs of the next super-frame, at the front of their buffer. Its payload is read into the front of one that has room for the
    // frames of a super-frame, so that no stack is needed for it.
    pub fn encode_next<R: Env + Eprint, F: Read + Seek + OpenFile + Drop>(
        &mut self,
        rt: &R,
        profile: Profile,
        input: &mut Input<F>,
        space: &mut [u8; 356352],
        coded: &mut [u8; 86016],
    ) -> Result<(), Said>
        requires { self.old.next < 65536 }
        ensures { (self.new.number ≡ self.old.number) × OnOk result ((self.new.next ≡ self.old.next + (modulation profile).bits * 21) × (self.new.next ≤ self.old.next + 168)) }
    {
        let n = pairs(profile);
        let payload = &mut space[..n * 444];
        input.read(rt, payload, "the file ended early")?;
        self.encode(n, payload, &mut coded[..n * 512]);
        Ok(())
    }
}

// Both: encoder 0 and encoder 1.
#[derive(Drop)]
pub struct Encoders {
    pub first: Encoder,
    pub second: Encoder,
    ghost numbered: { (first.number ≡ 0) × (second.number ≡ 1) },
}
