// Super-frame after super-frame, both receivers from fresh.
ghost use Rattle.std.specs.Prelude.{◌≡◌, ◌+◌, ◌*◌, ◌≤◌, ◌<◌, length, OnOk};
ghost use Rattle.pair_spec.specs.Front.{BeforePair, BothBefore};
ghost use Rattle.profiles_spec.specs.Profiles.{modulation};

use crate::inputs::Headed;
use crate::outputs::{Outputs, Side};
use crate::{inputs, say};
use calls::Refusal;
use cells_core::sizes::pairs;
use files::{Said, message};
use marks::Sums;
use profile::Profile;
use report::Received;
use std::fs::OpenFile;
use std::io::{Read, Seek, Write};
use std::rt::Env;

// A receiver: its number, that of its next pair, and the history before that pair.
#[derive(Drop)]
pub struct Receiver {
    pub number: u32,
    pub next: u32,
    pub history: [u8; 5128],
    ghost known: { number ≤ 1 },
    ghost before: { BeforePair number next history },
}

// Both: the receiver of encoder 0 and that of encoder 1.
#[derive(Drop)]
pub struct Receivers {
    pub first: Receiver,
    pub second: Receiver,
    ghost numbered: { (first.number ≡ 0) × (second.number ≡ 1) },
}

impl Receiver {
    // From fresh.
    pub fn fresh(number: u32) -> Receiver
        requires { number ≤ 1 }
        ensures { (result.number ≡ number) × (result.next ≡ 0) }
    {
        Receiver {
            number,
            next: 0,
            history: history_core::fresh(number),
        }
    }

    // Payload and marks of so many coded pairs.
    fn receive(&mut self, pairs: usize, coded: &[u8], payload: &mut [u8], marks: &mut [u8])
        requires { (pairs ≤ 168) × (length coded.now ≡ pairs * 512) × (self.old.next < 65536) × (length payload.old ≡ pairs * 444) × (length marks.old ≡ pairs * 32) }
        ensures { (self.new.number ≡ self.old.number) × (self.new.next ≡ self.old.next + pairs) }
    {
        pair_stream::receive(
            pairs,
            coded,
            self.number,
            self.next,
            &mut self.history,
            payload,
            marks,
        );
        self.next += pairs as u32;
    }

    // Receives the pairs of the next super-frame, which lie at the front of their buffer, writes payload and marks, and adds these up. The
    // payload takes the front of a buffer that has room for the frames of a super-frame, so that no stack is needed for it.
    fn receive_next<R: Eprint, W: Write>(
        &mut self,
        rt: &R,
        profile: Profile,
        coded: &[u8; 86016],
        space: &mut [u8; 356352],
        side: &mut Side<W>,
    ) -> Result<Sums, Said>
        requires { self.old.next < 65536 }
        ensures { (self.new.number ≡ self.old.number) × OnOk result ((self.new.next ≡ self.old.next + (modulation profile).bits * 21) × (self.new.next ≤ self.old.next + 168)) }
    {
        let n = pairs(profile);
        let payload = &mut space[..n * 444];
        let mut buffer = [0u8; 5376];
        let marks = &mut buffer[..n * 32];
        self.receive(n, &coded[..n * 512], payload, marks);
        side.payload.put(rt, payload)?;
        side.marks.put(rt, marks)?;
        Ok(marks::add_up(marks))
    }
}

// Takes the pairs of both encoders off the frames of super-frame q, the next of the capture, which is read into a buffer, and answers how
// many overhead cells differ; or says that the capture ended, or where its illegal byte is.
fn take<R: Env + Eprint, F: Read + Seek + OpenFile + Drop>(
    rt: &R,
    profile: Profile,
    capture: &mut Headed<F>,
    q: u32,
    list: &[u8; 12288],
    frames: &mut [u8; 356352],
    pairs0: &mut [u8; 86016],
    pairs1: &mut [u8; 86016],
) -> Result<u32, Refusal>
    requires { q < 64 }
{
    inputs::read_frames(rt, capture, frames)?;
    let m = pairs(profile) * 512;
    let taken = superframe::take_apart(profile, frames, list, &mut pairs0[..m], &mut pairs1[..m]);
    if let Err(Refusal::OffGrid(at)) = taken {
        let start = capture.header.frames as usize + q as usize * 356352;
        say::illegal_cell(rt, profile, start + at % 356352);
    }
    taken
}

// Receives super-frame q, both receivers being at the same pair: how many overhead cells differ, and what the marks of both receivers add
// up to. Unless that fails, the histories are then those of both receivers before the pairs of the super-frame after it.
fn receive_next<R: Env + Eprint, F: Read + Seek + OpenFile + Drop, W: Write>(
    rt: &R,
    profile: Profile,
    capture: &mut Headed<F>,
    q: u32,
    list: &[u8; 12288],
    receivers: &mut Receivers,
    space: &mut [u8; 356352],
    outputs: &mut Outputs<W>,
) -> Result<(u32, Sums, Sums), Refusal>
    requires { (q < 64) × (receivers.old.first.next < 65536) × (receivers.old.second.next ≡ receivers.old.first.next) }
    ensures { OnOk result ((receivers.new.first.next ≡ receivers.old.first.next + (modulation profile).bits * 21) × (receivers.new.first.next ≤ receivers.old.first.next + 168) × (receivers.new.second.next ≡ receivers.new.first.next) × BothBefore receivers.new.first.next receivers.new.first.history receivers.new.second.history) }
{
    let mut pairs0 = [0u8; 86016];
    let mut pairs1 = [0u8; 86016];
    let differing = take(
        rt,
        profile,
        capture,
        q,
        list,
        space,
        &mut pairs0,
        &mut pairs1,
    )?;
    let Receivers { first, second } = receivers;
    let sums0 = first.receive_next(rt, profile, &pairs0, space, &mut outputs.first)?;
    let sums1 = second.receive_next(rt, profile, &pairs1, space, &mut outputs.second)?;
    Ok((differing, sums0, sums1))
}

// Receives all super-frames. It is not inlined, so that its buffers are off the stack while files are made and named.
#[inline(never)]
pub fn receive_all<R: Env + Eprint, F: Read + Seek + OpenFile + Drop, W: Write>(
    rt: &R,
    profile: Profile,
    capture: &mut Headed<F>,
    list: &[u8; 12288],
    outputs: &mut Outputs<W>,
) -> Result<Received, Refusal> {
    let mut receivers = Receivers {
        first: Receiver::fresh(0),
        second: Receiver::fresh(1),
    };
    let mut space = [0u8; 356352];
    let mut received = Received {
        flips: 0,
        lost: 0,
        overhead: 0,
    };
    let n = capture.header.superframes;
    for q in 0..n {
        let (differing, sums0, sums1) = receive_next(
            rt,
            profile,
            capture,
            q,
            list,
            &mut receivers,
            &mut space,
            outputs,
        )?;
        received.flips += u64::from(sums0.flips) + u64::from(sums1.flips);
        received.lost += u64::from(sums0.lost) + u64::from(sums1.lost);
        received.overhead += u64::from(differing);
        message::progress(rt, q + 1, n);
    }
    Ok(received)
}
