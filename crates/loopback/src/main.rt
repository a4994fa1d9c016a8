// Two payload streams from a fixed seed, through the whole chain and back over a damaged line, with refused calls in between; what came
// of it, in counts. A run is 16 buffers: two super-frames of 16-QAM; and then four of QPSK.
// Over `pair_words_core`, `history_core`, `pair_stream`, `cells_core`, `superframe`, `loopback_core`, `loopback_refused_core`, `report` and
// `files`.
//
// Each function that has a large array returns before the next such array is needed, so that the program stays within a megabyte of
// stack: one receiver after the other, each with a run of the line of its own, and what was sent is encoded again where it is needed.
#![tactic(auto)]

mod line;
mod printing;
mod receiving;
mod sending;

use profile::Profile;
use receiving::Run;
use sending::{Coded, Encoder};

// Runs an encoder. Not compiled into its caller, which would then hold its array beside the line's.
#[inline(never)]
fn run_encoder<R: Print + Eprint>(rt: &R, encoder: Encoder) {
    sending::encode(rt, encoder, &mut [0; 172032]);
}

// Receives what came off the line, beside what was sent.
fn compare_with_sent<R: Print + Eprint>(rt: &R, encoder: Encoder, got: &Coded) {
    let mut sent = [0; 172032];
    sending::encode_again(encoder, &mut sent);
    let run = Run {
        encoder,
        sent: &sent,
        got,
    };
    receiving::receive(rt, run);
}

// Runs the line and the receiver of an encoder. The line is the same for both receivers, and what it did is printed once.
fn run_receiver<R: Print + Eprint>(rt: &R, profile: Profile, encoder: Encoder) {
    let mut got = [0; 172032];
    let mut counts = [0; 41];
    line::carry(profile, encoder, &mut got, &mut counts);
    if encoder.number == 0 {
        printing::print_line(rt, &counts);
    }
    compare_with_sent(rt, encoder, &got);
}

// Runs both encoders and both receivers.
fn run<R: Print + Eprint>(rt: &R, profile: Profile) {
    let first = Encoder { number: 0 };
    let second = Encoder { number: 1 };
    run_encoder(rt, first);
    run_encoder(rt, second);
    run_receiver(rt, profile, first);
    run_receiver(rt, profile, second);
}

// Says that an argument is one too many. Not compiled into its caller, which would then hold the text's buffer all along.
#[inline(never)]
fn say_argument<R: Eprint>(rt: &R) {
    let _ = eprintln!(rt; "loopback takes no argument: it reads nothing and makes its own payload");
}

fn main(rt: HostRuntime) {
    if files::has_argument(&rt, 1) {
        say_argument(&rt);
    }
    run(&rt, Profile::Qam16);
    printing::print_qpsk(&rt);
    run(&rt, Profile::Qpsk);
}
