// Receives a capture of a line, super-frame by super-frame, with the overhead list of the line file; writes payload and marks of both
// receivers, and prints what these and the overhead cells show: linereceive LINE CAPTURE PAYLOAD0 PAYLOAD1 MARKS0 MARKS1, and `qpsk`
// behind it for a line of that profile.
// Over `marks`, `cells_core`, `history_core`, `pair_stream`, `superframe`, `header_core`, `report` and `files`.
#![tactic(auto)]

mod failure;
mod inputs;
mod outputs;
mod receiving;
mod say;

use calls::Refusal;
use failure::Failure;
use files::Name;
use inputs::Inputs;
use outputs::Outputs;
use profile::Profile;
use report::Received;
use std::fs::OpenFile;
use std::io::{Read, Seek, Write};
use std::random::RandomSource;
use std::rt::{Env, Files};

// The last argument, where there is one.
const PROFILE: usize = 7;

// Receives with the list of the line file, which must be legal.
fn receive<R: Env + Eprint, F: Read + Seek + OpenFile + Drop, W: Write>(
    rt: &R,
    profile: Profile,
    inputs: &mut Inputs<F>,
    outputs: &mut Outputs<W>,
) -> Result<Received, Refusal> {
    let Inputs { line, capture } = inputs;
    let mut list = [0u8; 12288];
    inputs::read_list(rt, line, &mut list)?;
    if let Some(index) = cells_core::legal::first_illegal(&list) {
        say::illegal(rt, (line.header.overhead as usize).saturating_add(index));
        return Err(Refusal::OffGrid(index));
    }
    inputs::seek_frames(capture);
    receiving::receive_all(rt, profile, capture, &list, outputs)
}

// Receives into files at these paths beside their names, which they take when all are whole.
fn receive_at<R: Files + Env + RandomSource + Alloc + Eprint>(
    rt: &R,
    profile: Profile,
    inputs: &mut Inputs<R::File>,
    paths: &mut [Name; 4],
) -> Result<Received, Refusal> {
    let mut outputs = outputs::make_all(rt, inputs, paths)?;
    let received = receive(rt, profile, inputs, &mut outputs)?;
    outputs::finish(rt, outputs, paths)?;
    Ok(received)
}

// The same; where it fails, nothing is left at the paths.
fn receive_to_files<R: Files + Env + RandomSource + Alloc + Eprint>(
    rt: &R,
    profile: Profile,
    inputs: &mut Inputs<R::File>,
) -> Result<Received, Refusal> {
    let mut paths = outputs::no_paths();
    let received = receive_at(rt, profile, inputs, &mut paths);
    if received.is_err() {
        outputs::remove_all(rt, &paths);
    }
    received
}

// Opens the line file and the capture, receives, and prints what came of it.
fn run<R: Files + Env + RandomSource + Alloc + Print + Eprint>(
    rt: &R,
    profile: Profile,
) -> Result<(), Failure> {
    let mut inputs = inputs::open(rt)?;
    let received = receive_to_files(rt, profile, &mut inputs)?;
    report::print_received(rt, inputs.line.header.superframes, received);
    Ok(())
}

// Runs in the profile that the arguments name, or says how the program is called.
fn start<R: Files + Env + RandomSource + Alloc + Print + Eprint>(rt: &R) -> Result<(), Failure> {
    let Some(profile) = files::profile_at(rt, PROFILE) else {
        let _ = eprintln!(rt;
            "usage: linereceive LINE CAPTURE PAYLOAD0 PAYLOAD1 MARKS0 MARKS1 [qpsk]"
        );
        return Err(Failure::from(Refusal::Misfit));
    };
    run(rt, profile)
}

fn main(rt: HostRuntime) {
    let _held = files::hold_standard(&rt);
    if let Err(failure) = start(&rt) {
        report::print_refusal(&rt, failure.number());
    }
}
