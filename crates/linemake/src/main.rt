// Makes a line file of two payload files and an overhead list, super-frame by super-frame, and prints its header's numbers, or why
// it is refused: linemake PAYLOAD0 PAYLOAD1 OVERHEAD LINE, and `qpsk` behind it for a line of that profile.
// Over `cells_core`, `history_core`, `pair_stream`, `superframe`, `header_core`, `line_file`, `report` and `files`.
#![tactic(auto)]

mod encoders;
mod inputs;
mod line;
mod superframes;

use calls::Refusal;
use files::{Name, Said};
use inputs::{Inputs, LINE, PROFILE};
use profile::Profile;
use std::io::Read;
use std::random::RandomSource;
use std::rt::{Env, Files};

// Puts the name of the line file, which is none of the inputs', and the path beside it, whose X's are still to be drawn, where they are lent;
// or says why it cannot. The path is empty where it would be too long. Not compiled into its caller, which would then hold the names that
// are passed on here as long as the file is made.
#[inline(never)]
fn place<R: Files + Env + Alloc + Eprint>(
    rt: &R,
    inputs: &Inputs<R::File>,
    name: &mut Name,
    path: &mut Name,
) -> Result<(), Said> {
    *name = files::target(rt, LINE)?;
    inputs::spare(rt, inputs, name)?;
    *path = name.beside(b"XXXXXX").unwrap_or(Name::new());
    Ok(())
}

// Makes the line file, at a path beside its name, which it takes when it is whole.
fn make<R: Files + Env + RandomSource + Alloc + Eprint>(
    rt: &R,
    profile: Profile,
    inputs: &mut Inputs<R::File>,
) -> Result<(), Refusal> {
    let superframes = inputs::superframes(rt, profile, inputs)?;
    let mut name = Name::new();
    let mut path = Name::new();
    place(rt, inputs, &mut name, &mut path)?;
    let mut out = files::create(rt, name.as_bytes(), path.as_bytes_mut())?;
    match line::write(rt, profile, inputs, superframes, &mut out) {
        Ok(()) => Ok(files::finish(rt, out, path.as_bytes(), name.as_bytes())?),
        Err(refusal) => {
            files::discard(rt, out, path.as_bytes());
            Err(refusal)
        }
    }
}

// Prints the header of the line file that was made.
fn print_made<R: Files + Env + Print + Eprint>(rt: &R) {
    let mut first = [0u8; 16];
    let mut length = 0;
    if let Ok(mut made) = files::open(rt, LINE) {
        let _ = made.file.read_exact(&mut first);
        length = made.length();
    }
    report::print_header(rt, header_core::rules::judge(&first, length));
    report::explain_header(rt, b"line file", &first, length);
}

// Opens the files, makes the line file and prints its header.
fn run<R: Files + Env + RandomSource + Alloc + Print + Eprint>(
    rt: &R,
    profile: Profile,
) -> Result<(), Refusal> {
    let mut inputs = inputs::open(rt)?;
    make(rt, profile, &mut inputs)?;
    print_made(rt);
    Ok(())
}

// Runs in the profile that the arguments name, or says how the program is called.
fn start<R: Files + Env + RandomSource + Alloc + Print + Eprint>(rt: &R) -> Result<(), Refusal> {
    let Some(profile) = files::profile_at(rt, PROFILE) else {
        let _ = eprintln!(rt; "usage: linemake PAYLOAD0 PAYLOAD1 OVERHEAD LINE [qpsk]");
        return Err(Refusal::Misfit);
    };
    run(rt, profile)
}

fn main(rt: HostRuntime) {
    if let Err(refusal) = start(&rt) {
        report::print_refusal(&rt, refusal.number());
    }
}
