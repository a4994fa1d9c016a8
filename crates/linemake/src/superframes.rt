// Super-frame after super-frame, both encoders from fresh.
ghost use Rattle.std.specs.Prelude.{◌≡◌, ◌+◌, ◌*◌, ◌≤◌, ◌<◌, OnOk};
ghost use Rattle.pair_spec.specs.Front.{BothBefore};
ghost use Rattle.profiles_spec.specs.Profiles.{modulation};

use crate::encoders::{Encoder, Encoders};
use crate::inputs::Inputs;
use crate::line::{List, put};
use cells_core::sizes::pairs;
use files::{Said, message};
use profile::Profile;
use std::fs::OpenFile;
use std::io::{Read, Seek, Write};
use std::rt::Env;

// Makes the frames of coded pairs and writes them.
fn write_frames<R: Eprint, W: Write>(
    rt: &R,
    profile: Profile,
    coded: &[[u8; 86016]; 2],
    list: List<'_>,
    line: &mut [u8; 356352],
    out: &mut W,
) -> Result<(), Said> {
    let m = pairs(profile) * 512;
    let overhead = list.cells;
    superframe::make(profile, &coded[0][..m], &coded[1][..m], overhead, line);
    put(rt, out, line)
}

// Encodes the pairs of the next super-frame of both encoders, which are at the same pair, makes its frames and writes them. Unless that fails,
// the histories are then those of both encoders before the pairs of the super-frame after it.
fn write_next<R: Env + Eprint, F: Read + Seek + OpenFile + Drop, W: Write>(
    rt: &R,
    profile: Profile,
    inputs: &mut Inputs<F>,
    encoders: &mut Encoders,
    list: List<'_>,
    line: &mut [u8; 356352],
    out: &mut W,
) -> Result<(), Said>
    requires { (encoders.old.first.next < 65536) × (encoders.old.second.next ≡ encoders.old.first.next) }
    ensures { OnOk result ((encoders.new.first.next ≡ encoders.old.first.next + (modulation profile).bits * 21) × (encoders.new.first.next ≤ encoders.old.first.next + 168) × (encoders.new.second.next ≡ encoders.new.first.next) × BothBefore encoders.new.first.next encoders.new.first.history encoders.new.second.history) }
{
    let mut coded = [[0u8; 86016]; 2];
    let Encoders { first, second } = encoders;
    first.encode_next(rt, profile, &mut inputs.payload0, line, &mut coded[0])?;
    second.encode_next(rt, profile, &mut inputs.payload1, line, &mut coded[1])?;
    write_frames(rt, profile, &coded, list, line, out)
}

// Writes so many super-frames. It is not inlined, so that its buffers are off the stack while the file is made and named.
#[inline(never)]
pub fn write_all<R: Env + Eprint, F: Read + Seek + OpenFile + Drop, W: Write>(
    rt: &R,
    profile: Profile,
    inputs: &mut Inputs<F>,
    superframes: u8,
    list: List<'_>,
    out: &mut W,
) -> Result<(), Said> {
    let mut encoders = Encoders {
        first: Encoder::fresh(0),
        second: Encoder::fresh(1),
    };
    let mut line = [0u8; 356352];
    for q in 0..superframes {
        write_next(rt, profile, inputs, &mut encoders, list, &mut line, out)?;
        message::progress(rt, u32::from(q) + 1, u32::from(superframes));
    }
    Ok(())
}
