// The line file's content: header, overhead list, super-frames.
ghost use Rattle.cells_spec.specs.Cells.{overhead_rule, Legal};

use crate::inputs;
use crate::inputs::{Inputs, OVERHEAD};
use crate::superframes::write_all;
use calls::Refusal;
use files::{Said, message};
use profile::Profile;
use std::fs::OpenFile;
use std::io::{Read, Seek, Write};
use std::rt::Env;

// An overhead list that is legal.
#[derive(Clone, Copy)]
pub struct List<'a> {
    pub cells: &'a [u8; 12288],
    ghost legal: { Legal overhead_rule cells.now },
}

impl<'a> List<'a> {
    // These cells; or the refusal for the first illegal byte.
    fn of(cells: &'a [u8; 12288]) -> Result<List<'a>, Refusal> {
        match cells_core::legal::first_illegal(cells) {
            Some(index) => Err(Refusal::OffGrid(index)),
            None => Ok(List { cells }),
        }
    }
}

// Writes to the line file, or says why it cannot.
pub fn put<R: Eprint, W: Write>(rt: &R, out: &mut W, bytes: &[u8]) -> Result<(), Said> {
    out.write_all(bytes)
        .map_err(|error| message::fail(rt, b"line file", error))
}

// The list of these cells; or says where they have an illegal byte.
fn legal<'a, R: Env + Eprint>(rt: &R, cells: &'a [u8; 12288]) -> Result<List<'a>, Refusal> {
    List::of(cells).map_err(|refusal| {
        message::line_with(
            rt,
            OVERHEAD,
            b"a byte of 16 or more at index ",
            refusal.index(),
        );
        refusal
    })
}

// Reads the overhead list, makes the header, and writes the line file.
pub fn write<R: Env + Eprint, F: Read + Seek + OpenFile + Drop, W: Write>(
    rt: &R,
    profile: Profile,
    inputs: &mut Inputs<F>,
    superframes: u8,
    out: &mut W,
) -> Result<(), Refusal> {
    let mut overhead = [0u8; 12288];
    inputs
        .overhead
        .read(rt, &mut overhead, "the file ended early")?;
    let mut header = [0u8; 16];
    if let Err(refusal) = line_file::write_header(u32::from(superframes), &mut header) {
        inputs::say_too_many(rt, profile, inputs);
        return Err(refusal);
    }
    let list = legal(rt, &overhead)?;
    put(rt, out, &header)?;
    put(rt, out, &overhead)?;
    write_all(rt, profile, inputs, superframes, list, out)?;
    Ok(())
}
