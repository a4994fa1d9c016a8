// The four files that are written: each is made beside its name and takes it when all four are whole.
use crate::inputs::Inputs;
use files::{Name, Said, message};
use std::io::Write;
use std::random::RandomSource;
use std::rt::{Env, Files};

// The first of their arguments.
const FIRST: usize = 3;

// A file that is written, and what it is called where a write fails.
#[derive(Drop)]
pub struct Output<F> {
    file: F,
    what: &'static str,
}

impl<F: Write> Output<F> {
    // Writes to the file, or says why it cannot.
    pub fn put<R: Eprint>(&mut self, rt: &R, bytes: &[u8]) -> Result<(), Said> {
        self.file
            .write_all(bytes)
            .map_err(|error| message::fail(rt, self.what.as_bytes(), error))
    }
}

// Payload and marks of a receiver.
#[derive(Drop)]
pub struct Side<F> {
    pub payload: Output<F>,
    pub marks: Output<F>,
}

// Those of both. They stand in no array: the proof of its drop would need the size of a file.
#[derive(Drop)]
pub struct Outputs<F> {
    pub first: Side<F>,
    pub second: Side<F>,
}

// Says which input a name is that of, where it is one's.
fn spare_inputs<R: Files + Env + Eprint>(
    rt: &R,
    argument: usize,
    name: &Name,
    inputs: &Inputs<R::File>,
) -> Result<(), Said> {
    let Inputs { line, capture } = inputs;
    for (headed, words) in [
        (line, "the same file as LINE"),
        (capture, "the same file as CAPTURE"),
    ] {
        if files::leads_to(rt, name.as_bytes(), &headed.input.file) {
            return Err(message::line_of(rt, argument, words));
        }
    }
    Ok(())
}

// Whether a name is that of the file which another argument gives: an empty one where it gives none.
fn is_name_of<R: Files + Env + Alloc + Eprint>(rt: &R, other: usize, name: &Name) -> bool {
    let theirs = files::target(rt, other).unwrap_or(Name::new());
    files::collide(rt, theirs.as_bytes(), name.as_bytes())
}

// Says which output before it a name is that of, where it is one's.
fn spare_outputs<R: Files + Env + Alloc + Eprint>(
    rt: &R,
    argument: usize,
    name: &Name,
) -> Result<(), Said> {
    match (FIRST..argument).find(|other| is_name_of(rt, *other, name)) {
        Some(other) => Err(message::line_with(rt, argument, b"the same file as argument ", other)),
        None => Ok(()),
    }
}

// Makes the file of an argument, and puts the path at which it lies where that is lent; or says why it cannot, and what is lent stays as it
// was.
fn make<R: Files + Env + RandomSource + Alloc + Eprint>(
    rt: &R,
    argument: usize,
    what: &'static str,
    inputs: &Inputs<R::File>,
    path: &mut Name,
) -> Result<Output<R::File>, Said> {
    let name = files::target(rt, argument)?;
    spare_inputs(rt, argument, &name, inputs)?;
    spare_outputs(rt, argument, &name)?;
    let mut beside = name.beside(b"XXXXXX").unwrap_or(Name::new());
    let file = files::create(rt, name.as_bytes(), beside.as_bytes_mut())?;
    *path = beside;
    Ok(Output { file, what })
}

// Empty paths: those of no file. This, and what is done with them, is not inlined, so that the stack holds each once.
#[inline(never)]
pub fn no_paths() -> [Name; 4] {
    [Name::new(), Name::new(), Name::new(), Name::new()]
}

// Makes the four files in the order of their arguments, and puts their paths where these are lent; or says which cannot be made, and its path
// and those behind it stay as they were.
#[inline(never)]
pub fn make_all<R: Files + Env + RandomSource + Alloc + Eprint>(
    rt: &R,
    inputs: &Inputs<R::File>,
    paths: &mut [Name; 4],
) -> Result<Outputs<R::File>, Said> {
    let payload0 = make(rt, 3, "PAYLOAD0", inputs, &mut paths[0])?;
    let payload1 = make(rt, 4, "PAYLOAD1", inputs, &mut paths[1])?;
    let marks0 = make(rt, 5, "MARKS0", inputs, &mut paths[2])?;
    let marks1 = make(rt, 6, "MARKS1", inputs, &mut paths[3])?;
    Ok(Outputs {
        first: Side {
            payload: payload0,
            marks: marks0,
        },
        second: Side {
            payload: payload1,
            marks: marks1,
        },
    })
}

// Removes what lies at these paths: nothing does at an empty one.
pub fn remove_all<R: Files>(rt: &R, paths: &[Name; 4]) {
    for path in paths {
        if !path.as_bytes().is_empty() {
            files::remove(rt, path.as_bytes());
        }
    }
}

// Closes the file of an argument; or says why it is not whole.
fn close<R: Files + Env + Eprint>(
    rt: &R,
    argument: usize,
    output: Output<R::File>,
) -> Result<(), Said> {
    let name = Name::of_argument(rt, argument).unwrap_or(Name::new());
    files::close(rt, output.file, name.as_bytes())
}

// Closes all four files, one by one, since they stand in no array; or says which are not whole.
fn close_all<R: Files + Env + Eprint>(rt: &R, outputs: Outputs<R::File>) -> Result<(), Said> {
    let Outputs { first, second } = outputs;
    let payload0 = close(rt, 3, first.payload);
    let payload1 = close(rt, 4, second.payload);
    let marks0 = close(rt, 5, first.marks);
    let marks1 = close(rt, 6, second.marks);
    payload0.and(payload1).and(marks0).and(marks1)
}

// Gives the file at a path the name of its argument, an empty one where it gives none; or says why it cannot.
fn take_name<R: Files + Env + Alloc + Eprint>(
    rt: &R,
    argument: usize,
    path: &Name,
) -> Result<(), Said> {
    let name = files::target(rt, argument).unwrap_or(Name::new());
    files::take_name(rt, path.as_bytes(), name.as_bytes())
}

// Gives all four files their names where they are whole; or says why not, and those behind the first that cannot take its name have none.
// The path of each that took its name, or was removed since it could not, is empty afterwards.
#[inline(never)]
pub fn finish<R: Files + Env + Alloc + Eprint>(
    rt: &R,
    outputs: Outputs<R::File>,
    paths: &mut [Name; 4],
) -> Result<(), Said> {
    close_all(rt, outputs)?;
    for (k, path) in paths.iter_mut().enumerate() {
        let taken = take_name(rt, FIRST + k, path);
        *path = Name::new();
        taken?;
    }
    Ok(())
}
