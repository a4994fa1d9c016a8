// Files that are read.
use crate::message;
use crate::message::Said;
use crate::naming::name_of;
use crate::places::open_read;
use std::fs::OpenFile;
use std::io::{Read, Seek, SeekFrom};
use std::rt::{Env, Files};

// An open file, and the argument that names it.
#[derive(Drop)]
pub struct Input<F> {
    pub argument: usize,
    pub file: F,
}

// Opens the file that an argument names for reading; or says why it cannot.
pub fn open<R: Files + Env + Eprint>(rt: &R, argument: usize) -> Result<Input<R::File>, Said> {
    let name = name_of(rt, argument)?;
    match open_read(rt, name.as_bytes()) {
        Ok(file) => Ok(Input { argument, file }),
        Err(error) => Err(message::fail(rt, name.as_bytes(), error)),
    }
}

// The length of an open file. One that has none is judged as an empty one.
pub fn length<F: Seek>(file: &mut F) -> usize {
    file.seek(SeekFrom::End(0)).map_or(0, |end| end as usize)
}

// Goes to the front of an open file, and answers whether it could.
fn to_front<F: Seek>(file: &mut F) -> bool {
    file.seek(SeekFrom::Start(0)).is_ok_and(|at| at == 0)
}

// Whether a byte can be read from an open file.
fn has_byte<F: Read>(file: &mut F) -> bool {
    file.read(&mut [0]).is_ok_and(|got| got == 1)
}

// The length of an open file that can be read, and the next read begins at its front. One that cannot be read is judged as an empty one.
pub fn size<F: Read + Seek>(file: &mut F) -> usize {
    let bytes = length(file);
    if to_front(file) && has_byte(file) && to_front(file) {
        return bytes;
    }
    0
}

impl<F: Seek> Input<F> {
    pub fn length(&mut self) -> usize {
        length(&mut self.file)
    }
}

impl<F: Read + Seek> Input<F> {
    pub fn size(&mut self) -> usize {
        size(&mut self.file)
    }
}

impl<F: OpenFile> Input<F> {
    // Says that the file has the wrong size, or is none that has a size.
    pub fn misfit<R: Env + Eprint>(&self, rt: &R, bytes: usize, expected: &[u8], n: usize) -> Said {
        message::size(rt, self.argument, &self.file, bytes, expected, n)
    }
}

impl<F: Read> Input<F> {
    // Reads as many bytes as the buffer has; or says in these words that the file ended before.
    pub fn read<R: Env + Eprint>(
        &mut self,
        rt: &R,
        bytes: &mut [u8],
        words: &str,
    ) -> Result<(), Said> {
        self.file
            .read_exact(bytes)
            .map_err(|_| message::line_of(rt, self.argument, words))
    }
}
