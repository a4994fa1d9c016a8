// What the system says of an open file: its device and number, its kind and its mode. Below `files`.
#![tactic(auto)]

use std::fs::OpenFile;
use std::io;
use std::os::unix::fs::MetadataExt;

// Whether it is a regular file. One of which the system says nothing is none.
pub fn is_regular<F: OpenFile>(file: &F) -> bool {
    file.metadata().is_ok_and(|said| said.is_file())
}

// The mode of an open file, without its kind; 0 where the system says nothing.
pub fn mode<F: OpenFile>(file: &F) -> u32 {
    file.metadata().map_or(0, |said| said.mode() % 4096)
}

// What tells an open file from any other: its device and its number there.
fn identity<F: OpenFile>(file: &F) -> io::Result<(u64, u64)> {
    let said = file.metadata()?;
    Ok((said.dev(), said.ino()))
}

// Whether both are the same open file. One of which the system says nothing is the same as none.
pub fn same<F: OpenFile, G: OpenFile>(a: &F, b: &G) -> bool {
    match (identity(a), identity(b)) {
        (Ok(first), Ok(second)) => first == second,
        _ => false,
    }
}
