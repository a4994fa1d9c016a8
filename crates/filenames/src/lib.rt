// The text of file names: the folder, the name that a symbolic link leads to, and one beside a name. Below `files`.
#![tactic(auto)]

ghost use Rattle.std.specs.Prelude.{◌≡◌, ℕ, false, List, [], ◌++◌, ◌≤◌, ◌<◌, length, take, IfOk, OnErr, IfSome, IsNone, codes};

use std::env::FillError;
use std::io::ErrorKind;
use std::marker::Model;
use std::rt::{Env, Files};
use std::{fs, io, str};

// The bytes of the longest name: one more than the system takes.
const MOST: usize = 4096;

// As many links as the system follows.
const LINKS: usize = 40;

// The system's number for a name that is too long.
const TOO_LONG: i32 = 36;

// A path as the system's calls take it: text, of fewer than 4,096 bytes.
pub fn path(name: &[u8]) -> io::Result<&str>
    ensures { IfOk result (λ text. (text.now ≡ name.now) × (length name.now < 4096)) }
{
    if MOST <= name.len() {
        return Err(io::Error::from_raw_os_error(TOO_LONG));
    }
    str::from_utf8(name).map_err(|_| io::Error::from(ErrorKind::InvalidFilename))
}

// The index behind the last slash.
pub fn folder(path: &[u8]) -> usize
    ensures { result ≤ length path.now }
{
    match path.iter().rev().position(|byte| *byte == b'/') {
        Some(behind) => path.len() - behind,
        None => 0,
    }
}

// Where a name begins that a link's text gives: at the front, or behind the folder of the link.
fn start(text: &[u8], link: &[u8]) -> usize
    ensures { result ≤ length link.now }
{
    if text.starts_with(b"/") {
        return 0;
    }
    folder(link)
}

// The name of a file: at most 4,096 bytes.
#[derive(Drop)]
pub struct Name {
    bytes: [u8; MOST],
    length: usize,
}

// Contracts see its bytes.
impl Model for Name {
    ghost Value = { List ℕ };

    ghost view = { λ n. take n.length n.bytes };

    ghost invariant = { λ n. n.length ≤ 4096 };
}

impl Name {
    // None yet: no byte.
    pub fn new() -> Name
        ensures { result ≡ [] }
    {
        Name {
            bytes: [0; MOST],
            length: 0,
        }
    }

    // The name that an argument gives, empty where there is no such argument; or that it is too long.
    pub fn of_argument<R: Env>(rt: &R, argument: usize) -> Option<Name>
        ensures { IfSome result (λ name. length name ≤ 4096) }
    {
        let mut name = Name::new();
        name.length = match rt.arg(argument, &mut name.bytes) {
            Ok(length) => length,
            Err(FillError::NotPresent) => 0,
            Err(FillError::TooLong) => return None,
        };
        Some(name)
    }

    pub fn as_bytes(&self) -> &[u8]
        ensures value { result.now ≡ self.now }
        ensures fits { length result.now ≤ 4096 }
    {
        &self.bytes[..self.length]
    }

    // The bytes, to be written over.
    pub fn as_bytes_mut(&mut self) -> &mut [u8]
        ensures value { result.now ≡ self.old }
        ensures fits { length result.now ≤ 4096 }
    {
        &mut self.bytes[..self.length]
    }

    // Adds text at the end, where it fits.
    pub fn push(&mut self, text: &[u8]) -> Option<()>
        ensures ok { IfSome result (λ _. self.new ≡ self.old ++ text.now) }
        ensures err { IsNone result → self.new ≡ self.old }
    {
        let end = self.length + text.len();
        if MOST < end {
            return None;
        }
        self.bytes[self.length..end].copy_from_slice(text);
        self.length = end;
        Some(())
    }

    // Puts the name that a link's text gives in the place of the link's name. Where it does not fit, the name fills the buffer, as that of no
    // file does.
    fn lead(&mut self, text: &[u8]) {
        self.length = start(text, self.as_bytes());
        if self.push(text).is_none() {
            self.length = MOST;
        }
    }

    // Puts the name that a symbolic link leads to in the place of the link's, and answers whether the name was a link's. It fails where the
    // link's text is no UTF-8, or memory for it is short. Where it fails, and where the name is no link's, the name is as it was.
    pub fn follow<R: Files + Alloc>(&mut self, rt: &R) -> io::Result<bool>
        ensures ok { IfOk result (λ followed. followed ≡ false → self.new ≡ self.old) }
        ensures err { OnErr result (self.new ≡ self.old) }
    {
        let Ok(link) = path(self.as_bytes()) else {
            return Ok(false);
        };
        match fs::read_link(rt, link) {
            Ok(text) if text.as_str().is_empty() => Ok(false),
            Ok(text) => {
                self.lead(text.as_str().as_bytes());
                Ok(true)
            }
            Err(error) if error.raw_os_error().is_none() => Err(error),
            Err(_) => Ok(false),
        }
    }

    // The same to the end of a chain of links. Where it fails, a name on the way may stand there.
    pub fn follow_all<R: Files + Alloc>(&mut self, rt: &R) -> io::Result<()> {
        for _ in 0..LINKS {
            if !self.follow(rt)? {
                return Ok(());
            }
        }
        Ok(())
    }

    // The name beside this one that ends in these letters, where it fits.
    pub fn beside(&self, letters: &[u8; 6]) -> Option<Name>
        ensures { IfSome result (λ path. path ≡ self.now ++ codes ".part-" ++ letters.now) }
    {
        let mut path = Name::new();
        path.push(self.as_bytes())?;
        path.push(b".part-")?;
        path.push(letters)?;
        Some(path)
    }
}

// Puts a name beside this one, ended by X's, at the start of path, and answers its length; 0 where it does not fit.
pub fn name_beside(name: &[u8], path: &mut [u8]) -> usize
    ensures { (result ≤ length path.new) × (result ≡ length (take result path.new)) }
{
    let n = name.len();
    if path.len() < n + 12 {
        return 0;
    }
    path[..n].copy_from_slice(name);
    path[n..n + 12].copy_from_slice(b".part-XXXXXX");
    n + 12
}
