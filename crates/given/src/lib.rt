// What a program is given: the words that it is started with, the files that they name, and bytes that are read until a buffer is full.
#![tactic(auto)]

mod quoting;

ghost use Rattle.std.specs.Prelude.{◌≡◌, ◌<◌, ◌≤◌, length, take, IfOk, MatchResult};
ghost use Rattle.std.specs.Io.{ReadsAtMost};
ghost use Rattle.std.specs.Io.KnownBytes.{Consumes, IsAtEnd};
ghost use Rattle.std.specs.Str.{IsUtf8};

pub use quoting::quote;
use std::env::{Env, FillError};
use std::fs::{Files, OpenOptions};
use std::io::{ErrorKind, Read};
use std::{fs, io, str};

// Room for any name of a file, which has 4,095 bytes at most.
pub const NAME_ROOM: usize = 4_096;

// Room for more than the longest session file.
pub const FILE_ROOM: usize = 65_536;

// How many words a program was started with, its own name among them.
pub fn word_count(env: &impl Env) -> usize {
    let mut none = [0u8; 0];
    for i in 0..usize::MAX {
        if let Err(FillError::NotPresent) = env.arg(i, &mut none) {
            return i;
        }
    }
    usize::MAX
}

// Puts a word at the start of a buffer, and answers how many bytes of it are there. One that the buffer has no room for is cut; one that is missing has none.
pub fn word(env: &impl Env, index: usize, buffer: &mut [u8]) -> usize
    ensures { result ≤ length buffer.new }
{
    match env.arg(index, buffer) {
        Ok(n) => n,
        Err(FillError::TooLong) => buffer.len(),
        Err(FillError::NotPresent) => 0,
    }
}

// Opens a file for reading.
pub fn open<R: Files>(files: &R, name: &[u8]) -> io::Result<R::File>
    ensures { IfOk result (λ _. IsUtf8 name.now) }
{
    fs::open(files, path(name)?)
}

// Makes a file that was not there, and opens it for writing.
pub fn create<R: Files>(files: &R, name: &[u8]) -> io::Result<R::File>
    ensures { IfOk result (λ _. IsUtf8 name.now) }
{
    let path = path(name)?;
    OpenOptions::new()
        .write(true)
        .create_new(true)
        .open(files, path)
}

pub fn remove(files: &impl Files, name: &[u8]) -> io::Result<()>
    ensures { IfOk result (λ _. IsUtf8 name.now) }
{
    fs::remove_file(files, path(name)?)
}

// A name as text: one that is none in UTF-8 cannot be handed to the system. That it is text is a fact of one argument, and of each function that has it.
fn path(name: &[u8]) -> io::Result<&str>
    ensures { MatchResult result (λ p. (p.now ≡ name.now) × IsUtf8 name.now) (λ _. ¬ (IsUtf8 name.now)) }
{
    str::from_utf8(name).map_err(|_| io::Error::from(ErrorKind::InvalidFilename))
}

// Reads until the buffer is full or there is no more, and answers how many bytes it put at its start.
pub fn read_full<R: Read>(from: &mut R, buffer: &mut [u8]) -> io::Result<usize>
    ensures bound { ReadsAtMost result buffer.new }
    ensures bytes { IfOk result (λ n. Consumes (R.remaining from.old) (R.remaining from.new) (take n buffer.new)) }
    ensures end { IfOk result (λ n. n < length buffer.new → IsAtEnd (R.remaining from.new)) }
{
    let mut done: usize = 0;
    // No count goes up by one here: each read says how far it came.
    while done < buffer.len() {
        let got = from.read(&mut buffer[done..])?;
        if got == 0 {
            return Ok(done);
        }
        done += got;
    }
    Ok(done)
}

// Reads a file, as far as the buffer goes. One more read shows of a file that fills it whether it could be read on.
pub fn read_file(files: &impl Files, name: &[u8], buffer: &mut [u8]) -> io::Result<usize>
    ensures bound { ReadsAtMost result buffer.new }
    ensures named { IfOk result (λ _. IsUtf8 name.now) }
{
    let mut file = open(files, name)?;
    let len = read_full(&mut file, buffer)?;
    let mut one = [0u8; 1];
    file.read(&mut one)?;
    Ok(len)
}
