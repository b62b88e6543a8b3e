// Files as a person names them: one is read whole into lent bytes, one is written whole or not at all. The
// name - is standard input or standard output. What cannot be done is said in one line on standard error.
#![tactic(auto)]

ghost use Rattle.std.specs.Prelude.{◌≡◌, ◌≤◌, length, IfOk};

use file_facts::Facts;
use std::io;
use std::io::{Input, Print, Read};
use std::rt::Files;

mod buffers;
mod calls;
mod paths;
mod said;
pub mod saving;
pub mod table;

// The descriptors of the standard streams.
pub const STDIN_FILENO: i32 = 0;

pub const STDOUT_FILENO: i32 = 1;

pub const STDERR_FILENO: i32 = 2;

// What was to be done with a file is not done, and what can be said of that was said on standard error.
#[derive(Clone, Copy, PartialEq, Eq, Debug)]
pub struct Trouble;

// What was read of a file, in the lent items that it fills, and which file it is.
#[derive(Clone, Copy)]
pub struct Loaded<'a, T> {
    pub items: &'a [T],
    pub facts: Facts,
}

// The files that a subcommand has read.
#[derive(Clone, Copy, Default)]
pub struct Inputs {
    pub first: Option<Facts>,
    pub second: Option<Facts>,
    pub table: Option<Facts>,
}

// The name of standard input and standard output.
pub fn is_standard(name: &[u8]) -> bool {
    name == b"-".as_slice()
}

// Reads what is left of an open file, of which this is known, to the front of `buf`. One that is longer fills
// `buf`.
fn load_open<'a>(
    input: &mut impl Read,
    known: io::Result<Facts>,
    name: &[u8],
    buf: &'a mut [u8],
) -> Result<Loaded<'a, u8>, Trouble>
    ensures { IfOk result (λ loaded. length loaded.items.now ≤ length buf.old) }
{
    let facts = known.map_err(|error| said::cannot_read(name, error))?;
    let count = calls::fill(input, buf).map_err(|error| said::cannot_read(name, error))?;
    Ok(Loaded {
        items: &buf[..count],
        facts,
    })
}

// Reads a file to the front of `buf`. One that is longer fills `buf`.
pub fn load<'a>(
    rt: &(impl Files + Input),
    name: &[u8],
    buf: &'a mut [u8],
) -> Result<Loaded<'a, u8>, Trouble>
    ensures { IfOk result (λ loaded. length loaded.items.now ≤ length buf.old) }
{
    if is_standard(name) {
        let known = file_facts::of_descriptor(rt, STDIN_FILENO);
        return load_open(&mut rt.reader(), known, name, buf);
    }
    let mut file = calls::open(rt, name).map_err(|error| said::cannot_read(name, error))?;
    let known = file_facts::of_file(&file);
    load_open(&mut file, known, name, buf)
}

// Writes all of some bytes to standard output, and says where that cannot be done, or else to standard error, of
// which nothing can be said.
pub fn tell(rt: &impl Print, fd: i32, bytes: &[u8]) -> Result<(), Trouble> {
    if fd != STDOUT_FILENO {
        return said::put(bytes);
    }
    rt.write_all(bytes)
        .map_err(|error| said::cannot_write(b"-", error))
}
