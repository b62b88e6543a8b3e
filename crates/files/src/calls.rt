// Calls of the system that are tried again where a signal interrupted them: `look` and `fill` here, the others in std.
ghost use Rattle.std.specs.Io.{ReadsAtMost};

use file_facts::Facts;
use std::fs::{File, OpenOptions};
use std::io;
use std::io::{ErrorKind, Read};
use std::rt::Files;

// So often an interrupted call is tried again.
const TRIES: usize = 1000;

// A call failed because a signal interrupted it.
fn interrupted(error: io::Error) -> bool {
    error.kind() == ErrorKind::Interrupted
}

// Opens a file for reading.
pub fn open<R: Files>(rt: &R, path: &[u8]) -> io::Result<R::File> {
    File::open(rt, file_facts::path(path)?)
}

// Makes a file that is not there yet.
pub fn create<R: Files>(rt: &R, path: &[u8]) -> io::Result<R::File> {
    OpenOptions::new()
        .write(true)
        .create_new(true)
        .open(rt, file_facts::path(path)?)
}

// What is known of the file that has a name.
pub fn look(rt: &impl Files, path: &[u8]) -> io::Result<Facts> {
    for _ in 0..TRIES {
        match file_facts::of_name(rt, path) {
            Err(error) if interrupted(error) => {}
            answer => return answer,
        }
    }
    file_facts::of_name(rt, path)
}

// Gives a file or a folder another name.
pub fn rename(rt: &impl Files, from: &[u8], to: &[u8]) -> io::Result<()> {
    rt.rename(file_facts::path(from)?, file_facts::path(to)?)
}

// Removes a file.
pub fn unlink(rt: &impl Files, path: &[u8]) -> io::Result<()> {
    rt.remove_file(file_facts::path(path)?)
}

// Removes a folder with nothing in it.
pub fn rmdir(rt: &impl Files, path: &[u8]) -> io::Result<()> {
    rt.remove_dir(file_facts::path(path)?)
}

// Reads to the front of `buf` until it is full or the input ends. How many bytes that are, which `read_exact` of
// std would not say.
pub fn fill(input: &mut impl Read, buf: &mut [u8]) -> io::Result<usize>
    ensures { ReadsAtMost result buf.new }
{
    let mut count = 0;
    for _ in 0..buf.len().saturating_add(TRIES) {
        if buf.len() <= count {
            return Ok(count);
        }
        match input.read(&mut buf[count..]) {
            Ok(0) => return Ok(count),
            Ok(n) => count += n,
            Err(error) if interrupted(error) => {}
            Err(error) => return Err(error),
        }
    }
    if count < buf.len() {
        return Err(io::Error::from(ErrorKind::Interrupted));
    }
    Ok(count)
}
