// Facts of files: what the system says of a file, and what that tells.
#![tactic(auto)]

ghost use Rattle.std.specs.Prelude.{true, false, ◌≡◌, ◌↔◌, IsErr, IfOk};
ghost use Rattle.std.specs.Fs.{metadata_mode};
ghost use Rattle.file_facts.specs.Facts.{nothing_known, known_by, facts_in, same_file, is_regular, kept_mode};
ghost use Rattle.file_facts.specs.Names.{zero_in, is_name};

use std::fs::{DirBuilder, Metadata, OpenFile};
use std::io;
use std::io::ErrorKind;
use std::os::unix::fs::{DirBuilderExt, MetadataExt};
use std::rt::Files;

// The bytes of the longest name that the system takes, and the 0 behind it.
const PATH_MAX: usize = 4096;

// The system's numbers of errors: no such descriptor, a name that it does not take, and one that is too long.
const EBADF: i32 = 9;

const EINVAL: i32 = 22;

const ENAMETOOLONG: i32 = 36;

// What is known of a file that is found: the device and the number that it has, its mode, owner and group.
#[derive(Clone, Copy)]
pub struct Facts {
    pub device: u64,
    pub number: u64,
    pub mode: u32,
    pub owner: u32,
    pub group: u32,
}

// What the system says of a file, under the names that it has for that, which `filled_with` ties Facts to.
#[derive(Clone, Copy)]
struct Stat {
    st_dev: u64,
    st_ino: u64,
    st_mode: u32,
    st_uid: u32,
    st_gid: u32,
}

// What of the system's answer tells something here.
fn stat_of(found: Metadata) -> Stat
    ensures { result.st_mode ≡ metadata_mode found }
{
    Stat {
        st_dev: found.dev(),
        st_ino: found.ino(),
        st_mode: found.mode(),
        st_uid: found.uid(),
        st_gid: found.gid(),
    }
}

// Nothing is known of a file, as none is found.
pub fn unknown() -> Option<Facts>
    ensures { result ≡ nothing_known }
{
    None
}

// What the system says, where it answers.
fn told(answer: io::Result<Stat>) -> io::Result<Facts>
    ensures facts { facts_in result ≡ known_by answer }
    ensures error { IsErr result ↔ IsErr answer }
{
    let s = answer?;
    Ok(Facts {
        device: s.st_dev,
        number: s.st_ino,
        mode: s.st_mode,
        owner: s.st_uid,
        group: s.st_gid,
    })
}

// What is known of an open file.
pub fn of_file(file: &impl OpenFile) -> io::Result<Facts> {
    told(file.metadata().map(stat_of))
}

// The name that the system gives to what a standard stream is open on.
fn stream_name(fd: i32) -> io::Result<&'static str> {
    match fd {
        0 => Ok("/proc/self/fd/0"),
        1 => Ok("/proc/self/fd/1"),
        2 => Ok("/proc/self/fd/2"),
        _ => Err(io::Error::from_raw_os_error(EBADF)),
    }
}

// Why a name of a standard stream leads nowhere: the stream is closed, or the system's names of streams cannot
// be had.
fn no_stream(rt: &impl Files) -> io::Error {
    match rt.metadata("/proc/self/fd") {
        Ok(_) => io::Error::from_raw_os_error(EBADF),
        Err(error) => error,
    }
}

// What is known of the open file that the descriptor of a standard stream stands for.
pub fn of_descriptor(rt: &impl Files, fd: i32) -> io::Result<Facts> {
    let answer = match rt.metadata(stream_name(fd)?) {
        Err(error) if error.kind() == ErrorKind::NotFound => Err(no_stream(rt)),
        answer => answer,
    };
    told(answer.map(stat_of))
}

// Where the first 0 of a name stands, if it has one.
fn zero_in(name: &[u8]) -> Option<usize>
    ensures { result ≡ zero_in name.now }
{
    name.iter().position(|b| *b == 0)
}

// The system takes a name whole.
fn is_name(name: &[u8]) -> bool
    ensures { result ≡ is_name name.now }
{
    let first_zero = zero_in(name).unwrap_or(name.len());
    (name.len() < PATH_MAX) & (first_zero == name.len())
}

// Why the system does not take a name whole.
fn refusal(name: &[u8]) -> io::Error {
    let number = if name.len() < PATH_MAX {
        EINVAL
    } else {
        ENAMETOOLONG
    };
    io::Error::from_raw_os_error(number)
}

// A name as a path, if it is UTF-8 and the system takes it whole.
pub fn path(name: &[u8]) -> io::Result<&str>
    ensures whole { IfOk result (λ path. path.now ≡ name.now) }
    ensures refused { is_name name.now ≡ false → IsErr result }
{
    if !is_name(name) {
        return Err(refusal(name));
    }
    str::from_utf8(name).map_err(|_| io::Error::from(ErrorKind::InvalidFilename))
}

// What is known of the file that has a name; of a link, the link. Where none is found the error says why, and so
// it does where the system does not take the name.
pub fn of_name(rt: &impl Files, name: &[u8]) -> io::Result<Facts>
    ensures nothing { is_name name.now ≡ false → facts_in result ≡ nothing_known }
    ensures refused { is_name name.now ≡ false → IsErr result }
{
    let path = path(name)?;
    told(rt.symlink_metadata(path).map(stat_of))
}

// Makes a folder that only its owner may enter. Whether that is done; the error says why it is not.
pub fn make_folder(rt: &impl Files, name: &[u8]) -> io::Result<()>
    ensures { is_name name.now ≡ false → IsErr result }
{
    DirBuilder::new().mode(0o700).create(rt, path(name)?)
}

// Both are found, and are one file.
pub fn same_file(a: Option<Facts>, b: Option<Facts>) -> bool
    ensures { result ≡ same_file a b }
{
    match (a, b) {
        (Some(a), Some(b)) => (a.device == b.device) & (a.number == b.number),
        _ => false,
    }
}

// A file is found, and is a regular one.
pub fn is_regular(a: Option<Facts>) -> bool
    ensures { result ≡ is_regular a }
{
    a.is_some_and(|a| a.mode / 4096 % 16 == 8)
}

// The bits of the mode that say who may do what.
pub fn kept_mode(a: Facts) -> u32
    ensures { result ≡ kept_mode a }
{
    a.mode % 4096
}
