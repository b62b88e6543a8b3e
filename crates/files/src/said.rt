// What is said of a file on standard error, in one line.
use crate::Trouble;
use crate::buffers::Buffer;
use crate::saving::Hindrance;
use std::fmt::Write;
use std::io::Error;

// Room for a name of 4,096 bytes as it is printed, and for the words before and after it.
const PRINTED: usize = 16384;

type Line = Buffer<16896>;

// Room for what is said of an error.
type Words = Buffer<256>;

// Writes all of some bytes to standard error, of which nothing can be said.
pub fn put(bytes: &[u8]) -> Result<(), Trouble> {
    if io::write_all(crate::STDERR_FILENO, bytes) {
        Ok(())
    } else {
        Err(Trouble)
    }
}

// Words, and a name as it is printed, or other words in the place of the name -.
fn named(words: &[u8], name: &[u8], standard: &[u8]) -> Line {
    let mut line = Line::new();
    line.add(words);
    if crate::is_standard(name) {
        line.add(standard);
    } else {
        let mut printed = [0u8; PRINTED];
        let n = names::escape(name, &mut printed);
        line.add(&printed[..n]);
    }
    line
}

// Puts the reason of an error, in the system's words without its number.
fn add_reason(line: &mut Line, error: Error) {
    let mut words = Words::new();
    let _ = write!(words, "{error}");
    let told = str::from_utf8(words.as_slice()).unwrap_or("");
    let reason = match told.rsplit_once(" (os error ") {
        Some((reason, _)) => reason,
        None => told,
    };
    line.add(reason.as_bytes());
}

// Says what cannot be done with a file, and the system's reason.
fn cannot(words: &[u8], name: &[u8], standard: &[u8], error: Error) -> Trouble {
    let mut line = named(words, name, standard);
    line.add(b": ");
    add_reason(&mut line, error);
    line.add(b"\n");
    let _ = put(line.as_slice());
    Trouble
}

// Says that a file cannot be read, and why.
pub fn cannot_read(name: &[u8], error: Error) -> Trouble {
    cannot(b"cannot read ", name, b"standard input", error)
}

// Says that a file cannot be written, and why.
pub fn cannot_write(name: &[u8], error: Error) -> Trouble {
    cannot(b"cannot write ", name, b"standard output", error)
}

// Says that a file that was written cannot be brought to the disk, and why.
pub fn cannot_bring(name: &[u8], error: Error) -> Trouble {
    cannot(
        b"cannot bring to the disk ",
        name,
        b"standard output",
        error,
    )
}

// Says what becomes of a file that is to be written, in words before its name and behind it.
fn tell(before: &[u8], name: &[u8], behind: &[u8]) -> Trouble {
    let mut line = named(before, name, b"standard output");
    line.add(behind);
    let _ = put(line.as_slice());
    Trouble
}

// Says why a file that is to be written is left as it is.
pub fn left(name: &[u8], hindrance: Hindrance) -> Trouble {
    let why: &[u8] = match hindrance {
        Hindrance::ReadToo => b" is read here too and is left as it is\n",
        Hindrance::NotRegular => b" is no regular file and is left as it is\n",
        Hindrance::Taken => b" exists and is left as it is; -f writes over it\n",
    };
    tell(b"", name, why)
}

// Says that a file is not written, as another process has moved it aside.
pub fn overtaken(name: &[u8]) -> Trouble {
    tell(
        b"cannot write ",
        name,
        b": another program took its place\n",
    )
}
