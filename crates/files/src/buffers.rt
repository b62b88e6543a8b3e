// Bytes that are put one behind another, as far as there is room.
ghost use Rattle.std.specs.Prelude.{◌≡◌, ◌+◌, ◌<◌, ◌≤◌, ◌++◌, [], length, take};

use std::fmt;
use std::fmt::Write;

// Room for N bytes, and how many are put.
#[derive(Drop)]
pub struct Buffer<const N: usize> {
    bytes: [u8; N],
    len: usize,
    ghost inside: { len ≤ N },
}

impl<const N: usize> Buffer<N> {
    // With nothing in it.
    pub fn new() -> Buffer<N>
        ensures { take result.len result.bytes ≡ [] }
    {
        Buffer {
            bytes: [0; N],
            len: 0,
        }
    }

    // What was put.
    pub fn as_slice(&self) -> &[u8]
        ensures { result.now ≡ take self.now.len self.now.bytes }
    {
        &self.bytes[..self.len]
    }

    // Puts more bytes, if all of them fit.
    pub fn add(&mut self, more: &[u8])
        ensures fits { self.old.len + length more.now ≤ N → take self.new.len self.new.bytes ≡ take self.old.len self.old.bytes ++ more.now }
        ensures full { N < self.old.len + length more.now → self.new ≡ self.old }
    {
        if more.len() <= N - self.len {
            let end = self.len + more.len();
            let bytes = &mut self.bytes[..];
            bytes[self.len..end].copy_from_slice(more);
            self.len = end;
        }
    }
}

impl<const N: usize> Write for Buffer<N> {
    fn write_str(&mut self, s: &str) -> fmt::Result {
        self.add(s.as_bytes());
        Ok(())
    }
}
