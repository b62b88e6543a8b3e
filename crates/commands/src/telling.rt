// What is told: it is gathered on a page, which is written out when it is full and at the end.
ghost use Rattle.std.specs.Prelude.{◌≡◌, ◌≤◌};

use crate::Job;
use replies::Refusal;
use statuses::Status;
use std::fmt;
use std::fmt::{Display, Write};
use std::io::Print;
use std::rt::Env;

// The bytes of the page.
const PAGE: usize = 8192;

// Room for a name of 4,096 bytes as it is printed.
pub const PRINTED: usize = 16384;

// A page: where it is told, how many of its bytes are filled, and whether all before could be written.
#[derive(Drop)]
pub struct Page<'a, R> {
    pub rt: &'a R,
    to: i32,
    bytes: [u8; PAGE],
    at: usize,
    whole: bool,
    ghost filled: { at ≤ 8192 },
}

impl<R: Print> Write for Page<'_, R> {
    fn write_str(&mut self, text: &str) -> fmt::Result {
        self.bytes(text.as_bytes());
        Ok(())
    }
}

impl<'a, R: Print> Page<'a, R> {
    // An empty page. It is told on standard output.
    pub fn new(rt: &'a R) -> Page<'a, R> {
        Page {
            rt,
            to: files::STDOUT_FILENO,
            bytes: [0; PAGE],
            at: 0,
            whole: true,
        }
    }

    // Tells on standard error, where nothing has been told yet.
    pub fn to_standard_error(&mut self) {
        self.to = files::STDERR_FILENO;
    }

    // Writes the page out; nothing more once something could not be written.
    pub fn flush(&mut self)
        ensures { self.new.at ≡ 0 }
    {
        self.whole = self.whole && files::tell(self.rt, self.to, &self.bytes[..self.at]).is_ok();
        self.at = 0;
    }

    // One byte more.
    fn byte(&mut self, byte: u8) {
        if self.at == PAGE {
            self.flush();
        }
        self.bytes[self.at] = byte;
        self.at += 1;
    }

    // Some bytes, which need not be text.
    pub fn bytes(&mut self, bytes: &[u8]) {
        for byte in bytes {
            self.byte(*byte);
        }
    }

    // What `write!` calls. It answers nothing: what could not be written is known at the end.
    pub fn write_fmt<D: Display + Drop>(&mut self, text: D) {
        let _ = Write::write(self, text);
    }

    // A number at the right end of a column. No subcommand tells one yet, nor a figure.
    pub fn column(&mut self, n: usize, width: usize) {
        write!(self, "{n:>width$}");
    }

    // How much there is of a for each of b, with four places, or what stands for none.
    pub fn figure(&mut self, a: usize, b: usize, none: &str) {
        let mut digits = [0u8; 16];
        match quotients::spell(a, b, &mut digits) {
            Some(n) => self.bytes(&digits[..n]),
            None => write!(self, "{none}"),
        }
    }

    // The number that ten limbs hold.
    pub fn large(&mut self, limbs: [u64; 10]) {
        let mut digits = [0u8; 193];
        let n = decimals::spell(limbs, &mut digits);
        self.bytes(&digits[..n]);
    }

    // Levels, joined by commas.
    pub fn levels(&mut self, cells: &[u8]) {
        let mut comma = "";
        for level in cells {
            write!(self, "{comma}{level}");
            comma = ",";
        }
    }

    // The name of a file as it is printed, or what stands for the name -.
    pub fn name(&mut self, name: &[u8], standard: &str) {
        if files::is_standard(name) {
            return write!(self, "{standard}");
        }
        let mut printed = [0u8; PRINTED];
        let n = names::escape(name, &mut printed);
        self.bytes(&printed[..n]);
    }

    // A refusal.
    pub fn refusal(&mut self, refusal: Refusal) {
        let mut words = [0u8; outcomes::REPLY_BYTES];
        let count = outcomes::reply_text(refusal.into(), &mut words).unwrap_or(0);
        self.bytes(parts::first(&words, count));
    }

    // The last: the page is written out. The exit status, of what was told and of that.
    pub fn finish(mut self, status: Status) -> Status {
        self.flush();
        status.told(self.whole)
    }
}

impl<R: Env + Print> Page<'_, R> {
    // The end of a line: the file that was written, where one is named.
    pub fn end_line(&mut self, job: Job) {
        if let Some(k) = job.output {
            let mut name = io::buffer();
            write!(self, ", in ");
            self.name(command_line::word(self.rt, k, &mut name), "standard output");
        }
        writeln!(self);
    }
}
