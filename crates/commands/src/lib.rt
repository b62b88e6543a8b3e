// What the subcommands share: what they read, what they lend to the calls and what becomes of an output; what is
// told, as text and as JSON; and what is told of a wrong command line.
#![tactic(auto)]

use command_line::{Asked, Line};
use files::Inputs;
use replies::{Profile, Refusal};
use statuses::Status;
use std::io::{Input, Print};
use std::os::fd::AsFd;
use std::random::RandomSource;
use std::rt::{Clock, Env, Files};

mod faults;
mod json;
mod lending;
mod refusals;
mod telling;

pub use refusals::is_in_cells;
pub use telling::Page;

// What a subcommand that writes a file is run on.
pub trait Host: Files<File: AsFd> + Env + Input + Print + Clock + RandomSource {}

impl<R: Files<File: AsFd> + Env + Input + Print + Clock + RandomSource> Host for R {}

// A subcommand as it was asked for, the word that names its output, where there is one, and the files that it has
// read.
#[derive(Clone, Copy)]
pub struct Job {
    pub line: Line,
    pub asked: Asked,
    pub output: Option<usize>,
    pub inputs: Inputs,
}

// A file of cells or of bits that was read: its name, what it holds, and, where it is to be a stream, of which profile.
#[derive(Clone, Copy)]
pub struct Source<'a> {
    pub name: &'a [u8],
    pub bytes: &'a [u8],
    pub stream: Option<Profile>,
}

// A file that there is trouble with, which standard error tells in words: the one that word k names, or argument i.
#[derive(Clone, Copy, PartialEq, Eq, Debug)]
pub enum Trouble {
    Word(usize),
    Argument(usize),
}

// Why a subcommand is not carried out, which is still to be told: a call is refused, or there is trouble with a file.
#[derive(Clone, Copy, PartialEq, Eq, Debug)]
pub enum Failure {
    Refused(Refusal),
    Trouble(Trouble),
}

// What a subcommand answers: the exit status, of which all is told, or why it is not carried out.
pub type Outcome = Result<Status, Failure>;

impl From<Refusal> for Failure {
    fn from(refusal: Refusal) -> Failure {
        Failure::Refused(refusal)
    }
}

impl From<Trouble> for Failure {
    fn from(trouble: Trouble) -> Failure {
        Failure::Trouble(trouble)
    }
}
