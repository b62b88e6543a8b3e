// The command line of the bench program: its words, its options, the numbers and profiles in it, and what is
// wrong with it.
#![tactic(auto)]

ghost use Rattle.std.specs.Prelude.{◌≡◌, ◌≤◌, length, MatchResult};
ghost use Rattle.command_line.specs.Lines.{has};

use items::{Item, Items, Kind, Words};
use replies::{Profile, Refusal};
use std::env::FillError;
use std::rt::Env;

pub mod items;
pub mod shape;
mod wrong;

pub use wrong::{Fault, Flag};

// What the program was started with: how many words there are, of which word 0 is the subcommand; the options that
// stand there; and the arguments that -t and -n take.
#[derive(Clone, Copy, Default)]
pub struct Line {
    pub count: usize,
    pub over: bool,
    pub json: bool,
    pub help: bool,
    pub version: bool,
    pub table: Option<usize>,
    pub bits: Option<usize>,
}

impl Line {
    // Takes one more item in, unless it is wrong behind what stands in the line.
    fn take(&mut self, rt: &impl Env, item: Item) -> Result<(), Fault> {
        match item.kind {
            Kind::Word => self.count = self.count.saturating_add(1),
            Kind::End => {}
            Kind::Over => self.over = true,
            Kind::Table(taken) => self.table = Some(once(rt, Flag::Table, self.table, taken)?),
            Kind::Bits(taken) => self.bits = Some(once(rt, Flag::Bits, self.bits, taken)?),
            Kind::Json => self.json = true,
            Kind::Help => self.help = true,
            Kind::Version => self.version = true,
            Kind::Unknown => return Err(Fault::NoOption(item.at)),
            Kind::Long => return Err(Fault::TooLong(item.at)),
        }
        Ok(())
    }

    // An option stands in the line.
    pub fn has(&self, flag: Flag) -> bool
        ensures { result ≡ has self.now flag }
    {
        match flag {
            Flag::Over => self.over,
            Flag::Table => self.table.is_some(),
            Flag::Bits => self.bits.is_some(),
            Flag::Json => self.json,
        }
    }

    // The argument that is word k, if so many words were read.
    fn argument(&self, rt: &impl Env, k: usize) -> Option<usize> {
        if k < self.count {
            argument(rt, k)
        } else {
            None
        }
    }
}

// The argument that an option takes, where the option has taken none before.
fn once(
    rt: &impl Env,
    flag: Flag,
    before: Option<usize>,
    taken: Option<usize>,
) -> Result<usize, Fault> {
    if before.is_some() {
        return Err(Fault::Twice(flag));
    }
    let i = taken.ok_or(Fault::NothingFollows(flag))?;
    if items::is_long(rt, i) {
        return Err(Fault::TooLong(i));
    }
    Ok(i)
}

// A line that is wrong: what was read of it, and what is wrong with the item behind that.
#[derive(Clone, Copy)]
pub struct Misread {
    pub line: Line,
    pub fault: Fault,
}

// What the program was started with, or what is wrong with the first item that is.
pub fn started(rt: &impl Env) -> Result<Line, Misread> {
    let mut line = Line::default();
    for item in Items::new(rt) {
        if let Err(fault) = line.take(rt, item) {
            return Err(Misread { line, fault });
        }
    }
    Ok(line)
}

// Puts argument i, as much of it as there is room for, to the front of `buf`, and gives it; nothing where there is
// no such argument.
pub fn arg<'a>(rt: &impl Env, i: usize, buf: &'a mut [u8]) -> &'a [u8]
    ensures { length result.now ≤ length buf.old }
{
    match rt.arg(i, buf) {
        Ok(n) => &buf[..n],
        Err(FillError::TooLong) => buf,
        Err(FillError::NotPresent) => &[],
    }
}

// There is an argument i.
fn is_argument(rt: &impl Env, i: usize) -> bool {
    !matches!(rt.arg(i, &mut []), Err(FillError::NotPresent))
}

// The highest bit that a number of arguments can have.
const HIGHEST: usize = 0x8000_0000;

// How many arguments there are, the program's own name among them. They are numbered without a gap, so each bit of
// the number, the highest first, is set if there are as many arguments as the number has with that bit.
fn arg_count(rt: &impl Env) -> usize {
    let mut count: usize = 0;
    for k in 0..32u32 {
        let more = count.saturating_add(HIGHEST >> k);
        if is_argument(rt, more.saturating_sub(1)) {
            count = more;
        }
    }
    count
}

// The argument that is word k.
pub fn argument(rt: &impl Env, k: usize) -> Option<usize> {
    Words::new(rt).nth(k)
}

// Whether argument i is this text.
fn is_text(rt: &impl Env, i: usize, text: &[u8]) -> bool {
    let mut buf = io::buffer();
    arg(rt, i, &mut buf) == text
}

// Puts word k to the front of `buf`, and gives it; nothing where there is no such word.
pub fn word<'a>(rt: &impl Env, k: usize, buf: &'a mut [u8]) -> &'a [u8]
    ensures { length result.now ≤ length buf.old }
{
    match argument(rt, k) {
        Some(i) => arg(rt, i, buf),
        None => &[],
    }
}

// Whether word k is this text.
pub fn is_word(rt: &impl Env, line: Line, k: usize, text: &[u8]) -> bool {
    line.argument(rt, k).is_some_and(|i| is_text(rt, i, text))
}

// The number at an argument, in ten limbs.
fn limbs_at(rt: &impl Env, i: usize) -> Option<[u64; 10]> {
    let mut buf = io::buffer();
    decimals::limbs_in(arg(rt, i, &mut buf))
}

// The number at an argument.
pub fn number_at(rt: &impl Env, i: usize) -> Result<u64, Fault> {
    let limbs = limbs_at(rt, i).ok_or(Fault::NoNumber(i))?;
    Ok(decimals::one_limb(&limbs))
}

// The number in word k, in ten limbs.
pub fn limbs(rt: &impl Env, k: usize) -> Option<[u64; 10]> {
    limbs_at(rt, argument(rt, k)?)
}

// Word k as a number.
pub fn number(rt: &impl Env, line: Line, k: usize) -> Result<u64, Fault> {
    number_at(rt, line.argument(rt, k).ok_or(Fault::Missing)?)
}

// The subcommands.
#[derive(Clone, Copy, PartialEq, Eq, Debug)]
pub enum Command {
    Read,
    Check,
    Write,
    Find,
    Join,
    Turn,
    Index,
    Word,
    Table,
    Rate,
    Profiles,
    List,
    Help,
}

// A profile as it was typed, and the number of the word behind it. A row of the published profiles that there is not
// is refused.
#[derive(Clone, Copy)]
pub struct Named {
    pub profile: Result<Profile, Refusal>,
    pub next: usize,
}

impl Named {
    // What was typed, unless its row is refused.
    pub fn asked(self) -> Result<Asked, Refusal>
        ensures { MatchResult result (λ asked. (self.profile ≡ Ok asked.profile) × (asked.next ≡ self.next)) (λ refusal. self.profile ≡ Err refusal) }
    {
        let profile = self.profile?;
        Ok(Asked {
            profile,
            next: self.next,
        })
    }
}

// The profile that a subcommand asks for, and the number of the word behind it.
#[derive(Clone, Copy)]
pub struct Asked {
    pub profile: Profile,
    pub next: usize,
}

// A published profile, by the number of its row.
fn published(row: usize) -> Result<Profile, Refusal> {
    let row = catalogue::published_profile(row)?;
    Ok(replies::profile_of(row.q, row.m, row.x))
}

// The profile that a subcommand asks for, from word 1 on: none; q and x, where there are no words and so no m; or
// `row` and a number, or q, m and x.
pub fn asking(rt: &impl Env, line: Line, command: Command) -> Result<Named, Fault> {
    let at = |k| -> Result<usize, Fault> { Ok(number(rt, line, k)? as usize) };
    let (profile, next) = match command {
        Command::Profiles | Command::Help => (Ok(replies::profile_of(0, 0, 0)), 1),
        Command::Find => (Ok(replies::profile_of(at(1)?, 0, at(2)?)), 3),
        _ if is_word(rt, line, 1, b"row") => (published(at(2)?), 3),
        _ => (Ok(replies::profile_of(at(1)?, at(2)?, at(3)?)), 4),
    };
    Ok(Named { profile, next })
}
