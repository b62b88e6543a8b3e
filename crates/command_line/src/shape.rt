// The shape of each subcommand: the options that it takes, and the words behind the profile.
ghost use Rattle.std.specs.Prelude.{◌≡◌, IfSome, IsNone};
ghost use Rattle.command_line.specs.Lines.{name_of};

use crate::items::Words;
use crate::{Command, Fault, Flag, Line};
use std::rt::Env;

// The subcommand that has a name.
fn named(name: &[u8]) -> Option<Command>
    ensures named { IfSome result (λ c. name.now ≡ name_of c) }
    ensures other { (c : _) → name.now ≡ name_of c → result ≡ Some c }
{
    match name {
        b"read" => Some(Command::Read),
        b"check" => Some(Command::Check),
        b"write" => Some(Command::Write),
        b"find" => Some(Command::Find),
        b"join" => Some(Command::Join),
        b"turn" => Some(Command::Turn),
        b"index" => Some(Command::Index),
        b"word" => Some(Command::Word),
        b"table" => Some(Command::Table),
        b"rate" => Some(Command::Rate),
        b"profiles" => Some(Command::Profiles),
        b"list" => Some(Command::List),
        b"help" => Some(Command::Help),
        _ => None,
    }
}

// Which subcommand word k is.
pub fn command(rt: &impl Env, line: Line, k: usize) -> Option<Command> {
    let mut buf = io::buffer();
    named(crate::arg(rt, line.argument(rt, k)?, &mut buf))
}

impl Command {
    // A subcommand takes an option: it may write a file, takes a table, takes a number of bits, or can tell its outcome
    // as JSON.
    fn takes(self, flag: Flag) -> bool {
        match flag {
            Flag::Over => matches!(
                self,
                Command::Read
                    | Command::Write
                    | Command::Join
                    | Command::Turn
                    | Command::Word
                    | Command::Table
            ),
            Flag::Table => matches!(
                self,
                Command::Read
                    | Command::Check
                    | Command::Write
                    | Command::Index
                    | Command::Word
                    | Command::Table
                    | Command::Rate
            ),
            Flag::Bits => self == Command::Write,
            Flag::Json => self != Command::Help,
        }
    }

    // The fewest words that stand behind the profile.
    fn least(self) -> usize {
        match self {
            Command::Join => 2,
            Command::Table | Command::Profiles | Command::List | Command::Help => 0,
            _ => 1,
        }
    }

    // The most words that stand behind the profile. With a table to be checked, `table` writes none.
    fn most(self, line: Line) -> usize {
        match self {
            Command::Check => usize::MAX,
            Command::Join => 3,
            Command::Read | Command::Write | Command::Turn | Command::Word => 2,
            Command::Table if line.table.is_some() => 0,
            Command::List => 0,
            _ => 1,
        }
    }

    // The first word behind the profile is a number.
    fn is_number_first(self) -> bool {
        matches!(self, Command::Word | Command::Rate | Command::Profiles)
    }

    // How many words behind the profile name files that are read.
    fn inputs(self) -> usize {
        match self {
            Command::Check => usize::MAX,
            Command::Join => 2,
            Command::Read | Command::Write | Command::Find | Command::Turn | Command::Index => 1,
            _ => 0,
        }
    }
}

// The first option that stands there and is not taken. Where there is no subcommand, `--json` alone is.
pub fn options(line: Line, command: Option<Command>) -> Result<(), Fault> {
    for flag in [Flag::Over, Flag::Table, Flag::Bits, Flag::Json] {
        let taken = match command {
            Some(command) => command.takes(flag),
            None => flag == Flag::Json,
        };
        if line.has(flag) && !taken {
            return Err(Fault::NotTaken(flag));
        }
    }
    Ok(())
}

// The word that names the output of a subcommand, where word `next` stands behind the profile; none where nothing is
// written.
pub fn output(command: Command, next: usize) -> Option<usize> {
    match command {
        Command::Table => Some(next),
        Command::Read | Command::Write | Command::Turn | Command::Word => next.checked_add(1),
        Command::Join => next.checked_add(2),
        _ => None,
    }
}

// The name - stands for more than one file that is read.
fn is_standard_twice(rt: &impl Env, line: Line, command: Command, next: usize) -> bool {
    let is_standard = |i| crate::is_text(rt, i, b"-");
    let files = Words::new(rt).skip(next).take(command.inputs());
    let words = files.filter(|i| is_standard(*i)).take(2).count();
    let table = line.table.is_some_and(is_standard);
    (1 < words) | ((0 < words) & table)
}

// What is wrong with the words behind the profile, the first of which is word `next`.
pub fn words(rt: &impl Env, line: Line, command: Command, next: usize) -> Result<(), Fault> {
    if line.count < next.saturating_add(command.least()) {
        return Err(Fault::Missing);
    }
    if command.is_number_first() && next < line.count {
        crate::number(rt, line, next)?;
    }
    if let Some(i) = line.argument(rt, next.saturating_add(command.most(line))) {
        return Err(Fault::TooMany(i));
    }
    if let Some(i) = line.bits {
        crate::number_at(rt, i)?;
    }
    if is_standard_twice(rt, line, command, next) {
        return Err(Fault::TwoStandard);
    }
    Ok(())
}
