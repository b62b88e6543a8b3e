// The bench program: one subcommand for each call, over files of cells, bits and tables. Each outcome is told
// in words, with document 01's number and place, or as JSON; what is answered is the exit status.
#![tactic(auto)]

use command_line::{Command, Fault, Line, Misread, shape};
use commands::{Host, Job, Outcome, Page};
use files::Inputs;
use statuses::Status;
use std::io::{Input, Print};
use std::os::fd::AsFd;
use std::random::RandomSource;
use std::rt::{Clock, Env, Files};

mod help;

// Runs the program. The exit status: 0 done, 1 refused, 2 a wrong command line or trouble with a file. The bounds are
// those of `Host`, spelt out as the pages have them.
pub fn remi_status<R: Files + Env + Input + Print + Clock + RandomSource>(rt: &R) -> u8
where
    R::File: AsFd,
{
    let mut page = Page::new(rt);
    let status = match command_line::started(rt) {
        Ok(line) => run(&mut page, line),
        Err(Misread { line, fault }) => page.tell_fault(line, fault),
    };
    page.finish(status).code()
}

// Does what a command line asks for.
fn run<R: Host>(page: &mut Page<R>, line: Line) -> Status {
    let outcome = if line.help {
        help_asked(page, line, 0)
    } else if line.version {
        Ok(help::version(page))
    } else {
        subcommand(page, line)
    };
    match outcome {
        Ok(status) => status,
        Err(fault) => page.tell_fault(line, fault),
    }
}

// The subcommand that word k is.
fn command<R: Env>(rt: &R, line: Line, k: usize) -> Result<Command, Fault> {
    if let Some(command) = shape::command(rt, line, k) {
        return Ok(command);
    }
    let i = command_line::argument(rt, k).ok_or(Fault::NoSubcommand)?;
    Err(Fault::OtherSubcommand(i))
}

// Tells the use of the subcommand that word k is, or of the program where there is no such word.
fn help_asked<R: Env + Print>(page: &mut Page<R>, line: Line, k: usize) -> Result<Status, Fault> {
    if line.count <= k {
        return Ok(help::whole(page));
    }
    Ok(help::one(page, command(page.rt, line, k)?))
}

// Runs a subcommand, if the options and the words are those that it takes.
fn subcommand<R: Host>(page: &mut Page<R>, line: Line) -> Result<Status, Fault> {
    let command = command(page.rt, line, 0)?;
    shape::options(line, Some(command))?;
    let named = command_line::asking(page.rt, line, command)?;
    shape::words(page.rt, line, command, named.next)?;
    if command == Command::Help {
        return help_asked(page, line, 1);
    }
    let output = shape::output(command, named.next).filter(|k| *k < line.count);
    // Standard output has the output alone where the output goes there.
    if output.is_some_and(|k| command_line::is_word(page.rt, line, k, b"-")) {
        page.to_standard_error();
    }
    let asked = match named.asked() {
        Ok(asked) => asked,
        Err(refusal) => {
            // No table has been read.
            let table = None;
            return Ok(page.tell_refusal(Line { table, ..line }, refusal));
        }
    };
    let inputs = Inputs::default();
    let job = Job {
        line,
        asked,
        output,
        inputs,
    };
    match carry_out(page, job, command) {
        Ok(status) => Ok(status),
        Err(failure) => Ok(page.tell_failure(line, failure)),
    }
}

// Carries a subcommand out.
fn carry_out<R: Host>(page: &mut Page<R>, job: Job, command: Command) -> Outcome {
    match command {
        Command::Check => commands_on_cells::check::check(page, job),
        Command::Write => commands_on_cells::on_bits::write(page, job),
        Command::Table => commands_on_profiles::table(page, job),
        Command::Rate => commands_on_profiles::rate(page, job),
        Command::Word => commands_on_profiles::word(page, job),
        Command::Profiles => commands_on_profiles::profiles(page, job),
        Command::List => commands_on_profiles::lists::list(page, job),
        _ => commands_on_cells::run(page, job, command),
    }
}
