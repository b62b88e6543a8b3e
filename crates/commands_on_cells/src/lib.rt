// The subcommands on files of cells: read, check, turn, join, index, find; and write, on a file of bits. Each
// answers the exit status, or why it is not carried out.
#![tactic(auto)]

use command_line::Command;
use commands::{Failure, Host, Job, Outcome, Page, Source};
use files::Inputs;
use files::table::LIMBS;
use numbers::Index;
use statuses::Status;
use std::io::{Input, Print};
use std::rt::{Env, Files};

pub mod check;
mod joining;
pub mod on_bits;

// More cells than any call takes, so that a file of more is refused for its length.
const CELLS: usize = replies::MOST_CELLS + 1;

// The bytes of the messages of 256 words, of at most 639 bits each.
const BYTES: usize = 20448;

// Runs a subcommand on the file of cells that stands behind the profile.
pub fn run<R: Host>(page: &mut Page<R>, job: Job, command: Command) -> Outcome {
    let mut name = io::buffer();
    let mut cells = [0u8; CELLS];
    let (loaded, facts) = Source::load(page.rt, job.asked.next, &mut name, &mut cells)?;
    let inputs = Inputs {
        first: Some(facts),
        ..job.inputs
    };
    let job = Job { inputs, ..job };
    let stream = match command {
        Command::Index | Command::Find => None,
        _ => Some(job.asked.profile),
    };
    let source = Source { stream, ..loaded };
    let outcome = match command {
        Command::Read => read(page, job, source),
        Command::Index => index(page, job, source),
        Command::Turn => turn(page, job, source),
        Command::Join => joining::join(page, job, source),
        _ => find(page, job, source),
    };
    match outcome {
        Err(Failure::Refused(refusal)) => Ok(page.tell_refused_cells(job.line, refusal, source)),
        told => told,
    }
}

// Reads a stream, with a table, and tells what came of it.
fn read<R: Host>(page: &mut Page<R>, job: Job, source: Source) -> Outcome {
    let mut limbs = [0u64; LIMBS];
    let (job, table) = job.with_table(page.rt, &mut limbs)?;
    let mut bytes = [0u8; BYTES];
    let bits = read_stream::read(job.asked.profile, table, source.bytes, &mut bytes)?;
    job.write_output(page.rt, parts::first(&bytes, bits.div_ceil(8)))?;
    if job.line.json {
        object_of_read(page, job, source, bits);
    } else {
        write!(page, "done: ");
        line_of_read(page, source, bits);
        page.end_line(job);
    }
    Ok(Status::Done)
}

// How many cells were read as how many bits.
fn line_of_read<R: Print>(page: &mut Page<R>, source: Source, bits: usize) {
    let cells = source.bytes.len();
    write!(page, "{cells} cells read as {bits} bits");
}

// The same, as an object.
fn object_of_read<R: Env + Print>(page: &mut Page<R>, job: Job, source: Source, bits: usize) {
    page.begin_done();
    page.field("cells", source.bytes.len());
    page.field("bits", bits);
    page.name_field("input", source.name);
    page.end_done(job);
}

// Tells the index of a word.
fn index<R: Files + Env + Input + Print>(page: &mut Page<R>, job: Job, source: Source) -> Outcome {
    let mut limbs = [0u64; LIMBS];
    let (job, table) = job.with_table(page.rt, &mut limbs)?;
    let Index(index) = index_of_word::index(job.asked.profile, table, source.bytes)?;
    if job.line.json {
        page.begin_done();
        page.field("index", "\"");
        page.large(index);
        write!(page, "\"");
        page.name_field("input", source.name);
        page.end_done(job);
    } else {
        write!(page, "done: index ");
        page.large(index);
        page.end_line(job);
    }
    Ok(Status::Done)
}

// Turns a stream, and tells what came of it.
fn turn<R: Host>(page: &mut Page<R>, job: Job, source: Source) -> Outcome {
    let mut turned = [0u8; CELLS];
    let cells = join_streams::turn(job.asked.profile, source.bytes, &mut turned)?;
    job.write_output(page.rt, parts::first(&turned, cells))?;
    if job.line.json {
        object_of_cells(page, job, source, cells);
    } else {
        write!(page, "done: {cells} cells turned");
        page.end_line(job);
    }
    Ok(Status::Done)
}

// The object of a call that is done with so many cells.
fn object_of_cells<R: Env + Print>(page: &mut Page<R>, job: Job, source: Source, cells: usize) {
    page.begin_done();
    page.field("cells", cells);
    page.name_field("input", source.name);
    page.end_done(job);
}

// Tells where the first forbidden pattern of a run of cells is.
fn find<R: Env + Print>(page: &mut Page<R>, job: Job, source: Source) -> Outcome {
    let p = job.asked.profile;
    let cells = source.bytes.len();
    cells::find(p.q, p.x, source.bytes)?;
    if job.line.json {
        object_of_cells(page, job, source, cells);
    } else {
        write!(page, "done: no forbidden pattern in {cells} cells");
        page.end_line(job);
    }
    Ok(Status::Done)
}
