// The subcommand write, on a file of bits.
use crate::{BYTES, CELLS};
use commands::{Failure, Host, Job, Outcome, Page, Source};
use files::Inputs;
use files::table::LIMBS;
use replies::{Profile, Refusal};
use statuses::Status;
use std::io::Print;
use std::rt::Env;

// Loads the bytes, and writes their bits.
pub fn write<R: Host>(page: &mut Page<R>, job: Job) -> Outcome {
    let mut name = io::buffer();
    let mut bytes = [0u8; BYTES + 1];
    let (source, facts) = Source::load(page.rt, job.asked.next, &mut name, &mut bytes)?;
    let inputs = Inputs {
        first: Some(facts),
        ..job.inputs
    };
    match write_bits(page, Job { inputs, ..job }, source) {
        Err(Failure::Refused(refusal)) => Ok(refused(page, job, refusal, source)),
        told => told,
    }
}

// How many bits a file of so many bytes holds: the most that are whole messages, if less than a byte is
// left over; else all its bits, which are then no whole messages. A file that is longer than
// the messages of 256 words holds more bits than are ever written.
fn bits_in(p: Profile, table: &[u64], bytes: usize) -> usize {
    if BYTES < bytes {
        return usize::MAX;
    }
    let bits = 8 * bytes;
    let word = catalogue::rate_of_words(p, table, 1).unwrap_or_default();
    match bits.checked_rem(word.bits) {
        Some(over) if over < 8 => bits - over,
        _ => bits,
    }
}

// Writes bits with a table, as many as were asked for, or as the file holds; and tells what came of it.
fn write_bits<R: Host>(page: &mut Page<R>, job: Job, source: Source) -> Outcome {
    let p = job.asked.profile;
    let mut limbs = [0u64; LIMBS];
    let (job, table) = job.with_table(page.rt, &mut limbs)?;
    let bits = match job.line.bits {
        Some(i) => command_line::number_at(page.rt, i).unwrap_or(0) as usize,
        None => bits_in(p, table, source.bytes.len()),
    };
    let mut written = [0u8; CELLS];
    let cells = write_stream::write(p, table, source.bytes, bits, &mut written)?;
    job.write_output(page.rt, parts::first(&written, cells))?;
    if job.line.json {
        page.begin_done();
        page.field("bits", bits);
        page.field("cells", cells);
        page.name_field("input", source.name);
        page.end_done(job);
    } else {
        write!(page, "done: {bits} bits written as {cells} cells");
        page.end_line(job);
    }
    Ok(Status::Done)
}

// Tells that bits are refused.
fn refused<R: Env + Print>(
    page: &mut Page<R>,
    job: Job,
    refusal: Refusal,
    source: Source,
) -> Status {
    if job.line.json {
        page.begin_refused(refusal);
        page.length_field("bytes", source.bytes.len(), BYTES);
        page.name_field("input", source.name);
        page.table_field(job.line);
        page.end_object();
    } else {
        page.refusal(refusal);
        writeln!(page);
        page.length(refusal, source, BYTES, "bytes");
    }
    refusal.into()
}
