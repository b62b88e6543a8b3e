// The subcommands on profiles: table, rate, profiles, list, and the word of an index. Each answers the exit
// status, or why it is not carried out.
#![tactic(auto)]

use catalogue::{Rate, Row};
use commands::{Host, Job, Outcome, Page};
use files::table::{BYTES, LIMBS};
use numbers::Index;
use replies::{Profile, Refusal};
use statuses::Status;
use std::io::{Input, Print};
use std::rt::{Env, Files};

pub mod lists;

// The table of a profile, or a check of the one that is lent.
pub fn table<R: Host>(page: &mut Page<R>, job: Job) -> Outcome {
    if job.line.table.is_none() {
        return build(page, job);
    }
    let mut limbs = [0u64; LIMBS];
    let (job, table) = job.with_table(page.rt, &mut limbs)?;
    check_belongs(job.asked.profile, table)?;
    if job.line.json {
        page.begin_done();
        page.end_done(job);
    } else {
        write!(page, "done: the table belongs");
        page.end_line(job);
    }
    Ok(Status::Done)
}

// Refused unless a table belongs to a profile.
#[tactic(auto, using(replies::specs::ReplyLaws::profile_in_range))]
fn check_belongs(p: Profile, table: &[u64]) -> Result<(), Refusal> {
    replies::check_profile(p)?;
    tables::check_table(p, table)
}

// Builds the table of a profile: it is written to the file that is named for it, or told.
fn build<R: Host>(page: &mut Page<R>, job: Job) -> Outcome {
    let mut limbs = [0u64; LIMBS];
    let built = tables::build(job.asked.profile, &mut limbs)?;
    let table = parts::first(&limbs, built);
    if job.output.is_some() {
        return save(page, job, table);
    }
    if job.line.json {
        object_of_rows(page, table);
    } else {
        tell_rows(page, table);
    }
    Ok(Status::Done)
}

// Writes a table, and tells how many rows it has.
fn save<R: Host>(page: &mut Page<R>, job: Job, table: &[u64]) -> Outcome {
    let rows = table.len() / 10;
    let mut bytes = [0u8; BYTES];
    files::table::spell(table, &mut bytes);
    job.write_output(page.rt, parts::first(&bytes, table.len().saturating_mul(8)))?;
    if job.line.json {
        page.begin_done();
        page.field("rows", rows);
        page.end_done(job);
    } else {
        write!(page, "done: {rows} rows");
        page.end_line(job);
    }
    Ok(Status::Done)
}

// Tells the rows of a table.
fn tell_rows<R: Print>(page: &mut Page<R>, table: &[u64]) {
    let (rows, _) = table.as_chunks::<10>();
    let last = rows.len().saturating_sub(1);
    writeln!(page, "done: {} rows, N(0) to N({last})", rows.len());
    for (i, row) in rows.iter().enumerate() {
        write!(page, "N({i}) = ");
        page.large(*row);
        writeln!(page);
    }
}

// The same, as an object.
fn object_of_rows<R: Env + Print>(page: &mut Page<R>, table: &[u64]) {
    let (rows, _) = table.as_chunks::<10>();
    page.begin_done();
    page.field("rows", rows.len());
    page.field("counts", "[");
    let mut before = "\"";
    for row in rows {
        write!(page, "{before}");
        page.large(*row);
        write!(page, "\"");
        before = ",\"";
    }
    writeln!(page, "]}}");
}

// The rate of so many words.
pub fn rate<R: Files + Env + Input + Print>(page: &mut Page<R>, job: Job) -> Outcome {
    let words = command_line::number(page.rt, job.line, job.asked.next).unwrap_or(0) as usize;
    let mut limbs = [0u64; LIMBS];
    let (job, table) = job.with_table(page.rt, &mut limbs)?;
    let Rate { bits, cells } = catalogue::rate_of_words(job.asked.profile, table, words)?;
    if job.line.json {
        page.begin_done();
        page.field("words", words);
        page.field("bits", bits);
        page.field("cells", cells);
        page.end_done(job);
    } else {
        write!(
            page,
            "done: {words} words carry {bits} bits in {cells} cells"
        );
        page.end_line(job);
    }
    Ok(Status::Done)
}

// The word of an index.
pub fn word<R: Host>(page: &mut Page<R>, job: Job) -> Outcome {
    let index = command_line::limbs(page.rt, job.asked.next).unwrap_or([0; 10]);
    let mut limbs = [0u64; LIMBS];
    let (job, table) = job.with_table(page.rt, &mut limbs)?;
    let mut cells = [0u8; 128];
    let count = word_of_index::word(job.asked.profile, table, Index(index), &mut cells)?;
    let word = parts::first(&cells, count);
    job.write_output(page.rt, word)?;
    if job.line.json {
        page.begin_done();
        page.field("word", "[");
        page.levels(word);
        write!(page, "]");
        page.end_done(job);
    } else {
        write!(page, "done: word ");
        page.levels(word);
        page.end_line(job);
    }
    Ok(Status::Done)
}

// The published profiles, or the one of the row that was typed.
pub fn profiles<R: Env + Print>(page: &mut Page<R>, job: Job) -> Outcome {
    if job.line.count == 2 {
        let row = command_line::number(page.rt, job.line, 1).unwrap_or(0);
        return published(page, job.line.json, row as usize);
    }
    for row in 0..catalogue::ROWS {
        published(page, job.line.json, row)?;
    }
    Ok(Status::Done)
}

// Tells what is published in a row.
fn published<R: Env + Print>(page: &mut Page<R>, as_json: bool, row: usize) -> Outcome {
    let found = catalogue::published_profile(row);
    let Row { q, m, x, s } = found?;
    if as_json {
        page.begin_done();
        page.field("row", row);
        page.field("q", q);
        page.field("m", m);
        page.field("x", x);
        page.field("s", s);
        page.end_object();
    } else {
        writeln!(page, "row {row}: q {q}, m {m}, x {x}, s {s}");
    }
    Ok(found.into())
}
