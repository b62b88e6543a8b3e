// The subcommand join, on two files of cells.
use crate::CELLS;
use commands::{Failure, Host, Job, Outcome, Page, Source};
use files::Inputs;
use replies::{MOST_CELLS, Refusal};
use statuses::Status;
use std::io::Print;
use std::rt::Env;

// The two streams that are joined.
#[derive(Clone, Copy)]
struct Streams<'a> {
    first: Source<'a>,
    second: Source<'a>,
}

// Joins a second stream to the first.
pub fn join<R: Host>(page: &mut Page<R>, job: Job, first: Source) -> Outcome {
    let word = job.asked.next.saturating_add(1);
    let mut name = io::buffer();
    let mut cells = [0u8; CELLS];
    let (second, facts) = Source::load(page.rt, word, &mut name, &mut cells)?;
    let inputs = Inputs {
        second: Some(facts),
        ..job.inputs
    };
    let job = Job { inputs, ..job };
    let stream = first.stream;
    let second = Source { stream, ..second };
    let streams = Streams { first, second };
    match streams.join(page, job) {
        Err(Failure::Refused(refusal)) => Ok(streams.refused(page, job, refusal)),
        told => told,
    }
}

impl<'a> Streams<'a> {
    // Joins them, and tells what came of it.
    fn join<R: Host>(self, page: &mut Page<R>, job: Job) -> Outcome {
        let (first, second) = (self.first.bytes, self.second.bytes);
        let mut joined = [0u8; CELLS];
        let cells = join_streams::join(job.asked.profile, first, second, &mut joined)?;
        job.write_output(page.rt, parts::first(&joined, cells))?;
        if job.line.json {
            page.begin_done();
            self.length_fields(page);
            page.field("cells", cells);
            self.name_fields(page);
            page.end_done(job);
        } else {
            let (first, second) = (first.len(), second.len());
            write!(
                page,
                "done: {first} cells and {second} cells joined as {cells} cells"
            );
            page.end_line(job);
        }
        Ok(Status::Done)
    }

    // How long both are.
    fn length_fields<R: Print>(self, page: &mut Page<R>) {
        page.length_field("first_cells", self.first.bytes.len(), MOST_CELLS);
        page.length_field("second_cells", self.second.bytes.len(), MOST_CELLS);
    }

    // The names of both files.
    fn name_fields<R: Print>(self, page: &mut Page<R>) {
        page.name_field("first", self.first.name);
        page.name_field("second", self.second.name);
    }

    // The one that the place of a refusal lies in, what it is called, and the refusal with the place counted in it. A
    // place in the second counts on from the first's length.
    fn local(self, refusal: Refusal) -> (Source<'a>, &'static str, Refusal) {
        match refusal.place.checked_sub(self.first.bytes.len()) {
            None => (self.first, "first", refusal),
            Some(place) => (self.second, "second", refusal.why.at(place)),
        }
    }

    // Tells where they are refused.
    fn refused<R: Env + Print>(self, page: &mut Page<R>, job: Job, refusal: Refusal) -> Status {
        let (source, called, local) = self.local(refusal);
        let is_in_cells = commands::is_in_cells(refusal);
        if job.line.json {
            page.begin_refused(refusal);
            self.length_fields(page);
            if is_in_cells {
                page.field("file", format_args!("\"{called}\""));
                page.place_fields(local, source);
            }
            self.name_fields(page);
            page.end_object();
        } else {
            page.refusal(refusal);
            writeln!(page);
            if is_in_cells {
                page.besides(local, source);
            } else {
                page.besides(refusal, self.first);
                page.besides(refusal, self.second);
            }
        }
        refusal.into()
    }
}
