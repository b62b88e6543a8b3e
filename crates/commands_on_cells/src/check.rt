// The subcommand check, on many files of cells: what comes of reading each, then how many of each outcome.
use crate::{BYTES, CELLS};
use command_line::items::Words;
use commands::{Failure, Job, Outcome, Page, Source, Trouble};
use files::table::LIMBS;
use replies::Refusal;
use statuses::Status;
use std::io::{Input, Print};
use std::rt::{Env, Files};

// The numbers of refusals are below this.
const NUMBERS: usize = 17;

// How many files came to each outcome: they are read, refused with each number, or not read; and the exit status of
// all together.
#[derive(Clone, Copy)]
struct Tally {
    done: usize,
    refused: [usize; NUMBERS],
    not_read: usize,
    status: Status,
}

impl Tally {
    // No file yet.
    fn new() -> Tally {
        Tally {
            done: 0,
            refused: [0; NUMBERS],
            not_read: 0,
            status: Status::Done,
        }
    }

    // Counts one file more.
    fn add(&mut self, outcome: Outcome) {
        let status = match outcome {
            Ok(status) => {
                self.done = self.done.saturating_add(1);
                status
            }
            Err(Failure::Refused(refusal)) => {
                let count = &mut self.refused[refusal.why.number() as usize];
                *count = count.saturating_add(1);
                refusal.into()
            }
            Err(Failure::Trouble(_)) => {
                self.not_read = self.not_read.saturating_add(1);
                Status::Trouble
            }
        };
        self.status = self.status.or_worse(status);
    }

    // How many files are refused.
    fn all_refused(&self) -> usize {
        self.refused
            .iter()
            .fold(0, |sum: usize, count| sum.saturating_add(*count))
    }

    // How many files there are.
    fn files(&self) -> usize {
        self.done
            .saturating_add(self.all_refused())
            .saturating_add(self.not_read)
    }

    // Tells how many files have each outcome. The exit status.
    fn tell<R: Env + Print>(&self, page: &mut Page<R>, as_json: bool) -> Status {
        if as_json {
            page.begin_object(self.status);
            page.field("files", self.files());
            page.field("done", self.done);
            page.field("refused", self.all_refused());
            page.field("not_read", self.not_read);
            page.end_object();
        } else {
            write!(page, "{} files:", self.files());
            self.tell_parts(page);
            writeln!(page);
        }
        self.status
    }

    // Tells how many files have each outcome that some have, with commas between them.
    fn tell_parts<R: Print>(&self, page: &mut Page<R>) {
        let mut comma = "";
        if 0 < self.done {
            write!(page, " {} done", self.done);
            comma = ",";
        }
        for (number, count) in self.refused.iter().enumerate() {
            if 0 < *count {
                write!(page, "{comma} {count} refused {number}");
                comma = ",";
            }
        }
        if 0 < self.not_read {
            write!(page, "{comma} {} not read", self.not_read);
        }
    }
}

// Reads each file that stands behind the profile with one table, one after another.
pub fn check<R: Files + Env + Input + Print>(page: &mut Page<R>, job: Job) -> Outcome {
    let mut limbs = [0u64; LIMBS];
    let (job, table) = job.with_table(page.rt, &mut limbs)?;
    let mut tally = Tally::new();
    for i in Words::new(page.rt).skip(job.asked.next) {
        tally.add(one(page, job, table, i));
        page.flush();
    }
    Ok(tally.tell(page, job.line.json))
}

// Reads the file that an argument names, and tells what came of it.
fn one<R: Files + Env + Input + Print>(
    page: &mut Page<R>,
    job: Job,
    table: &[u64],
    i: usize,
) -> Outcome {
    let mut name = io::buffer();
    let name = command_line::arg(page.rt, i, &mut name);
    let mut cells = [0u8; CELLS];
    let Ok(loaded) = files::load(page.rt, name, &mut cells) else {
        let trouble = Trouble::Argument(i);
        page.tell_trouble(job.line, trouble);
        return Err(trouble.into());
    };
    let source = Source {
        name,
        bytes: loaded.items,
        stream: Some(job.asked.profile),
    };
    let mut bits = [0u8; BYTES];
    let read = read_stream::read(job.asked.profile, table, source.bytes, &mut bits);
    tell(page, job, source, read);
    read?;
    Ok(Status::Done)
}

// Tells what came of reading a file.
fn tell<R: Env + Print>(
    page: &mut Page<R>,
    job: Job,
    source: Source,
    read: Result<usize, Refusal>,
) {
    if job.line.json {
        match read {
            Ok(bits) => crate::object_of_read(page, job, source, bits),
            Err(refusal) => page.refused_cells_object(job.line, refusal, source),
        }
        return;
    }
    page.name(source.name, "standard input");
    write!(page, ": ");
    match read {
        Ok(bits) => {
            write!(page, "done, ");
            crate::line_of_read(page, source, bits);
        }
        Err(refusal) => page.refusal(refusal),
    }
    writeln!(page);
}
