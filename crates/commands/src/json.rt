// What is told, as JSON: one object a call or file.
use crate::Job;
use crate::telling::{PRINTED, Page};
use command_line::Line;
use replies::{Refusal, Reply};
use statuses::Status;
use std::fmt::Display;
use std::io::Print;
use std::rt::Env;

impl<R: Print> Page<'_, R> {
    // A key, and a value that is printed as JSON has it.
    pub fn field<D: Display + Drop>(&mut self, key: &str, value: D) {
        write!(self, ",\"{key}\":{value}");
    }

    // How much there is of a for each of b, with four places; null where there is no such figure. No subcommand
    // tells one yet.
    pub fn figure_field(&mut self, key: &str, a: usize, b: usize) {
        self.field(key, "");
        self.figure(a, b, "null");
    }

    // How long a file is; null where it is longer than any input.
    pub fn length_field(&mut self, key: &str, n: usize, most: usize) {
        if n <= most {
            self.field(key, n);
        } else {
            self.field(key, "null");
        }
    }

    // The name of a file as it is printed, quoted.
    pub fn name_field(&mut self, key: &str, name: &[u8]) {
        let mut printed = [0u8; PRINTED];
        let n = names::escape(name, &mut printed);
        let mut quoted = [0u8; 2 * PRINTED];
        let k = names::quote(&printed[..n], &mut quoted);
        self.field(key, "\"");
        self.bytes(&quoted[..k]);
        write!(self, "\"");
    }

    // The end of an object.
    pub fn end_object(&mut self) {
        writeln!(self, "}}");
    }
}

impl<R: Env + Print> Page<'_, R> {
    // The beginning of an object: the subcommand and the exit status.
    pub fn begin_object(&mut self, status: Status) {
        let mut name = io::buffer();
        write!(self, "{{\"command\":\"");
        self.bytes(command_line::word(self.rt, 0, &mut name));
        write!(self, "\",\"status\":{}", status.code());
    }

    // The beginning of the object of a call: the status that its reply means, its number and its place.
    fn begin_reply(&mut self, reply: Reply) {
        self.begin_object(reply.into());
        self.field("number", reply.number);
        self.field("place", reply.place);
    }

    // The beginning of the object of a call that is done.
    pub fn begin_done(&mut self) {
        self.begin_reply(replies::done());
    }

    // The beginning of the object of a call that is refused: its reply, and what it says.
    pub fn begin_refused(&mut self, refusal: Refusal) {
        self.begin_reply(refusal.into());
        self.field("told", "\"");
        self.refusal(refusal);
        write!(self, "\"");
    }

    // The table that was lent, where there is one.
    pub fn table_field(&mut self, line: Line) {
        if let Some(i) = line.table {
            let mut name = io::buffer();
            self.name_field("table", command_line::arg(self.rt, i, &mut name));
        }
    }

    // The end of the object of a call that is done: the file that was written, where one is named, and the table.
    pub fn end_done(&mut self, job: Job) {
        if let Some(k) = job.output {
            let mut name = io::buffer();
            self.name_field("output", command_line::word(self.rt, k, &mut name));
        }
        self.table_field(job.line);
        self.end_object();
    }
}
