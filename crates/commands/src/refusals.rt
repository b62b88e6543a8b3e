// What is told of a call that is refused, and of trouble with a file. What answers a status answers the exit status.
ghost use Rattle.std.specs.Prelude.{◌≡◌};
ghost use Rattle.outcomes.specs.Outcomes.{place_in_cells};
ghost use Rattle.replies.specs.Answers.{number_of};

use crate::telling::Page;
use crate::{Failure, Source, Trouble};
use command_line::Line;
use outcomes::Spot;
use replies::{MOST_CELLS, Refusal, Why};
use statuses::Status;
use std::io::Print;
use std::rt::Env;

impl<R: Print> Page<'_, R> {
    // How long a file is, where that may be what was refused. Of a file that is longer than any input only
    // that is known.
    pub fn length(&mut self, refusal: Refusal, source: Source, most: usize, of: &str) {
        if refusal.why != Why::InputLength {
            return;
        }
        let count = source.bytes.len();
        write!(self, "  ");
        self.name(source.name, "standard input");
        if most < count {
            writeln!(self, ": more than {most} {of}");
        } else {
            writeln!(self, ": {count} {of}");
        }
    }

    // The cells around a place of a file.
    fn around(&mut self, source: Source, place: usize) {
        let cells = source.bytes;
        if cells.len() <= place {
            return;
        }
        let first = outcomes::first_shown(place);
        let last = outcomes::behind_shown(place, cells.len()) - 1;
        write!(self, "  cells {first} to {last} of ");
        self.name(source.name, "standard input");
        write!(self, ":");
        let mut shown = [0u8; 128];
        let n = outcomes::around(cells, place, &mut shown);
        self.bytes(&shown[..n]);
        writeln!(self);
    }

    // The word or the bridge that a place of a stream lies in.
    fn spot(&mut self, spot: Spot) {
        let part = if spot.in_bridge {
            "the bridge behind word"
        } else {
            "word"
        };
        write!(self, "  cell {} of {part} {}", spot.cell, spot.word);
        writeln!(self, ", which is cells {} to {}", spot.first, spot.last);
    }

    // What is told besides of a file of cells: how many there are, where their number may be what was refused;
    // or the cells around the place, which counts from the file's first cell, and, of a stream, the word or the
    // bridge that it lies in.
    pub fn besides(&mut self, refusal: Refusal, source: Source) {
        self.length(refusal, source, MOST_CELLS, "cells");
        if !is_in_cells(refusal) {
            return;
        }
        self.around(source, refusal.place);
        if let Some(spot) = source.spot(refusal.place) {
            self.spot(spot);
        }
    }

    // The place in a file of cells, where it is one: the cell, and, of a stream, the word or the bridge.
    pub fn place_fields(&mut self, refusal: Refusal, source: Source) {
        if !is_in_cells(refusal) {
            return;
        }
        self.field("at", refusal.place);
        if let Some(spot) = source.spot(refusal.place) {
            self.field("word", spot.word);
            self.field("bridge", spot.in_bridge);
        }
    }
}

// The place of a refusal is one among the cells handed in.
pub fn is_in_cells(refusal: Refusal) -> bool
    ensures { result ≡ place_in_cells (number_of refusal.why) }
{
    outcomes::place_in_cells(refusal.why.number())
}

impl<R: Env + Print> Page<'_, R> {
    // Trouble with a file, which standard error tells in words.
    pub fn tell_trouble(&mut self, line: Line, trouble: Trouble) -> Status {
        if line.json {
            let mut name = io::buffer();
            self.begin_object(Status::Trouble);
            self.name_field("trouble", trouble.name(self.rt, &mut name));
            self.end_object();
        }
        Status::Trouble
    }

    // A refusal of a call that took no file of cells or bits.
    pub fn tell_refusal(&mut self, line: Line, refusal: Refusal) -> Status {
        if line.json {
            self.begin_refused(refusal);
            self.table_field(line);
            self.end_object();
        } else {
            self.refusal(refusal);
            writeln!(self);
        }
        refusal.into()
    }

    // What became of a subcommand that took no file of cells or bits.
    pub fn tell_failure(&mut self, line: Line, failure: Failure) -> Status {
        match failure {
            Failure::Refused(refusal) => self.tell_refusal(line, refusal),
            Failure::Trouble(trouble) => self.tell_trouble(line, trouble),
        }
    }

    // A refusal of one file of cells, as an object.
    pub fn refused_cells_object(&mut self, line: Line, refusal: Refusal, source: Source) {
        self.begin_refused(refusal);
        self.length_field("cells", source.bytes.len(), MOST_CELLS);
        self.place_fields(refusal, source);
        self.name_field("input", source.name);
        self.table_field(line);
        self.end_object();
    }

    // A refusal of one file of cells.
    pub fn tell_refused_cells(&mut self, line: Line, refusal: Refusal, source: Source) -> Status {
        if line.json {
            self.refused_cells_object(line, refusal, source);
        } else {
            self.refusal(refusal);
            writeln!(self);
            self.besides(refusal, source);
        }
        refusal.into()
    }
}

impl Source<'_> {
    // The word or the bridge of the stream that a place lies in.
    fn spot(self, place: usize) -> Option<Spot> {
        outcomes::spot_of(self.stream?, place)
    }
}

impl Trouble {
    // The name of the file.
    fn name<'a>(self, rt: &impl Env, buf: &'a mut [u8]) -> &'a [u8] {
        match self {
            Trouble::Word(k) => command_line::word(rt, k, buf),
            Trouble::Argument(i) => command_line::arg(rt, i, buf),
        }
    }
}
