// What is told of a wrong command line: one line on standard error, with how to see the use.
use crate::telling::Page;
use command_line::{Fault, Line, shape};
use statuses::Status;
use std::io::Print;
use std::rt::Env;

impl<R: Env + Print> Page<'_, R> {
    // An argument as it is printed.
    fn argument(&mut self, i: usize) {
        let mut word = io::buffer();
        self.name(command_line::arg(self.rt, i, &mut word), "-");
    }

    // The subcommand.
    fn subcommand(&mut self) {
        let mut word = io::buffer();
        self.name(command_line::word(self.rt, 0, &mut word), "-");
    }

    // What is wrong with an argument.
    fn wrong_argument(&mut self, i: usize, what: &str) {
        self.argument(i);
        write!(self, "{what}");
    }

    // What is wrong.
    fn fault(&mut self, fault: Fault) {
        match fault {
            Fault::NoSubcommand => write!(self, "no subcommand"),
            Fault::OtherSubcommand(i) => self.wrong_argument(i, " is no subcommand"),
            Fault::NoOption(i) => self.wrong_argument(i, " is no option"),
            Fault::NothingFollows(flag) => write!(self, "nothing follows {}", flag.spelt()),
            Fault::Twice(flag) => write!(self, "{} stands twice", flag.spelt()),
            Fault::NotTaken(flag) => {
                self.subcommand();
                write!(self, " takes no {}", flag.spelt());
            }
            Fault::Missing => write!(self, "a word is missing"),
            Fault::TooMany(i) => self.wrong_argument(i, " is one word too many"),
            Fault::NoNumber(i) => self.wrong_argument(i, " is no number"),
            Fault::TooLong(i) => write!(self, "argument {i} is longer than 4096 bytes"),
            Fault::TwoStandard => write!(self, "- stands for two files that are read"),
        }
    }

    // Tells what is wrong, and how to see the use: that of the subcommand, where there is one. The exit status.
    pub fn tell_fault(&mut self, line: Line, fault: Fault) -> Status {
        self.to_standard_error();
        write!(self, "remi: ");
        self.fault(fault);
        write!(self, "; see remi help");
        let other = matches!(fault, Fault::OtherSubcommand(_));
        if !other && shape::command(self.rt, line, 0).is_some() {
            write!(self, " ");
            self.subcommand();
        }
        writeln!(self);
        Status::Trouble
    }
}
