// How the program is used: the whole text, or the part on one subcommand; and its version.
use command_line::Command;
use commands::Page;
use statuses::Status;
use std::io::Print;

// The subcommands, in the order of the text.
const COMMANDS: [Command; 13] = [
    Command::Read,
    Command::Check,
    Command::Write,
    Command::Find,
    Command::Join,
    Command::Turn,
    Command::Index,
    Command::Word,
    Command::Table,
    Command::Rate,
    Command::Profiles,
    Command::List,
    Command::Help,
];

// The version of the program, and of the kit that proved it.
pub fn version<R: Print>(page: &mut Page<R>) -> Status {
    writeln!(page, "remi 0.1.0, rattle-kit-13f logic dac8208d650f15bf");
    Status::Done
}

// The whole text.
pub fn whole<R: Print>(page: &mut Page<R>) -> Status {
    writeln!(
        page,
        "remi reads and writes the cells of flash cartridges.\n"
    );
    for command in COMMANDS {
        write!(page, "{}", line_of(command));
    }
    write!(page, "{LEGEND}");
    Status::Done
}

// The part on one subcommand.
pub fn one<R: Print>(page: &mut Page<R>, command: Command) -> Status {
    write!(page, "{}{LEGEND}", line_of(command));
    Status::Done
}

// The line of a subcommand.
fn line_of(command: Command) -> &'static str {
    match command {
        Command::Read =>
            "  remi read  PROFILE CELLS [BITS]           a dump of cells, read to message bits\n",
        Command::Check =>
            "  remi check PROFILE CELLS..                dumps of cells, each read, and how many of each outcome\n",
        Command::Write =>
            "  remi write PROFILE BITS [CELLS]           message bits, written as cells\n",
        Command::Find =>
            "  remi find  Q X CELLS                      the first forbidden pattern in a run of cells\n",
        Command::Join =>
            "  remi join  PROFILE FIRST SECOND [JOINED]  two streams of cells, joined\n",
        Command::Turn =>
            "  remi turn  PROFILE CELLS [TURNED]         a stream of cells, turned end for end\n",
        Command::Index => "  remi index PROFILE CELLS                  the index of a word\n",
        Command::Word => "  remi word  PROFILE INDEX [CELLS]          the word of an index\n",
        Command::Table =>
            "  remi table PROFILE [TABLE]                the table of counts; with -t a table is checked\n",
        Command::Rate =>
            "  remi rate  PROFILE WORDS                  the bits and cells of so many words\n",
        Command::Profiles => "  remi profiles [ROW]                       the published profiles\n",
        Command::List => "  remi list  PROFILE                        every word of a small code\n",
        Command::Help =>
            "  remi help  [SUBCOMMAND]                   this text, or the use of one subcommand\n",
    }
}

// What the words and the options mean, and the exit status.
const LEGEND: &str = "
PROFILE is three numbers, q m x, or the word row and the number of a published profile.
CELLS, FIRST, SECOND, JOINED and TURNED are files of one byte a cell, BITS is a file of bits, high bit
first, TABLE a file of rows N(0) to N(m), ten 64-bit limbs a row, low limb and low byte first. A file in
square brackets is written where it is named, and only if the call is done. The name - is standard input
or standard output; where standard output has the cells or bits, all else goes to standard error.

  -f         write over a file that exists (read, write, join, turn, word, table)
  -t TABLE   use this table, which is checked first (read, check, write, index, word, table, rate)
  -n BITS    how many bits are written; without it, as many as the file holds (write)
  --json     tell the outcome as JSON, one object a call or file (all but help)
  --         what follows is no option
  -h --help  this text, or the use of one subcommand
  --version  the version of the program and of the kit that proved it

Exit status: 0 done, 1 refused, 2 a wrong command line or trouble with a file.
";
