// What is wrong with a command line.
ghost use Rattle.std.specs.Prelude.{◌≡◌};
ghost use Rattle.command_line.specs.Lines.{spelt};

// An option.
#[derive(Clone, Copy, PartialEq, Eq, Debug)]
pub enum Flag {
    Over,
    Table,
    Bits,
    Json,
}

impl Flag {
    // How an option is spelt.
    pub fn spelt(self) -> &'static str
        ensures { result.now ≡ spelt self }
    {
        match self {
            Flag::Over => "-f",
            Flag::Table => "-t",
            Flag::Bits => "-n",
            Flag::Json => "--json",
        }
    }
}

// What is wrong: there is no subcommand; an argument is no subcommand or no option; nothing follows an option that
// takes an argument, or it stands twice; the subcommand does not take an option; a word is missing; an argument is
// one word too many, is no number, or is longer than any name; the name - stands for two files that are read.
#[derive(Clone, Copy, PartialEq, Eq, Debug)]
pub enum Fault {
    NoSubcommand,
    OtherSubcommand(usize),
    NoOption(usize),
    NothingFollows(Flag),
    Twice(Flag),
    NotTaken(Flag),
    Missing,
    TooMany(usize),
    NoNumber(usize),
    TooLong(usize),
    TwoStandard,
}
