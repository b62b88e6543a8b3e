// The arguments of the program one after another: words, options, and what an option takes.
ghost use Rattle.std.specs.Prelude.{◌≡◌, ◌+◌, ◌-◌, ◌<◌, MatchOption};
ghost use Rattle.std.specs.Iterator.{at_most};

use std::rt::Env;

// What an argument is: a word, the end of the options, an option with the argument behind it that it takes, no
// option at all, or too long.
#[derive(Clone, Copy, PartialEq, Eq, Debug)]
pub enum Kind {
    Word,
    End,
    Over,
    Table(Option<usize>),
    Bits(Option<usize>),
    Json,
    Help,
    Version,
    Unknown,
    Long,
}

// What an argument is that stands among the options, where nothing follows it.
fn kind_of(argument: &[u8]) -> Kind {
    match argument {
        b"--" => Kind::End,
        b"-f" => Kind::Over,
        b"-t" => Kind::Table(None),
        b"-n" => Kind::Bits(None),
        b"--json" => Kind::Json,
        b"-h" | b"--help" => Kind::Help,
        b"--version" => Kind::Version,
        [b'-', _, ..] => Kind::Unknown,
        _ => Kind::Word,
    }
}

// What argument i is.
fn kind_at(rt: &impl Env, i: usize, ended: bool) -> Kind {
    let mut buf = io::buffer();
    match rt.arg(i, &mut buf) {
        Ok(_) if ended => Kind::Word,
        Ok(n) => kind_of(&buf[..n]),
        Err(_) => Kind::Long,
    }
}

// An argument is longer than any name.
pub(crate) fn is_long(rt: &impl Env, i: usize) -> bool {
    kind_at(rt, i, true) == Kind::Long
}

// An argument, and what it is.
#[derive(Clone, Copy, PartialEq, Eq, Debug)]
pub struct Item {
    pub at: usize,
    pub kind: Kind,
}

// The items from an argument on; whether the options have ended there.
#[derive(Drop)]
pub struct Items<'a, R> {
    rt: &'a R,
    at: usize,
    end: usize,
    ended: bool,
}

impl<'a, R: Env> Items<'a, R> {
    // All items; argument 0 is the program's own name.
    pub fn new(rt: &'a R) -> Items<'a, R> {
        Items {
            rt,
            at: 1,
            end: crate::arg_count(rt),
            ended: false,
        }
    }

    // Takes an argument, if one is left.
    fn argument(&mut self) -> Option<usize>
        ensures end { self.new.end ≡ self.old.end }
        ensures at { MatchOption result (self.new.at ≡ self.old.at) (λ i. (i < self.old.end) × (i ≡ self.old.at) × (self.new.at ≡ i + 1)) }
    {
        if self.end <= self.at {
            return None;
        }
        let i = self.at;
        self.at = i + 1;
        Some(i)
    }
}

impl<'a, R: Env> Iterator for Items<'a, R> {
    type Item = Item;

    ghost remaining = { λ s. at_most (s.end - s.at) };

    fn next(&mut self) -> Option<Item> {
        let at = self.argument()?;
        let kind = match kind_at(self.rt, at, self.ended) {
            Kind::Table(_) => Kind::Table(self.argument()),
            Kind::Bits(_) => Kind::Bits(self.argument()),
            kind => kind,
        };
        self.ended |= kind == Kind::End;
        Some(Item { at, kind })
    }
}

// The words alone, by their arguments.
#[derive(Drop)]
pub struct Words<'a, R>(Items<'a, R>);

impl<'a, R: Env> Words<'a, R> {
    pub fn new(rt: &'a R) -> Words<'a, R> {
        Words(Items::new(rt))
    }
}

impl<'a, R: Env> Iterator for Words<'a, R> {
    type Item = usize;

    ghost remaining = { λ s. at_most (s.0.end - s.0.at) };

    fn next(&mut self) -> Option<usize> {
        let item = self.0.find(|item| item.kind == Kind::Word)?;
        Some(item.at)
    }
}
