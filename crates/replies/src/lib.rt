// What a call is handed and what it answers: the profile; why and where an input is refused, and the reply that tells
// it by a number and a place; which of two refusals decides; the tests of a profile and of the room in a lent output.
#![tactic(auto)]

ghost use Rattle.std.specs.Prelude.{◌≡◌, ◌+◌, ◌^◌, ◌<◌};
ghost use Rattle.replies.specs.Replies.{profile_of, done, refused, refused_if, moved_by, lowest, outside_refusal, levels_refusal, length_refusal, reach_refusal, profile_refusal, room_refusal};
ghost use Rattle.replies.specs.Answers.{number_of, refusal_reply, reply_of, written_of};

// A profile: q levels, word length m, reach x. Any numbers may be handed in; what is out of range is
// refused.
#[repr(C)]
#[derive(Clone, Copy)]
pub struct Profile {
    pub q: usize,
    pub m: usize,
    pub x: usize,
}

// Why an input is refused, with the numbers of document 01. No refusal has number 0, which is done.
#[derive(Clone, Copy, PartialEq, Eq, Debug)]
pub enum Why {
    Levels = 1,
    Length = 2,
    Reach = 3,
    NoMessage = 4,
    TableShort = 5,
    TableWrong = 6,
    InputLength = 7,
    BitBehind = 8,
    OutputShort = 9,
    Cell = 10,
    Pattern = 11,
    NoSuch = 12,
    Bridge = 13,
    AllZero = 14,
    IndexAbove = 15,
    AllTop = 16,
}

// A refusal: why, and the place, which is 0 where the number has none.
#[derive(Clone, Copy, PartialEq, Eq, Debug)]
pub struct Refusal {
    pub why: Why,
    pub place: usize,
}

impl Why {
    // The number of document 01.
    pub fn number(self) -> u8
        ensures { result ≡ number_of self }
    {
        self as u8
    }

    // A refusal at a place.
    pub fn at(self, place: usize) -> Refusal
        ensures why { result.why ≡ self }
        ensures place { result.place ≡ place }
    {
        Refusal { why: self, place }
    }
}

// A reply as C takes it: its number, and its place where the number has one.
#[repr(C)]
#[derive(Clone, Copy)]
pub struct Reply {
    pub number: u8,
    pub place: usize,
}

impl Reply {
    // A reply on a part of the input that starts so many places in, as a reply on the whole.
    #[tactic(auto, unfolding(crate::specs::Replies::moved_by))]
    pub fn moved_by(self, places: usize) -> Reply
        requires { self.place + places < 2 ^ 64 }
        ensures { result ≡ moved_by places self }
    {
        if self.number == 0 {
            return done();
        }
        refused_at(self.number, self.place + places)
    }

    // Of two replies on an input, the second on what stands further on: the lower number, and of one number the first
    // place.
    #[tactic(auto, unfolding(crate::specs::Replies::lowest))]
    pub fn lowest(self, behind: Reply) -> Reply
        ensures { result ≡ lowest self behind }
    {
        if self.number == 0 {
            return behind;
        }
        if behind.number == 0 || self.number <= behind.number {
            self
        } else {
            behind
        }
    }
}

// What a call that writes answers to C: its reply, and how many cells, bits or limbs it wrote.
#[repr(C)]
#[derive(Clone, Copy)]
pub struct Written {
    pub reply: Reply,
    pub count: usize,
}

impl From<Refusal> for Reply {
    ghost from_gives = { λ refusal reply. reply ≡ refusal_reply refusal };

    fn from(refusal: Refusal) -> Reply {
        refused_at(refusal.why.number(), refusal.place)
    }
}

impl<T: Drop> From<Result<T, Refusal>> for Reply {
    ghost from_gives = { λ answer reply. reply ≡ reply_of answer };

    fn from(answer: Result<T, Refusal>) -> Reply {
        match answer {
            Ok(_) => done(),
            Err(refusal) => refusal.into(),
        }
    }
}

impl From<Result<usize, Refusal>> for Written {
    ghost from_gives = { λ answer written. written ≡ written_of answer };

    fn from(answer: Result<usize, Refusal>) -> Written {
        Written {
            reply: answer.into(),
            count: answer.unwrap_or(0),
        }
    }
}

// The most words of a stream.
pub const MOST_WORDS: usize = 256;

// The most cells that the pattern finder takes; no stream has as many.
pub const MOST_CELLS: usize = 65536;

// A profile of q levels, word length m and reach x.
pub fn profile_of(q: usize, m: usize, x: usize) -> Profile
    ensures { result ≡ profile_of q m x }
{
    Profile { q, m, x }
}

// Refused with a number at a place.
pub fn refused_at(number: u8, place: usize) -> Reply
    ensures { result ≡ refused number place }
{
    Reply { number, place }
}

// Done.
pub fn done() -> Reply
    ensures { result ≡ done }
{
    refused_at(0, 0)
}

// Refused with a number, at place 0, where a test holds; else done.
pub fn refused_if(test: bool, number: u8) -> Reply
    ensures { result ≡ refused_if test number }
{
    if test { refused_at(number, 0) } else { done() }
}

// Refused at place 0 where a test holds.
pub fn refuse_if(test: bool, why: Why) -> Result<(), Refusal>
    ensures { reply_of result ≡ refused_if test (number_of why) }
{
    if test { Err(why.at(0)) } else { Ok(()) }
}

// What was found of a part of the input that starts so many places in, as it is found of the whole.
#[tactic(auto, using(crate::specs::AnswerLaws::not_done), unfolding(crate::specs::Replies::moved_by))]
pub fn moved_by(places: usize, found: Result<(), Refusal>) -> Result<(), Refusal>
    requires { (reply_of found).place + places < 2 ^ 64 }
    ensures { reply_of result ≡ moved_by places (reply_of found) }
{
    found.map_err(|refusal| refusal.why.at(refusal.place + places))
}

// What was found of two parts of an input, the second further on, as it is found of both: the lower number decides,
// and of one number the first place.
#[tactic(auto, using(crate::specs::AnswerLaws::not_done), unfolding(crate::specs::Replies::lowest))]
pub fn lowest(first: Result<(), Refusal>, second: Result<(), Refusal>) -> Result<(), Refusal>
    ensures { reply_of result ≡ lowest (reply_of first) (reply_of second) }
{
    match (first, second) {
        (Err(a), Err(b)) if b.why.number() < a.why.number() => second,
        (Err(_), _) => first,
        (Ok(()), _) => second,
    }
}

// Refused unless n is from low to high.
#[tactic(auto, unfolding(crate::specs::Replies::outside_refusal))]
fn check_between(low: usize, high: usize, n: usize, why: Why) -> Result<(), Refusal>
    ensures { reply_of result ≡ outside_refusal low high n (number_of why) }
{
    refuse_if((n < low) | (high < n), why)
}

// Number 1.
pub fn check_levels(q: usize) -> Result<(), Refusal>
    ensures { reply_of result ≡ levels_refusal q }
{
    check_between(2, 32, q, Why::Levels)
}

// Number 2.
pub fn check_length(m: usize) -> Result<(), Refusal>
    ensures { reply_of result ≡ length_refusal m }
{
    check_between(1, 128, m, Why::Length)
}

// Number 3.
pub fn check_reach(x: usize) -> Result<(), Refusal>
    ensures { reply_of result ≡ reach_refusal x }
{
    check_between(1, 8, x, Why::Reach)
}

// Numbers 1 to 3: the first that applies to a profile.
#[tactic(auto, using(crate::specs::AnswerLaws::refusal_decides, crate::specs::AnswerLaws::passed_leaves), unfolding(crate::specs::Replies::profile_refusal))]
pub fn check_profile(p: Profile) -> Result<(), Refusal>
    ensures { reply_of result ≡ profile_refusal p }
{
    check_levels(p.q)?;
    check_length(p.m)?;
    check_reach(p.x)
}

// Number 9: an output of `lent` places is too short for what needs `needed`.
#[tactic(auto, unfolding(crate::specs::Replies::room_refusal))]
pub fn check_room(needed: usize, lent: usize) -> Result<(), Refusal>
    ensures { reply_of result ≡ room_refusal needed lent }
{
    refuse_if(lent < needed, Why::OutputShort)
}
