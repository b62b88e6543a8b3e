// The published profiles, and the rate of a profile.
#![tactic(auto)]

ghost use Rattle.std.specs.Prelude.{◌≡◌};
ghost use Rattle.replies.specs.Answers.{reply_of};
ghost use Rattle.catalogue.specs.Catalogue.{publishing};
ghost use Rattle.catalogue.specs.Given.{published_of, rated_of};
ghost use Rattle.catalogue.specs.Rating.{rate_refusal, rating};

use replies::{Profile, Refusal, Reply, Why};

mod rows;

// A published profile: q, x, m and the message length s.
#[derive(Clone, Copy, PartialEq, Eq, Debug, Default)]
pub struct Row {
    pub q: usize,
    pub x: usize,
    pub m: usize,
    pub s: usize,
}

// The rate of a number of words: how many bits they carry, and in how many cells.
#[derive(Clone, Copy, PartialEq, Eq, Debug, Default)]
pub struct Rate {
    pub bits: usize,
    pub cells: usize,
}

// A published profile as C takes it: the reply, and q, x, m and s, which are 0 where the call is refused.
#[repr(C)]
#[derive(Clone, Copy)]
pub struct Published {
    pub reply: Reply,
    pub q: usize,
    pub x: usize,
    pub m: usize,
    pub s: usize,
}

// The rate of n words as C takes it: the reply, and bits and cells, which are 0 where the call is refused.
#[repr(C)]
#[derive(Clone, Copy)]
pub struct Rated {
    pub reply: Reply,
    pub bits: usize,
    pub cells: usize,
}

impl From<Result<Row, Refusal>> for Published {
    ghost from_gives = { λ answer published. published ≡ published_of answer };

    fn from(answer: Result<Row, Refusal>) -> Published {
        let Row { q, x, m, s } = answer.unwrap_or_default();
        Published {
            reply: answer.into(),
            q,
            x,
            m,
            s,
        }
    }
}

impl From<Result<Rate, Refusal>> for Rated {
    ghost from_gives = { λ answer rated. rated ≡ rated_of answer };

    fn from(answer: Result<Rate, Refusal>) -> Rated {
        let Rate { bits, cells } = answer.unwrap_or_default();
        Rated {
            reply: answer.into(),
            bits,
            cells,
        }
    }
}

// How many profiles are published.
pub const ROWS: usize = 40;

// The published profile with a row number.
#[tactic(auto, using(crate::proofs::RowsRight::no_such_row))]
pub fn published_profile(row: usize) -> Result<Row, Refusal>
    ensures { published_of result ≡ publishing row }
{
    let Some(&(q, x, m, s)) = rows::PUBLISHED[..ROWS].get(row) else {
        return Err(Why::NoSuch.at(0));
    };
    Ok(Row { q, x, m, s })
}

// The first number that applies to a rate: of what every call on messages tests, and of n.
#[tactic(auto, using(tables::specs::WritingLaws::table_calls), unfolding(crate::specs::Rating::rate_refusal))]
fn check_rate(p: Profile, table: &[u64], n: usize) -> Result<(), Refusal>
    ensures { reply_of result ≡ rate_refusal p table.now n }
{
    messages::check_carrying(p, table)?;
    replies::refuse_if(replies::MOST_WORDS < n, Why::InputLength)
}

// The rate of n words: bits n s and cells n (m + x).
#[tactic(auto, using(crate::specs::RatingLaws::rate_calls))]
pub fn rate_of_words(p: Profile, table: &[u64], n: usize) -> Result<Rate, Refusal>
    ensures { rated_of result ≡ rating p table.now n }
{
    check_rate(p, table, n)?;
    let s = messages::message_length(p, table);
    Ok(Rate {
        bits: n * s,
        cells: n * (p.m + p.x),
    })
}
