// The index of a word: the number of legal words of its length before it.
#![tactic(auto)]

ghost use Rattle.std.specs.Prelude.{◌≡◌, ◌≤◌};
ghost use Rattle.replies.specs.Answers.{reply_of};
ghost use Rattle.index_of_word.specs.Indexing.{word_refusal, indexing};
ghost use Rattle.index_of_word.specs.Given.{indexed_of};
ghost use Rattle.index_of_word.specs.Spans.{Span};
ghost use Rattle.index_of_word.specs.Whole.{Indexable, with_index};

use numbers::Index;
use replies::{Profile, Refusal, Reply, Why};

mod stretch;

// The answer as C takes it: the reply, and the index, which is 0 where the call is refused.
#[repr(C)]
#[derive(Clone, Copy)]
pub struct Indexed {
    pub reply: Reply,
    pub index: Index,
}

impl From<Result<Index, Refusal>> for Indexed {
    ghost from_gives = { λ answer indexed. indexed ≡ indexed_of answer };

    #[tactic(auto, unfolding(limbs::specs::Limbs::limbs_of))]
    fn from(answer: Result<Index, Refusal>) -> Indexed {
        Indexed {
            reply: answer.into(),
            index: answer.unwrap_or(Index([0; 10])),
        }
    }
}

// So many rows on, a row takes at most one limb more: N(r) is at most q^r, and 4^32, 8^21, 16^16 and
// 32^12 are at most 2^64.
fn span(q: usize) -> usize
    requires { q ≤ 32 }
    ensures { Span q result }
{
    if q <= 4 {
        32
    } else if q <= 8 {
        21
    } else if q <= 16 {
        16
    } else {
        12
    }
}

// Writes the index of a legal word to the first n limbs of `sum`, from the rows of a table that
// belongs to the profile: how often each row is taken is counted first.
pub fn put_index(p: Profile, table: &[u64], n: usize, cells: &[u8], sum: &mut [u64])
    requires { Indexable p n table.now cells.now sum.old }
    ensures { sum.new ≡ with_index p n cells.now sum.old }
{
    let mut counts = [0; 128];
    let m = cells.len();
    stretch::open_stretch((p.q - 1) as u64, p.x, cells, 0, &mut counts[..m]);
    combining::combine(table, &counts[..m], n, span(p.q), sum);
}

// The tests, in the order of their numbers: profile, table, length, cells.
#[tactic(auto, using(crate::specs::Answers::word_calls), unfolding(crate::specs::Indexing::word_refusal))]
fn check_word(p: Profile, table: &[u64], cells: &[u8]) -> Result<(), Refusal>
    ensures { reply_of result ≡ word_refusal p table.now cells.now }
{
    replies::check_profile(p)?;
    tables::check_table(p, table)?;
    replies::refuse_if(cells.len() != p.m, Why::InputLength)?;
    cells::check_cells(p.q, p.x, cells)
}

// The index of a word of the profile's code.
#[tactic(auto, using(crate::specs::Answers::indexing_refused))]
pub fn index(p: Profile, table: &[u64], cells: &[u8]) -> Result<Index, Refusal>
    ensures { indexed_of result ≡ indexing p table.now cells.now }
{
    check_word(p, table, cells)?;
    let n = limbs::limbs_used(table, 10 * p.m, 10);
    let mut sum = [0; 10];
    put_index(p, table, n, cells, &mut sum);
    Ok(Index(sum))
}
