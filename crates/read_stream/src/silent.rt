// The words that carry no message: all 0, an index above 2^s, all top. An index is not worked out to
// test it: words are ordered as their indices are, so the levels are compared with the word of 2^s.
ghost use Rattle.std.specs.Prelude.{◌≡◌, ◌++◌, ◌^◌, ◌≤◌, ◌<◌, eqb, length, drop};
ghost use Rattle.messages.specs.Carrying.{CarriesMessages};
ghost use Rattle.listing.specs.Every.{every};
ghost use Rattle.listing.specs.Listing.{before};
ghost use Rattle.replies.specs.Answers.{reply_of};
ghost use Rattle.replies.specs.Ranges.{InRange};
ghost use Rattle.profiles.specs.Profiles.{length_of, LegalFor};
ghost use Rattle.read_stream.specs.Reading.{silent_refusal, silence_refusal};
ghost use Rattle.read_stream.specs.LimitLaws.{limit_of, Limits};
ghost use Rattle.read_stream.specs.TestLaws.{Testable};

use replies::{Profile, Refusal, Why};

// Each cell of a word is at a level.
fn all_at(level: u8, word: &[u8]) -> bool
    ensures { result ≡ every (λ c. eqb c level) word.now }
{
    word.iter().all(|cell| *cell == level)
}

// A word stands before another of its length: the leftmost differing level decides.
fn stands_before(first: &[u8], second: &[u8]) -> bool
    requires { length first.now ≡ length second.now }
    ensures { result ≡ before first.now second.now }
{
    first < second
}

// Writes the word of the index 2^s to the front of `limit`.
pub fn spell_limit(p: Profile, table: &[u64], s: usize, limit: &mut [u8])
    requires { CarriesMessages p table.now × (s ≡ length_of p) × (p.m ≤ length limit.old) }
    ensures { limit.new ≡ limit_of p ++ drop p.m limit.old }
{
    let mut rest = [0u64; 10];
    rest[s / 64] = 1u64 << (s % 64);
    word_of_index::spell(p, table, &mut rest, limit, 0);
}

// Numbers 14, 15, 16 of a legal word. A word of all top stands behind that of 2^s, so 15 is given
// before 16 is tested.
#[tactic(auto, using(crate::specs::SilentLaws::silent_tests), unfolding(crate::specs::Reading::silent_refusal))]
fn check_silent(p: Profile, limit: &[u8], word: &[u8]) -> Result<(), Refusal>
    requires { InRange p × Limits p limit.now × LegalFor p word.now }
    ensures { reply_of result ≡ silent_refusal p word.now }
{
    replies::refuse_if(all_at(0, word), Why::AllZero)?;
    replies::refuse_if(stands_before(limit, word), Why::IndexAbove)?;
    replies::refuse_if(all_at((p.q - 1) as u8, word), Why::AllTop)
}

// The lowest of 14, 15, 16 that applies to the words of a stream.
pub fn check_words(p: Profile, limit: &[u8], cells: &[u8]) -> Result<(), Refusal>
    requires { Testable p limit.now cells.now × (length cells.now < 2 ^ 32) }
    ensures { reply_of result ≡ silence_refusal p cells.now }
{
    streams::check_parts(
        p,
        cells,
        0,
        &|part: &[u8]| check_silent(p, limit, &part[..p.m]),
    )
}
