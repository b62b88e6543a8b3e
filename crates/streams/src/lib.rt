// The tests that calls on streams share, and the bridge between two words.
#![tactic(auto)]

ghost use Rattle.std.specs.Prelude.{◌≡◌, true, List, ℕ, ◌++◌, ◌+◌, ◌-◌, ◌^◌, ◌<◌, length, take, drop, get_or};
ghost use Rattle.replies.specs.Answers.{reply_of};
ghost use Rattle.replies.specs.Replies.{done};
ghost use Rattle.replies.specs.Ranges.{InRange};
ghost use Rattle.patterns.specs.Stream.{bridge};
ghost use Rattle.profiles.specs.Profiles.{patterns_of, stride, stream_length};
ghost use Rattle.streams.specs.Streams.{words_in, fit_refusal, both_fit_refusal, bridge_refusal, part_refusal, throughout, stream_refusal};
ghost use Rattle.replies.specs.declared.Reply.{Reply};
ghost use Rattle.streams.specs.FromWords.{FromEach};
ghost use Rattle.streams.specs.FitLaws.{Fits};
ghost use Rattle.streams.specs.UnfitLaws.{unfit};
ghost use Rattle.streams.specs.BridgeLaws.{bridge_level, WrongAt};
ghost use Rattle.streams.specs.OrderLaws.{RightBridges};

use replies::{Profile, Refusal, Why};

// No stream has more cells: no word has more than 128, no bridge more than 8.
const LONGEST: usize = replies::MOST_WORDS * 136;

// How many words a stream of so many cells has.
#[tactic(auto, unfolding(crate::specs::Streams::words_in))]
pub fn words_in(p: Profile, cells: usize) -> usize
    requires { InRange p × (cells < 2 ^ 32) }
    ensures { result ≡ words_in p cells }
{
    (cells + p.x) / (p.m + p.x)
}

// No stream of at most 256 words has so many cells. With a bridge behind its last word too, a stream
// has m + x cells a word.
#[tactic(auto, using(crate::specs::UnfitLaws::too_many_unfit, crate::specs::UnfitLaws::none_fit, crate::specs::UnfitLaws::some_unfit))]
fn unfit(p: Profile, cells: usize) -> bool
    requires { InRange p }
    ensures { result ≡ unfit p cells }
{
    if LONGEST < cells {
        return true;
    }
    if cells == 0 {
        return false;
    }
    ((cells + p.x) % (p.m + p.x) != 0) | (replies::MOST_WORDS < words_in(p, cells))
}

// Number 7 for one stream.
#[tactic(auto, unfolding(crate::specs::Streams::fit_refusal))]
pub fn check_fit(p: Profile, cells: usize) -> Result<(), Refusal>
    requires { InRange p }
    ensures { reply_of result ≡ fit_refusal p cells }
{
    replies::refuse_if(unfit(p, cells), Why::InputLength)
}

// Number 7 for two streams: both together have at most 256 words.
#[tactic(auto, using(crate::specs::UnfitLaws::one_unfit, crate::specs::UnfitLaws::both_fit, crate::specs::UnfitLaws::both_counted))]
pub fn check_both_fit(p: Profile, a: usize, b: usize) -> Result<(), Refusal>
    requires { InRange p }
    ensures { reply_of result ≡ both_fit_refusal p a b }
{
    if unfit(p, a) | unfit(p, b) {
        return Err(Why::InputLength.at(0));
    }
    let words = words_in(p, a) + words_in(p, b);
    replies::refuse_if(replies::MOST_WORDS < words, Why::InputLength)
}

// The level of all cells of the bridge between two cells.
fn bridge_level(p: Profile, before: u8, after: u8) -> u8
    requires { InRange p }
    ensures { result ≡ bridge_level p before after }
{
    let top = (p.q - 1) as u8;
    if (before == top) & (after == top) {
        top
    } else {
        0
    }
}

// The first wrong cell of the bridge at a place, counted from there.
fn first_wrong(p: Profile, cells: &[u8], at: usize) -> Option<usize>
    requires { InRange p × (0 < at) × (at + p.x < length cells.now) }
    ensures { WrongAt p cells.now at result }
{
    let level = bridge_level(p, cells[at - 1], cells[at + p.x]);
    cells[at..at + p.x].iter().position(|cell| *cell != level)
}

// Number 13: the first wrong cell of the bridge behind a word, in a part that goes on behind it.
#[tactic(auto, using(crate::specs::BridgeLaws::first_wrong, crate::specs::BridgeLaws::none_wrong))]
fn check_bridge(p: Profile, part: &[u8]) -> Result<(), Refusal>
    requires { InRange p × (stride p < length part.now) }
    ensures { reply_of result ≡ bridge_refusal p part.now }
{
    match first_wrong(p, part, p.m) {
        Some(wrong) => Err(Why::Bridge.at(p.m + wrong)),
        None => Ok(()),
    }
}

// Numbers 10, 11, 13 from a word on. What it holds is to stand in no frame of the recursion over words.
#[inline(never)]
#[tactic(auto, using(replies::specs::AnswerLaws::refusal_decides, replies::specs::AnswerLaws::passed_leaves, crate::specs::BridgeLaws::word_alone, crate::specs::FitLaws::goes_on, crate::specs::FitLaws::first_cells), unfolding(crate::specs::Streams::part_refusal))]
fn check_part(p: Profile, part: &[u8]) -> Result<(), Refusal>
    requires { InRange p × (length part.now ≡ stream_length p (words_in p (length part.now))) }
    ensures { reply_of result ≡ part_refusal p part.now }
{
    let m = p.m;
    if part.len() <= m {
        return cells::check_cells(p.q, p.x, part);
    }
    cells::check_cell(p.q, &part[..m + p.x])?;
    cells::check_pattern(p.q, p.x, &part[..m])?;
    check_bridge(p, part)
}

// What a test finds of the words from a place on, each with all that stands behind it: the lowest number that applies,
// with the first place. The cells after a word and its bridge are handed on as the part that starts m + x cells in.
#[tactic(auto, using(std::proofs::lemmas::List::take_rest, crate::specs::FitLaws::goes_on, crate::specs::PartLaws::rest_exact, crate::specs::PartLaws::throughout_none, crate::proofs::PartLaws::throughout_last, crate::proofs::PartLaws::throughout_step))]
pub fn check_parts<F: Fn(&[u8]) -> Result<(), Refusal>>(
    p: Profile,
    part: &[u8],
    place: usize,
    test: &F,
) -> Result<(), Refusal>
    requires range { InRange p }
    requires exact { length part.now ≡ stream_length p (words_in p (length part.now)) }
    requires near { place + length part.now < 2 ^ 32 }
    requires tested { FromEach p (λ t. (shown : _) → shown.now ≡ t → F.pre test.now shown × ((r : _) → F.post test.now shown r → (reply_of r).place < 2 ^ 32)) (words_in p (length part.now)) part.now }
    ensures { (finds : List ℕ → Reply) → FromEach p (λ t. (shown : _) → shown.now ≡ t → (r : _) → F.post test.entry.now shown r → reply_of r ≡ finds t) (words_in p (length part.now)) part.now → reply_of result ≡ throughout p finds (words_in p (length part.now)) place part.now }
{
    if part.is_empty() {
        return Ok(());
    }
    if part.len() <= p.m {
        return replies::moved_by(place, test(part));
    }
    let next = p.m + p.x;
    // First, so that nothing that is found here stands in the frame of the recursion.
    let behind = check_parts(p, &part[next..], place + next, test);
    replies::lowest(replies::moved_by(place, test(part)), behind)
}

// Each bridge of a stream is right.
fn bridges_right(p: Profile, cells: &[u8]) -> bool
    requires { InRange p × Fits p (length cells.now) }
    ensures { result ≡ true → RightBridges p cells.now }
{
    for at in (p.m..cells.len()).step_by(p.m + p.x) {
        if first_wrong(p, cells, at).is_some() {
            return false;
        }
    }
    true
}

// A stream is in order: seen as one run, its cells are refused neither 10 nor 11, and each bridge is
// right. Then 10, 11 and 13 refuse nothing of it.
#[tactic(auto, using(crate::proofs::OrderLaws::in_order))]
fn in_order(p: Profile, cells: &[u8]) -> bool
    requires { InRange p × Fits p (length cells.now) }
    ensures { result ≡ true → stream_refusal p cells.now ≡ done }
{
    cells::check_cells(p.q, p.x, cells).is_ok() && bridges_right(p, cells)
}

// Numbers 10, 11, 13 of a stream: what is not in order is tested word by word.
#[tactic(auto, unfolding(crate::specs::Streams::stream_refusal))]
pub fn check_stream(p: Profile, cells: &[u8]) -> Result<(), Refusal>
    requires { InRange p × Fits p (length cells.now) }
    ensures { reply_of result ≡ stream_refusal p cells.now }
{
    if in_order(p, cells) {
        return Ok(());
    }
    check_parts(p, cells, 0, &|part: &[u8]| check_part(p, part))
}

// Writes the bridge of x cells from `at` on, between the words that stand there.
pub fn write_bridge(p: Profile, out: &mut [u8], at: usize)
    requires { InRange p × (0 < at) × (at + p.x < length out.old) }
    ensures { out.new ≡ take at out.old ++ (bridge (patterns_of p) (get_or out.old (at - 1) 0) (get_or out.old (at + p.x) 0) ++ drop (at + p.x) out.old) }
{
    let level = bridge_level(p, out[at - 1], out[at + p.x]);
    out[at..at + p.x].fill(level);
}
