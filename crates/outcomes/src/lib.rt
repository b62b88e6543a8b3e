// What a person is told of a reply: its number, its place and what they mean, in document 01's words;
// the cells around the place; and the word or the bridge that it lies in.
#![tactic(auto)]

ghost use Rattle.std.specs.Prelude.{MatchOption, is_some, ◌≡◌, ◌&&◌, take, nat_lt};
ghost use Rattle.io.specs.Counts.{IsPrefixLen};
ghost use Rattle.replies.specs.Ranges.{most_cells};
ghost use Rattle.replies.specs.Answers.{written_of};
ghost use Rattle.replies.specs.Replies.{is_done, profile_refusal};
ghost use Rattle.text.specs.Writer.{HasRoom, Puts};
ghost use Rattle.outcomes.specs.Outcomes.{placed_text, words_text, reply_text, telling_reply, place_in_cells, first_shown, behind_shown, cell_text, cells_around, nowhere, spot_of};

use replies::{Profile, Refusal, Reply};
use text::Writer;

// No more bytes are told of a reply.
pub const REPLY_BYTES: usize = 256;

// Cells that are shown before a place, and behind it.
const SHOWN: usize = 8;

// Where a place of a stream lies: which word, or which word the bridge stands behind, counted from 0;
// which cell of it; and the places of its first and last cell.
// The definition `spot_of` names these fields.
#[derive(Clone, Copy)]
pub struct Spot {
    pub in_bridge: bool,
    pub word: usize,
    pub cell: usize,
    pub first: usize,
    pub last: usize,
}

// Puts words with the place behind them.
#[tactic(auto, unfolding(crate::specs::Outcomes::placed_text))]
fn put_placed(words: &[u8], place: usize, out: &mut Writer)
    requires { HasRoom out.old (placed_text words.now place) }
    ensures { Puts out.old (placed_text words.now place) out.new }
{
    out.put(words);
    out.put_decimal(place as u64);
    out.put(b")")
}

// Puts the words on a number, with what stands at its place where it has one. `remi_reply_text` takes any
// number, also one that is none of `Why`, so these are numbers.
#[tactic(auto, unfolding(crate::specs::Outcomes::words_text))]
fn put_words(number: u8, place: usize, out: &mut Writer)
    requires { HasRoom out.old (words_text number place) }
    ensures { Puts out.old (words_text number place) out.new }
{
    match number {
        0 => out.put(b"done"),
        1 => out.put(b"q outside its range, 2 to 32"),
        2 => out.put(b"m outside its range, 1 to 128"),
        3 => out.put(b"x outside its range, 1 to 8"),
        4 => out.put(b"no words that carry messages"),
        5 => out.put(b"table shorter than 10(m+1) limbs"),
        6 => put_placed(b"table does not belong (first wrong row ", place, out),
        7 => out.put(b"input length that fits no word, stream or bit count, or is over the most"),
        8 => put_placed(b"bit after the last message bit is 1 (bit at ", place, out),
        9 => out.put(b"lent output too short"),
        10 => put_placed(b"cell at or above q (cell at ", place, out),
        11 => put_placed(b"forbidden pattern (top at ", place, out),
        12 => out.put(b"index at or above N(m), or list row at or above 40"),
        13 => put_placed(b"wrong bridge cell (cell at ", place, out),
        14 => put_placed(b"word of all 0 (word at ", place, out),
        15 => put_placed(b"index above 2^s (word at ", place, out),
        16 => put_placed(b"word of all top (word at ", place, out),
        _ => out.put(b"number that has no meaning"),
    }
}

// Puts what is told of a reply.
#[tactic(auto, unfolding(crate::specs::Outcomes::reply_text))]
fn put_reply(reply: Reply, out: &mut Writer)
    requires { HasRoom out.old (reply_text reply) }
    ensures { Puts out.old (reply_text reply) out.new }
{
    if reply.number == 0 {
        return put_words(reply.number, reply.place, out);
    }
    out.put(b"refused ");
    out.put_decimal(u64::from(reply.number));
    out.put(b" at ");
    out.put_decimal(reply.place as u64);
    out.put(b": ");
    put_words(reply.number, reply.place, out)
}

// Writes what is told of a reply to the front of `out`. How many bytes that is.
#[tactic(auto, using(crate::specs::ReplyLaws::refused_answer, crate::specs::ReplyLaws::refused_lent))]
pub fn reply_text(reply: Reply, out: &mut [u8]) -> Result<usize, Refusal>
    ensures value { written_of result ≡ (telling_reply reply out.old).answer }
    ensures out_after { out.new ≡ (telling_reply reply out.old).lent }
{
    replies::check_room(REPLY_BYTES, out.len())?;
    let mut writer = Writer { out, at: 0 };
    put_reply(reply, &mut writer);
    Ok(writer.at)
}

// The place of a number is one among the cells handed in.
pub fn place_in_cells(number: u8) -> bool
    ensures { result ≡ place_in_cells number }
{
    matches!(number, 10 | 11 | 13..=16)
}

// The place of the first cell that is shown around a place.
pub fn first_shown(place: usize) -> usize
    ensures { result ≡ first_shown place }
{
    place.saturating_sub(SHOWN)
}

// The place behind the last cell that is shown around a place, of so many cells.
pub fn behind_shown(place: usize, cells: usize) -> usize
    ensures { result ≡ behind_shown place cells }
{
    cells.min(place.saturating_add(SHOWN + 1))
}

// Puts the level of a cell behind a blank, in brackets where it is marked.
fn put_cell(level: u8, marked: bool, out: &mut Writer)
    requires { HasRoom out.old (cell_text level marked) }
    ensures { Puts out.old (cell_text level marked) out.new }
{
    if marked {
        out.put(b" [");
        out.put_decimal(u64::from(level));
        out.put(b"]")
    } else {
        out.put(b" ");
        out.put_decimal(u64::from(level))
    }
}

// Writes the cells around a place to the front of `out`, each behind a blank, the one at the place in
// brackets. How many bytes they take.
pub fn around(cells: &[u8], place: usize, out: &mut [u8; 128]) -> usize
    ensures prefix_len { IsPrefixLen result out.new }
    ensures out_after { take result out.new ≡ cells_around cells.now place }
{
    let mut writer = Writer { out, at: 0 };
    for i in first_shown(place)..behind_shown(place, cells.len()) {
        put_cell(cells[i], i == place, &mut writer);
    }
    writer.at
}

// Where a place of a stream lies; none for a profile out of range, which no stream has, and for a place
// that no stream reaches.
#[tactic(auto, using(crate::specs::SpotLaws::accepted))]
pub fn spot_of(p: Profile, place: usize) -> Option<Spot>
    ensures value { MatchOption result (nowhere ≡ spot_of p place) (λ spot. spot ≡ spot_of p place) }
    ensures variant { is_some result ≡ (is_done (profile_refusal p) && nat_lt place most_cells) }
{
    if replies::check_profile(p).is_err() || replies::MOST_CELLS <= place {
        return None;
    }
    let word = place / (p.m + p.x);
    let cell = place % (p.m + p.x);
    let start = place - cell;
    if cell < p.m {
        return Some(Spot {
            in_bridge: false,
            word,
            cell,
            first: start,
            last: start + p.m - 1,
        });
    }
    Some(Spot {
        in_bridge: true,
        word,
        cell: cell - p.m,
        first: start + p.m,
        last: start + p.m + p.x - 1,
    })
}
