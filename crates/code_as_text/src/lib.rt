// A small code as text: what the listing program prints for the line that it reads.
#![tactic(auto)]

ghost use Rattle.std.specs.Prelude.{◌++◌, ◌≡◌, ◌≤◌, ◌<◌, ltb, length, take};
ghost use Rattle.io.specs.Counts.{IsPrefixLen};
ghost use Rattle.limbs.specs.Limbs.{value};
ghost use Rattle.replies.specs.Answers.{written_of};
ghost use Rattle.replies.specs.Ranges.{InRange};
ghost use Rattle.profiles.specs.Profiles.{word_count};
ghost use Rattle.tables.specs.Tables.{Belongs};
ghost use Rattle.text.specs.Writer.{HasRoom, Puts};
ghost use Rattle.code_as_text.specs.Printed.{stated_length, last_carrying, header, message_text, word_line, word_lines, answer_text, printed, deciding, PrintsFor, most_bytes, listing};

use numbers::Index;
use replies::{Profile, Refusal};
use text::Writer;

// So many bytes of an input decide what is printed for it.
pub const DECIDING: usize = 13;

// No text is longer.
pub const MOST_BYTES: usize = 262144;

// The most words that are listed, as ten limbs.
const MOST_LISTED: [u64; 10] = [4096, 0, 0, 0, 0, 0, 0, 0, 0, 0];

// The first index that carries a message.
const FIRST: usize = 1;

// An index that is one limb.
fn index_of(i: usize) -> Index
    ensures { (value result.0 ≡ i) × (length result.0 ≡ 10) }
{
    let mut limbs = [0; 10];
    limbs[0] = i as u64;
    Index(limbs)
}

// The message length s; 0 where there are no words that carry messages.
fn stated_length(p: Profile, table: &[u64]) -> usize
    requires { InRange p × Belongs p p.m table.now }
    ensures { result ≡ stated_length p }
{
    match messages::check_message(p) {
        Ok(()) => messages::message_length(p, table),
        Err(_) => 0,
    }
}

// The last index that carries a message of s bits; 0 where s is 0, for then there is none.
fn last_carrying(s: usize) -> usize
    requires { s < 64 }
    ensures { result ≡ last_carrying s }
{
    if s == 0 { 0 } else { 1 << s }
}

// Puts the header: q m x N s.
#[tactic(auto, unfolding(crate::specs::Printed::header))]
fn put_header(p: Profile, n: usize, s: usize, out: &mut Writer)
    requires { (n ≡ word_count p) × (s ≡ stated_length p) × HasRoom out.old (header p) }
    ensures { Puts out.old (header p) out.new }
{
    out.put_profile(p);
    out.put(b" ");
    out.put_decimal(n as u64);
    out.put(b" ");
    out.put_decimal(s as u64);
    out.put(b"\n")
}

// Puts the message that an index carries, or a hyphen.
fn put_message(last: usize, i: usize, out: &mut Writer)
    requires { HasRoom out.old (message_text last i) }
    ensures { Puts out.old (message_text last i) out.new }
{
    if i < FIRST || last < i {
        return out.put(b"-");
    }
    let message = index_of(i).message();
    let limbs = message.0;
    out.put_decimal(limbs[0])
}

// Puts the line of an index.
#[tactic(auto, unfolding(crate::specs::Printed::word_line))]
fn put_word(p: Profile, table: &[u64], last: usize, i: usize, out: &mut Writer)
    requires { InRange p × Belongs p p.m table.now × (last ≡ last_carrying (stated_length p)) × (i < word_count p) × HasRoom out.old (word_line p i) }
    ensures { Puts out.old (word_line p i) out.new }
{
    let index = index_of(i);
    let mut rest = index.0;
    let mut cells = [0; 128];
    word_of_index::spell(p, table, &mut rest, &mut cells, 0);
    out.put_decimal(i as u64);
    out.put(b" ");
    out.put_levels(&cells[..p.m]);
    out.put(b" ");
    put_message(last, i, out);
    out.put(b"\n")
}

// Puts the lines of the first n indices.
fn put_words(p: Profile, table: &[u64], last: usize, n: usize, out: &mut Writer)
    requires { InRange p × Belongs p p.m table.now × (last ≡ last_carrying (stated_length p)) × (n ≤ word_count p) × HasRoom out.old (word_lines p n) }
    ensures { Puts out.old (word_lines p n) out.new }
{
    for i in 0..n {
        put_word(p, table, last, i, out);
    }
}

// Puts the whole code: the header and the line of each index.
fn put_code(p: Profile, table: &[u64], n: usize, out: &mut Writer)
    requires { InRange p × Belongs p p.m table.now × (n ≡ word_count p) × (n ≤ 4096) × HasRoom out.old (header p ++ word_lines p (word_count p)) }
    ensures { Puts out.old (header p ++ word_lines p (word_count p)) out.new }
{
    let s = stated_length(p, table);
    put_header(p, n, s, out);
    put_words(p, table, last_carrying(s), n, out)
}

// There are more words than are listed.
fn too_many(p: Profile, table: &[u64]) -> bool
    requires { Belongs p p.m table.now × (p.m ≤ 128) }
    ensures { result ≡ ltb 4096 (word_count p) }
{
    limbs::compare(&MOST_LISTED, 10, table, 10 * p.m).is_lt()
}

// Puts what is printed for a profile.
fn put_answer(p: Profile, out: &mut Writer)
    requires { HasRoom out.old (answer_text p) }
    ensures { Puts out.old (answer_text p) out.new }
{
    if let Err(refusal) = replies::check_profile(p) {
        out.put(b"refused ");
        out.put_decimal(u64::from(refusal.why.number()));
        return out.put(b"\n");
    }
    let mut table = [0; 1290];
    // A profile in range is not refused, and its table has at most 1,290 limbs.
    let _ = tables::build(p, &mut table);
    if too_many(p, &table) {
        return out.put(b"too many\n");
    }
    let words = table[10 * p.m] as usize;
    put_code(p, &table, words, out)
}

// Puts what is printed for the bytes that were read.
fn put_printed(line: &[u8], out: &mut Writer)
    requires { HasRoom out.old (printed line.now) }
    ensures { Puts out.old (printed line.now) out.new }
{
    let p = text::line::profile_in(line);
    if text::line::is_line_of(line, p) {
        return put_answer(p, out);
    }
    out.put(b"refused line\n")
}

// Puts what is printed for an input to the front of `out`, of which as many bytes as `read` has were
// asked for, and n were there.
pub fn put_for(read: &[u8], n: usize, out: &mut [u8]) -> usize
    requires { (deciding ≤ length read.now) × (n ≤ length read.now) × (most_bytes ≤ length out.old) }
    ensures prefix_len { IsPrefixLen result out.new }
    ensures prints_for { PrintsFor (take n read.now) (length read.now) result out.new }
{
    let mut writer = Writer { out, at: 0 };
    put_printed(&read[..n], &mut writer);
    writer.at
}

// Writes what the listing program prints for the bytes that it read to the front of `out`. How many bytes
// that is.
#[tactic(auto, using(crate::specs::AnswerLaws::refused_answer, crate::specs::AnswerLaws::refused_lent))]
pub fn list(line: &[u8], out: &mut [u8]) -> Result<usize, Refusal>
    ensures value { written_of result ≡ (listing line.now out.old).answer }
    ensures out_after { out.new ≡ (listing line.now out.old).lent }
{
    replies::check_room(MOST_BYTES, out.len())?;
    let mut writer = Writer { out, at: 0 };
    put_printed(line, &mut writer);
    Ok(writer.at)
}
