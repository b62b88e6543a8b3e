// The library for C and Rust: every public call under one prefix, as c/remizutogya.h declares
// it. Each promises what the call behind it promises, and does nothing else.
#![tactic(auto)]

ghost use Rattle.std.specs.Prelude.{◌≡◌};
ghost use Rattle.tables.specs.Tables.{building, handing_out};
ghost use Rattle.index_of_word.specs.Indexing.{indexing};
ghost use Rattle.word_of_index.specs.Spelling.{spelling};
ghost use Rattle.write_stream.specs.Writing.{writing_stream};
ghost use Rattle.read_stream.specs.Reading.{reading_stream};
ghost use Rattle.join_streams.specs.Joining.{joining_streams, turning_stream};
ghost use Rattle.cells.specs.Finding.{finding};
ghost use Rattle.catalogue.specs.Catalogue.{publishing};
ghost use Rattle.catalogue.specs.Rating.{rating};
ghost use Rattle.code_as_text.specs.Printed.{listing};
ghost use Rattle.outcomes.specs.Outcomes.{telling_reply};

use catalogue::{Published, Rated};
use index_of_word::Indexed;
use numbers::Index;
use replies::{Profile, Reply, Written};

// Builds the table of counts of a profile.
#[unsafe(no_mangle)]
pub extern "C" fn remi_build_table(p: Profile, out: &mut [u64]) -> Written
    ensures value { result ≡ (building p out.old).answer }
    ensures out_after { out.new ≡ (building p out.old).lent }
{
    tables::build(p, out).into()
}

// Hands out the shipped table, of q = 4 and x = 1, for words of length m.
#[unsafe(no_mangle)]
pub extern "C" fn remi_shipped_table(m: usize, out: &mut [u64]) -> Written
    ensures value { result ≡ (handing_out m out.old).answer }
    ensures out_after { out.new ≡ (handing_out m out.old).lent }
{
    tables::shipped(m, out).into()
}

// Gives the index of a word.
#[unsafe(no_mangle)]
pub extern "C" fn remi_index_of_word(p: Profile, table: &[u64], cells: &[u8]) -> Indexed
    ensures { result ≡ indexing p table.now cells.now }
{
    index_of_word::index(p, table, cells).into()
}

// Writes the word of an index.
#[unsafe(no_mangle)]
pub extern "C" fn remi_word_of_index(p: Profile, table: &[u64], i: Index, out: &mut [u8]) -> Written
    ensures value { result ≡ (spelling p table.now i out.old).answer }
    ensures out_after { out.new ≡ (spelling p table.now i out.old).lent }
{
    word_of_index::word(p, table, i, out).into()
}

// Writes message bits as a bridged stream.
#[unsafe(no_mangle)]
pub extern "C" fn remi_write_stream(
    p: Profile,
    table: &[u64],
    bytes: &[u8],
    bits: usize,
    out: &mut [u8],
) -> Written
    ensures value { result ≡ (writing_stream p table.now bytes.now bits out.old).answer }
    ensures out_after { out.new ≡ (writing_stream p table.now bytes.now bits out.old).lent }
{
    write_stream::write(p, table, bytes, bits, out).into()
}

// Reads a stream back to its message bits.
#[unsafe(no_mangle)]
pub extern "C" fn remi_read_stream(
    p: Profile,
    table: &[u64],
    cells: &[u8],
    out: &mut [u8],
) -> Written
    ensures value { result ≡ (reading_stream p table.now cells.now out.old).answer }
    ensures out_after { out.new ≡ (reading_stream p table.now cells.now out.old).lent }
{
    read_stream::read(p, table, cells, out).into()
}

// Joins two streams.
#[unsafe(no_mangle)]
pub extern "C" fn remi_join_streams(
    p: Profile,
    first: &[u8],
    second: &[u8],
    out: &mut [u8],
) -> Written
    ensures value { result ≡ (joining_streams p first.now second.now out.old).answer }
    ensures out_after { out.new ≡ (joining_streams p first.now second.now out.old).lent }
{
    join_streams::join(p, first, second, out).into()
}

// Turns a stream end for end.
#[unsafe(no_mangle)]
pub extern "C" fn remi_turn_stream(p: Profile, cells: &[u8], out: &mut [u8]) -> Written
    ensures value { result ≡ (turning_stream p cells.now out.old).answer }
    ensures out_after { out.new ≡ (turning_stream p cells.now out.old).lent }
{
    join_streams::turn(p, cells, out).into()
}

// Finds the first forbidden pattern in a run of cells.
#[unsafe(no_mangle)]
pub extern "C" fn remi_find_pattern(q: usize, x: usize, cells: &[u8]) -> Reply
    ensures { result ≡ finding q x cells.now }
{
    cells::find(q, x, cells).into()
}

// Gives a row of the published profiles.
#[unsafe(no_mangle)]
pub extern "C" fn remi_published_profile(row: usize) -> Published
    ensures { result ≡ publishing row }
{
    catalogue::published_profile(row).into()
}

// Gives the rate of n words as bits and cells.
#[unsafe(no_mangle)]
pub extern "C" fn remi_rate_of_words(p: Profile, table: &[u64], n: usize) -> Rated
    ensures { result ≡ rating p table.now n }
{
    catalogue::rate_of_words(p, table, n).into()
}

// Gives what the listing program prints for a line.
#[unsafe(no_mangle)]
pub extern "C" fn remi_list_code(line: &[u8], out: &mut [u8]) -> Written
    ensures value { result ≡ (listing line.now out.old).answer }
    ensures out_after { out.new ≡ (listing line.now out.old).lent }
{
    code_as_text::list(line, out).into()
}

// Gives what a reply says, in words.
#[unsafe(no_mangle)]
pub extern "C" fn remi_reply_text(reply: Reply, out: &mut [u8]) -> Written
    ensures value { result ≡ (telling_reply reply out.old).answer }
    ensures out_after { out.new ≡ (telling_reply reply out.old).lent }
{
    outcomes::reply_text(reply, out).into()
}
