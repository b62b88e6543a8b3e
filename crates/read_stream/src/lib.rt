// A stream read back to message bits. All tests go before the first word is read, so that a refusal
// writes nothing.
#![tactic(auto)]

ghost use Rattle.std.specs.Prelude.{◌≡◌, length};
ghost use Rattle.profiles.specs.Profiles.{length_of};
ghost use Rattle.replies.specs.Answers.{reply_of, written_of};
ghost use Rattle.messages.specs.Carrying.{CarriesMessages};
ghost use Rattle.streams.specs.FitLaws.{Fits};
ghost use Rattle.read_stream.specs.Reading.{reading_stream};
ghost use Rattle.read_stream.specs.ReadingLaws.{words_read_refusal, stream_read_refusal};

use carried::Reader;
use replies::{Profile, Refusal};

mod carried;
mod silent;

// Numbers 10, 11, 13 of the stream, then 14, 15, 16 of its words. The word of the index 2^s, with which
// every word is compared, is spelt once.
#[tactic(auto, using(streams::specs::CallLaws::stream_calls))]
fn check_words(p: Profile, table: &[u64], s: usize, cells: &[u8]) -> Result<(), Refusal>
    requires { CarriesMessages p table.now × (s ≡ length_of p) × Fits p (length cells.now) }
    ensures { reply_of result ≡ words_read_refusal p cells.now }
{
    streams::check_stream(p, cells)?;
    let mut limit = [0u8; 128];
    silent::spell_limit(p, table, s, &mut limit);
    let m = p.m;
    silent::check_words(p, &limit[..m], cells)
}

// Number 7, number 9 for an output of `lent` bytes, and numbers 10 to 16.
#[tactic(auto, using(streams::specs::CallLaws::stream_calls))]
fn check_stream(
    p: Profile,
    table: &[u64],
    s: usize,
    cells: &[u8],
    lent: usize,
) -> Result<(), Refusal>
    requires { CarriesMessages p table.now × (s ≡ length_of p) }
    ensures { reply_of result ≡ stream_read_refusal p cells.now lent }
{
    streams::check_fit(p, cells.len())?;
    let n = streams::words_in(p, cells.len());
    replies::check_room((n * s + 7) / 8, lent)?;
    check_words(p, table, s, cells)
}

// Reads a stream back to message bits, which are packed into bytes from the front of `out`, the high
// bit first, with zero bits to the end of the last byte. The count is that of the bits.
#[tactic(auto, using(streams::specs::CallLaws::stream_calls), unfolding(crate::specs::Reading::reading_stream, crate::specs::Reading::read_refusal))]
pub fn read(p: Profile, table: &[u64], cells: &[u8], out: &mut [u8]) -> Result<usize, Refusal>
    ensures value { written_of result ≡ (reading_stream p table.now cells.now out.old).answer }
    ensures out_after { out.new ≡ (reading_stream p table.now cells.now out.old).lent }
{
    messages::check_carrying(p, table)?;
    let s = messages::message_length(p, table);
    check_stream(p, table, s, cells, out.len())?;
    let reader = Reader {
        p,
        table,
        used: limbs::limbs_used(table, 10 * p.m, 10),
        s,
    };
    reader.put_messages(cells, out, 0);
    let bits = streams::words_in(p, cells.len()) * s;
    Ok(bits)
}
