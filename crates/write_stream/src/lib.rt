// Message bits written as a bridged stream: the word that carries each message, and a bridge between
// neighbours.
#![tactic(auto)]

ghost use Rattle.std.specs.Prelude.{List, ◌++◌, ◌≡◌, ℕ, ◌+◌, ◌*◌, ◌≤◌, ◌<◌, length, take, drop};
ghost use Rattle.std.specs.Option.{MatchOption};
ghost use Rattle.replies.specs.Answers.{reply_of, written_of};
ghost use Rattle.replies.specs.Replies.{done, refused};
ghost use Rattle.replies.specs.Ranges.{InRange, most_words};
ghost use Rattle.profiles.specs.Profiles.{stream_length};
ghost use Rattle.bits.specs.Bits.{bytes_for};
ghost use Rattle.write_stream.specs.Writing.{count_refusal, behind_refusal, carrier, writing_stream};
ghost use Rattle.write_stream.specs.Steps.{bits_refusal, message_at, with_stream, Ready, Fitting};

use numbers::Message;
use replies::{Profile, Refusal, Why};

// The first bit after the last message bit, in the same byte, that is 1.
fn first_behind(bytes: &[u8], bits: usize) -> Option<usize>
    requires { (bits ≤ most_words * 640) × (bytes_for bits ≤ length bytes.now) }
    ensures { MatchOption result (done ≡ behind_refusal bytes.now bits) (λ i. refused 8 i ≡ behind_refusal bytes.now bits) }
{
    (bits..8 * bits.div_ceil(8)).find(|i| (bytes[i / 8] >> (7 - i % 8)) % 2 == 1)
}

// Number 8: a bit after the last message bit, in the same byte, that is 1.
fn check_behind(bytes: &[u8], bits: usize) -> Result<(), Refusal>
    requires { (bits ≤ most_words * 640) × (bytes_for bits ≤ length bytes.now) }
    ensures { reply_of result ≡ behind_refusal bytes.now bits }
{
    match first_behind(bytes, bits) {
        Some(i) => Err(Why::BitBehind.at(i)),
        None => Ok(()),
    }
}

// The cells of a stream of n words.
fn stream_length(p: Profile, n: usize) -> usize
    requires { InRange p × (n ≤ most_words) }
    ensures { result ≡ stream_length p n }
{
    n * p.m + n.saturating_sub(1) * p.x
}

// Messages that are written as a stream: the profile, its table, the bits of a message, and the bytes that hold them.
#[derive(Clone, Copy)]
struct Messages<'a> {
    p: Profile,
    table: &'a [u64],
    s: usize,
    bytes: &'a [u8],
    ghost ready: { Ready p table.now s },
    ghost short: { (0 < s) × (s < 640) },
}

impl Messages<'_> {
    // Number 7: a bit count that is no multiple of s, that is over 256 words, or whose bytes are not all
    // there.
    fn check_count(&self, bits: usize) -> Result<(), Refusal>
        ensures { reply_of result ≡ count_refusal self.now.p self.now.bytes.now bits }
    {
        let over = replies::MOST_WORDS * self.s < bits;
        let short = self.bytes.len() < bits.div_ceil(8);
        replies::refuse_if((bits % self.s != 0) | (over | short), Why::InputLength)
    }

    // Numbers 7, 8 and 9, for an output of `lent` cells.
    #[tactic(auto, using(streams::specs::CallLaws::stream_calls))]
    fn check_bits(&self, bits: usize, lent: usize) -> Result<(), Refusal>
        ensures { reply_of result ≡ bits_refusal self.now.p self.now.bytes.now bits lent }
    {
        self.check_count(bits)?;
        check_behind(self.bytes, bits)?;
        replies::check_room(stream_length(self.p, bits / self.s), lent)
    }

    // Writes the word that carries message k to the m cells of `out` from `at` on.
    fn write_word(&self, k: usize, out: &mut [u8], at: usize)
        requires { (k < most_words) × (k * self.now.s + self.now.s ≤ 8 * length self.now.bytes.now) × (at + self.now.p.m ≤ length out.old) }
        ensures { out.new ≡ take at out.old ++ (carrier self.now.p (message_at self.now.s self.now.bytes.now k) ++ drop (at + self.now.p.m) out.old) }
    {
        let mut limbs = [0u64; 10];
        bits::number_at(self.bytes, k * self.s, self.s, &mut limbs);
        let message = Message(limbs);
        let index = message.index();
        let mut rest = index.0;
        word_of_index::spell(self.p, self.table, &mut rest, out, at);
    }

    // Writes word k behind the stream of the words before it, and the bridge between them.
    fn write_next(&self, k: usize, out: &mut [u8])
        requires { Fitting self.now.p self.now.s (k + 1) (length self.now.bytes.now) (length out.old) }
        ensures { (lent : List ℕ) → out.old ≡ with_stream self.now.p self.now.s self.now.bytes.now k lent → out.new ≡ with_stream self.now.p self.now.s self.now.bytes.now (k + 1) lent }
    {
        let at = k * (self.p.m + self.p.x);
        self.write_word(k, out, at);
        if k != 0 {
            streams::write_bridge(self.p, out, at - self.p.x);
        }
    }

    // Writes the stream of the first n messages to the front of `out`.
    fn write_words(&self, n: usize, out: &mut [u8])
        requires { Fitting self.now.p self.now.s n (length self.now.bytes.now) (length out.old) }
        ensures { out.new ≡ with_stream self.now.p self.now.s self.now.bytes.now n out.old }
    {
        for k in 0..n {
            self.write_next(k, out);
        }
    }
}

// Writes message bits as a bridged stream to the front of `out`, and counts its cells.
#[tactic(auto, using(streams::specs::CallLaws::stream_calls), unfolding(crate::specs::Writing::writing_stream, crate::specs::Writing::write_refusal))]
pub fn write(
    p: Profile,
    table: &[u64],
    bytes: &[u8],
    bits: usize,
    out: &mut [u8],
) -> Result<usize, Refusal>
    ensures value { written_of result ≡ (writing_stream p table.now bytes.now bits out.old).answer }
    ensures out_after { out.new ≡ (writing_stream p table.now bytes.now bits out.old).lent }
{
    messages::check_carrying(p, table)?;
    let messages = Messages {
        p,
        table,
        s: messages::message_length(p, table),
        bytes,
    };
    messages.check_bits(bits, out.len())?;
    let n = bits / messages.s;
    messages.write_words(n, out);
    Ok(stream_length(p, n))
}
