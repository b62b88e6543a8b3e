// Two streams joined, and a stream turned end for end.
#![tactic(auto)]

ghost use Rattle.std.specs.Prelude.{◌≡◌, ◌++◌, ◌+◌, ◌^◌, ◌≤◌, ◌<◌, length, drop};
ghost use Rattle.patterns.specs.Stream.{joined, turned};
ghost use Rattle.replies.specs.Answers.{reply_of, written_of};
ghost use Rattle.replies.specs.Ranges.{InRange};
ghost use Rattle.profiles.specs.Profiles.{patterns_of};
ghost use Rattle.join_streams.specs.Joining.{join_refusal, joining_streams, turn_refusal, turning_stream};

use replies::{Profile, Refusal};

// How many cells two streams have joined: theirs, and those of a bridge where both have cells.
#[tactic(auto, using(crate::specs::JoinedLaws::joined_length))]
fn joined_length(p: Profile, first: &[u8], second: &[u8]) -> usize
    requires { length (joined (patterns_of p) first.now second.now) < 2 ^ 64 }
    ensures value { result ≡ length (joined (patterns_of p) first.now second.now) }
    ensures both { length first.now + length second.now ≤ result }
    ensures bridge { length first.now + length second.now < result → (0 < length first.now) × (0 < length second.now) × (result ≡ length first.now + p.x + length second.now) }
{
    let bridge = if first.is_empty() | second.is_empty() {
        0
    } else {
        p.x
    };
    first.len() + bridge + second.len()
}

// Copies cells over as many. Cell by cell, for with `copy_from_slice` the archive would need memmove from outside.
fn copy(from: &[u8], to: &mut [u8])
    requires { length from.now ≡ length to.old }
    ensures { to.new ≡ from.now }
{
    for i in 0..from.len() {
        to[i] = from[i];
    }
}

// Writes two streams joined to the front of `out`, and says how many cells they have.
fn write_joined(p: Profile, first: &[u8], second: &[u8], out: &mut [u8]) -> usize
    requires { InRange p × (length (joined (patterns_of p) first.now second.now) ≤ length out.old) }
    ensures value { result ≡ length (joined (patterns_of p) first.now second.now) }
    ensures out_after { out.new ≡ joined (patterns_of p) first.now second.now ++ drop (length (joined (patterns_of p) first.now second.now)) out.old }
{
    let at = first.len();
    let count = joined_length(p, first, second);
    let behind = count - second.len();
    copy(first, &mut out[..at]);
    copy(second, &mut out[behind..count]);
    if at < behind {
        streams::write_bridge(p, out, at);
    }
    count
}

// The lowest number that applies to two streams that are to be joined.
#[tactic(auto, using(crate::specs::JoiningLaws::join_calls), unfolding(crate::specs::Joining::join_refusal))]
fn check_join(p: Profile, first: &[u8], second: &[u8], out: &[u8]) -> Result<(), Refusal>
    ensures { reply_of result ≡ join_refusal p first.now second.now out.now }
{
    replies::check_profile(p)?;
    streams::check_both_fit(p, first.len(), second.len())?;
    replies::check_room(joined_length(p, first, second), out.len())?;
    let ahead = streams::check_stream(p, first);
    let behind = streams::check_stream(p, second);
    replies::lowest(ahead, replies::moved_by(first.len(), behind))
}

// Writes two streams joined to the front of `out`, and counts their cells.
#[tactic(auto, using(crate::specs::JoiningLaws::join_calls), unfolding(crate::specs::Joining::joining_streams))]
pub fn join(p: Profile, first: &[u8], second: &[u8], out: &mut [u8]) -> Result<usize, Refusal>
    ensures value { written_of result ≡ (joining_streams p first.now second.now out.old).answer }
    ensures out_after { out.new ≡ (joining_streams p first.now second.now out.old).lent }
{
    check_join(p, first, second, out)?;
    Ok(write_joined(p, first, second, out))
}

// Writes cells, last first, to the front of `out`.
fn write_turned(cells: &[u8], out: &mut [u8])
    requires { length cells.now ≤ length out.old }
    ensures { out.new ≡ turned cells.now ++ drop (length cells.now) out.old }
{
    for (i, cell) in cells.iter().rev().enumerate() {
        out[i] = *cell;
    }
}

// The lowest number that applies to a stream that is to be turned.
#[tactic(auto, using(crate::specs::JoiningLaws::turn_calls), unfolding(crate::specs::Joining::turn_refusal))]
fn check_turn(p: Profile, cells: &[u8], out: &[u8]) -> Result<(), Refusal>
    ensures { reply_of result ≡ turn_refusal p cells.now out.now }
{
    replies::check_profile(p)?;
    streams::check_fit(p, cells.len())?;
    replies::check_room(cells.len(), out.len())?;
    streams::check_stream(p, cells)
}

// Writes a stream turned end for end to the front of `out`, and counts its cells.
#[tactic(auto, using(crate::specs::JoiningLaws::turn_calls), unfolding(crate::specs::Joining::turning_stream))]
pub fn turn(p: Profile, cells: &[u8], out: &mut [u8]) -> Result<usize, Refusal>
    ensures value { written_of result ≡ (turning_stream p cells.now out.old).answer }
    ensures out_after { out.new ≡ (turning_stream p cells.now out.old).lent }
{
    check_turn(p, cells, out)?;
    write_turned(cells, out);
    Ok(cells.len())
}
