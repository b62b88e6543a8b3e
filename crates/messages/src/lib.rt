// What every call on messages stands on: the message length of a profile, number 4, and the tests that
// come before all others.
#![tactic(auto)]

ghost use Rattle.std.specs.Prelude.{◌≡◌, ◌≤◌, ◌<◌, length};
ghost use Rattle.limbs.specs.Limbs.{number_at};
ghost use Rattle.replies.specs.Answers.{reply_of};
ghost use Rattle.replies.specs.Ranges.{InRange};
ghost use Rattle.code.specs.Messages.{Largest};
ghost use Rattle.profiles.specs.Profiles.{length_of};
ghost use Rattle.messages.specs.Carrying.{message_refusal, carrying_refusal, CarriesMessages};

use replies::{Profile, Refusal, Why};

// The words kept out, as ten limbs.
const KEPT_OUT: [u64; 10] = [2, 0, 0, 0, 0, 0, 0, 0, 0, 0];

// Number 4: a profile that has no words that carry messages.
#[tactic(auto, using(crate::specs::LengthLaws::number_four))]
pub fn check_message(p: Profile) -> Result<(), Refusal>
    requires { InRange p }
    ensures { reply_of result ≡ message_refusal p }
{
    replies::refuse_if((p.m == 1) & (p.q <= 3), Why::NoMessage)
}

// The place of the highest bit of a number of ten limbs that is not 0: the largest s with 2^s at
// most the number.
#[tactic(auto, using(crate::specs::HighestBit::top_limb))]
fn highest_bit(number: &[u64]) -> usize
    requires { (10 ≤ length number.now) × (0 < number_at 10 number.now 0) }
    ensures { Largest (number_at 10 number.now 0) result }
{
    let top = limbs::limbs_used(number, 0, 10) - 1;
    64 * top + number[top].ilog2() as usize
}

// The message length s of a profile that has words that carry messages, from its table.
pub fn message_length(p: Profile, table: &[u64]) -> usize
    requires { CarriesMessages p table.now }
    ensures { result ≡ length_of p }
{
    let mut rest = [0; 10];
    limbs::add(&mut rest, 10, table, 10 * p.m);
    limbs::subtract(&mut rest, 10, &KEPT_OUT, 0);
    highest_bit(&rest)
}

// What every call on messages tests first: the profile, its message length, the table.
#[tactic(auto, using(tables::specs::WritingLaws::table_calls), unfolding(crate::specs::Carrying::carrying_refusal))]
pub fn check_carrying(p: Profile, table: &[u64]) -> Result<(), Refusal>
    ensures { reply_of result ≡ carrying_refusal p table.now }
{
    replies::check_profile(p)?;
    check_message(p)?;
    tables::check_table(p, table)
}
