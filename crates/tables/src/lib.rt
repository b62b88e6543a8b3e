// Tables of counts: built, shipped, and checked against a profile.
#![tactic(auto)]

ghost use Rattle.std.specs.Prelude.{◌≡◌, ◌+◌, ◌*◌, ◌≤◌, length};
ghost use Rattle.limbs.specs.Limbs.{value};
ghost use Rattle.replies.specs.Answers.{reply_of, written_of};
ghost use Rattle.replies.specs.Ranges.{InRange};
ghost use Rattle.tables.specs.Tables.{table_length, table_refusal, row_refusal, building, handing_out};

use counting::Count;
use replies::{Profile, Refusal, Why};

mod counting;
mod rows;
mod shipped_rows;
pub mod weights;

// Number 6 where row i of a table is not a number of ten limbs.
fn check_row(i: usize, number: &[u64], table: &[u64]) -> Result<(), Refusal>
    requires { (length number.now ≡ 10) × (table_length i ≤ length table.now) }
    ensures { reply_of result ≡ row_refusal i (value number.now) table.now }
{
    // Limb by limb: with `!=` of the two slices a check of a table takes 1.2 to 1.4 times as long.
    for k in 0..10 {
        if number[k] != table[10 * i + k] {
            return Err(Why::TableWrong.at(i));
        }
    }
    Ok(())
}

// Numbers 5 and 6: a table that is too short, or that does not belong to the profile, at its first
// wrong row.
#[tactic(auto, using(crate::specs::CheckLaws::table_checks), unfolding(crate::specs::Tables::table_refusal))]
pub fn check_table(p: Profile, table: &[u64]) -> Result<(), Refusal>
    requires { InRange p }
    ensures { reply_of result ≡ table_refusal p table.now }
{
    replies::refuse_if(table.len() < 10 * (p.m + 1), Why::TableShort)?;
    let mut count = Count::first(p);
    check_row(0, &count.row, table)?;
    for i in 1..p.m + 1 {
        count.step(p, table);
        check_row(i, &count.row, table)?;
    }
    Ok(())
}

// Builds the table of a profile.
#[tactic(auto, using(crate::specs::WritingLaws::table_calls), unfolding(crate::specs::Tables::building))]
pub fn build(p: Profile, out: &mut [u64]) -> Result<usize, Refusal>
    ensures value { written_of result ≡ (building p out.old).answer }
    ensures out_after { out.new ≡ (building p out.old).lent }
{
    replies::check_profile(p)?;
    replies::check_room(10 * (p.m + 1), out.len())?;
    rows::build(p, out);
    Ok(10 * (p.m + 1))
}

// Hands out the shipped table, of q = 4 and x = 1.
#[tactic(auto, using(crate::specs::WritingLaws::table_calls), unfolding(crate::specs::Tables::handing_out))]
pub fn shipped(m: usize, out: &mut [u64]) -> Result<usize, Refusal>
    ensures value { written_of result ≡ (handing_out m out.old).answer }
    ensures out_after { out.new ≡ (handing_out m out.old).lent }
{
    replies::check_length(m)?;
    replies::check_room(10 * (m + 1), out.len())?;
    shipped_rows::copy(m, out);
    Ok(10 * (m + 1))
}
