// The word of an index: the one legal word with that many before it. The leftmost level is settled
// first, and the rest is a shorter task of the same kind.
#![tactic(auto)]

ghost use Rattle.std.specs.Prelude.{◌≡◌, ◌++◌, ◌+◌, ◌-◌, ◌≤◌, ◌<◌, leb, length, take, drop};
ghost use Rattle.limbs.specs.Limbs.{value, number_at, holding};
ghost use Rattle.patterns.specs.Walk.{guard_after};
ghost use Rattle.replies.specs.Answers.{reply_of, written_of};
ghost use Rattle.replies.specs.Ranges.{InRange};
ghost use Rattle.profiles.specs.Profiles.{patterns_of, word_count, word_for};
ghost use Rattle.tables.specs.Tables.{Belongs};
ghost use Rattle.word_of_index.specs.Spelling.{index_refusal, spelling};
ghost use Rattle.word_of_index.specs.Tasks.{word_behind, weight_behind, low_cells, level_of, left_by, Task, SmallTask};

use numbers::Index;
use replies::{Profile, Refusal, Why};

// How many of the i cells on the right of a cell below top have to be below top as well.
fn low_cells(guard: usize, i: usize) -> usize
    requires { 1 ≤ guard }
    ensures { result ≡ low_cells guard i }
{
    i.min(guard - 1)
}

// Settles the leftmost of `left` cells in a guarded stretch, where its weight is an earlier row times
// a power.
fn settle_guarded(
    p: Profile,
    table: &[u64],
    rest: &mut [u64],
    n: usize,
    guard: usize,
    left: usize,
) -> u64
    requires { Task p guard left table.now n rest.old × (0 < left) × (1 ≤ guard) }
    ensures value { result ≡ level_of p guard left (number_at n rest.old 0) }
    ensures rest_after { rest.new ≡ holding n (left_by p guard left (number_at n rest.old 0)) rest.old }
{
    let top = (p.q - 1) as u64;
    let k = low_cells(guard, left - 1);
    let mut weight = [0u64; 10];
    limbs::add_multiple(
        &mut weight,
        n,
        table,
        10 * (left - 1 - k),
        tables::weights::power(top, k),
    );
    division::divide(rest, n, &weight, 0, top)
}

// Settles the leftmost of `left` cells: its level is how often its weight goes into the index in the
// first n limbs of `rest`, which keeps what is left of the index.
fn settle_level(
    p: Profile,
    table: &[u64],
    rest: &mut [u64],
    n: usize,
    guard: usize,
    left: usize,
) -> u64
    requires { Task p guard left table.now n rest.old × (0 < left) }
    ensures value { result ≡ level_of p guard left (number_at n rest.old 0) }
    ensures rest_after { rest.new ≡ holding n (left_by p guard left (number_at n rest.old 0)) rest.old }
{
    if 1 < guard {
        return settle_guarded(p, table, rest, n, guard, left);
    }
    division::divide(rest, n, table, 10 * (left - 1), (p.q - 1) as u64)
}

// The guard behind a settled level: whole behind a top, else one less.
fn guard_behind(p: Profile, guard: usize, level: u64) -> usize
    requires { (2 ≤ p.q) × (p.x ≤ 8) × (level ≤ p.q - 1) }
    ensures { result ≡ guard_after (patterns_of p) guard level }
{
    if level == (p.q - 1) as u64 {
        return p.x + 1;
    }
    guard.saturating_sub(1)
}

// The weight of the leftmost of `left` cells, where the counts fit one limb.
fn small_weight(p: Profile, table: &[u64], guard: usize, left: usize) -> u64
    requires { SmallTask p guard left table.now 0 × (0 < left) }
    ensures { result ≡ weight_behind p guard (left - 1) }
{
    if 1 < guard {
        let k = low_cells(guard, left - 1);
        return table[10 * (left - 1 - k)] * tables::weights::power((p.q - 1) as u64, k);
    }
    table[10 * (left - 1)]
}

// Writes the last `left` cells of a word to `out` from `at` on, where the counts fit one limb: the
// leftmost level is settled, and what is left of the index `rest` is that of the shorter task behind it.
fn settle_small(
    p: Profile,
    table: &[u64],
    rest: u64,
    out: &mut [u8],
    at: usize,
    guard: usize,
    left: usize,
)
    requires { SmallTask p guard left table.now rest × (at + left ≤ length out.old) }
    ensures { out.new ≡ take at out.old ++ (word_behind p guard left rest ++ drop (at + left) out.old) }
{
    if left == 0 {
        return;
    }
    let weight = small_weight(p, table, guard, left);
    let level = division::goes_in(rest, weight, (p.q - 1) as u64);
    out[at] = level as u8;
    let behind = guard_behind(p, guard, level);
    settle_small(
        p,
        table,
        rest - level * weight,
        out,
        at + 1,
        behind,
        left - 1,
    );
}

// Writes the last `left` cells of a word to `out` from `at` on: the leftmost level is settled, and the
// rest is the shorter task behind it.
fn settle_cells(
    p: Profile,
    table: &[u64],
    rest: &mut [u64],
    n: usize,
    out: &mut [u8],
    at: usize,
    guard: usize,
    left: usize,
)
    requires { Task p guard left table.now n rest.old × (at + left ≤ length out.old) }
    ensures { out.new ≡ take at out.old ++ (word_behind p guard left (number_at n rest.old 0) ++ drop (at + left) out.old) }
{
    if left == 0 {
        return;
    }
    let used = limbs::limbs_used(table, 10 * left, n);
    if used <= 1 {
        settle_small(p, table, rest[0], out, at, guard, left);
        return;
    }
    let level = settle_level(p, table, rest, used, guard, left);
    out[at] = level as u8;
    settle_cells(
        p,
        table,
        rest,
        used,
        out,
        at + 1,
        guard_behind(p, guard, level),
        left - 1,
    );
}

// Writes the word of the index in the first ten limbs of `rest` to the m cells of `out` from `at` on.
// `rest` is used up.
pub fn spell(p: Profile, table: &[u64], rest: &mut [u64], out: &mut [u8], at: usize)
    requires { InRange p × Belongs p p.m table.now × (10 ≤ length rest.old) × (at + p.m ≤ length out.old) × (number_at 10 rest.old 0 < word_count p) }
    ensures { out.new ≡ take at out.old ++ (word_for p (number_at 10 rest.old 0) ++ drop (at + p.m) out.old) }
{
    settle_cells(p, table, rest, 10, out, at, 0, p.m);
}

// The index is at or above N(m), which is row m of the table.
fn index_above(p: Profile, table: &[u64], index: &[u64]) -> bool
    requires { Belongs p p.m table.now × (length index.now ≡ 10) }
    ensures { result ≡ leb (word_count p) (value index.now) }
{
    limbs::compare(index, 10, table, 10 * p.m).is_ge()
}

// The lowest number that applies to what is handed in.
#[tactic(auto, using(crate::specs::SpellingLaws::index_calls), unfolding(crate::specs::Spelling::index_refusal))]
fn check_index(p: Profile, table: &[u64], i: Index, out: &[u8]) -> Result<(), Refusal>
    ensures { reply_of result ≡ index_refusal p table.now i out.now }
{
    replies::check_profile(p)?;
    tables::check_table(p, table)?;
    replies::check_room(p.m, out.len())?;
    let index = i.0;
    replies::refuse_if(index_above(p, table, &index), Why::NoSuch)
}

// Writes the m cells of the word of an index to the front of `out`.
#[tactic(auto, using(tables::specs::WritingLaws::refused_answer, tables::specs::WritingLaws::refused_lent), unfolding(crate::specs::Spelling::spelling))]
pub fn word(p: Profile, table: &[u64], i: Index, out: &mut [u8]) -> Result<usize, Refusal>
    ensures value { written_of result ≡ (spelling p table.now i out.old).answer }
    ensures out_after { out.new ≡ (spelling p table.now i out.old).lent }
{
    check_index(p, table, i, out)?;
    let mut rest = i.0;
    spell(p, table, &mut rest, out, 0);
    Ok(p.m)
}
