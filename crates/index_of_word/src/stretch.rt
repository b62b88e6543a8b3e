// The walkers of a word: an open stretch hands over to a guarded one at each top, and a guarded one
// becomes open behind its cells. Each counts how often its cells take a row: `counts[r]` goes with
// row r.
ghost use Rattle.std.specs.Prelude.{◌≡◌, suc, ◌*◌, ◌≤◌, length, drop};
ghost use Rattle.index_of_word.specs.IndexBehind.{digits, guarded_row, guarded_factor};
ghost use Rattle.index_of_word.specs.Levels.{GuardedRun};
ghost use Rattle.index_of_word.specs.Counts.{Countable, Addable, RowsCounted, with_more};

// The levels of guarded cells, as one number.
fn levels(top: u64, cells: &[u8]) -> u64
    requires { GuardedRun top (length cells.now) 0 cells.now }
    ensures { result ≡ digits top 0 cells.now }
{
    let mut number = 0;
    for level in cells {
        number = number * top + *level as u64;
    }
    number
}

// Counts the row of guarded cells that stand for `number`, behind a top with `left` cells behind it:
// all of them use the same row.
fn add_guarded(top: u64, x: usize, left: usize, number: u64, counts: &mut [u64])
    requires { Addable top x left number counts.old }
    ensures { counts.new ≡ with_more (guarded_row x left) (number * guarded_factor top x left) counts.old }
{
    if x < left {
        counts[left - x - 1] += number * top;
    } else {
        counts[0] += number;
    }
}

// Counts the rows of the cells from `at` on where the stretch is open: cell by cell, up to the next
// top, which hands over to a guarded stretch. The walkers go by places in the whole word: where each is
// lent the slice that is left, the rows of a word of 14 cells take 1.1 times as long to count.
#[cycle(guarded_stretch_open_stretch)]
pub fn open_stretch(top: u64, x: usize, cells: &[u8], at: usize, counts: &mut [u64])
    requires { (at ≤ length cells.now) × Countable top x 0 (drop at cells.now) counts.old }
    ensures { RowsCounted top x 0 (drop at cells.now) counts.old counts.new }
{
    for i in at..cells.len() {
        let level = cells[i] as u64;
        counts[cells.len() - i - 1] += level;
        if level == top {
            guarded_stretch(top, x, cells, i + 1, counts);
            return;
        }
    }
}

// Counts the rows of the cells from `at` on just behind a top. Another top begins a guarded stretch of
// its own; otherwise the guarded cells count as one number, and the stretch is open behind them.
#[cycle(guarded_stretch_open_stretch)]
fn guarded_stretch(top: u64, x: usize, cells: &[u8], at: usize, counts: &mut [u64])
    requires { (at ≤ length cells.now) × Countable top x (suc x) (drop at cells.now) counts.old }
    ensures { RowsCounted top x (suc x) (drop at cells.now) counts.old counts.new }
{
    let left = cells.len() - at;
    if left == 0 {
        return;
    }
    let k = x.min(left);
    if cells[at] as u64 == top {
        let whole = tables::weights::power(top, k);
        add_guarded(top, x, left, whole, counts);
        guarded_stretch(top, x, cells, at + 1, counts);
    } else {
        let number = levels(top, &cells[at..at + k]);
        add_guarded(top, x, left, number, counts);
        open_stretch(top, x, cells, at + k, counts);
    }
}
