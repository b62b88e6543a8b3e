// The first place that is to be refused, sought place by place.
ghost use Rattle.std.specs.Prelude.{◌≡◌, leb, length, position};
ghost use Rattle.code.specs.Code.{below_top};
ghost use Rattle.replies.specs.Answers.{reply_of};
ghost use Rattle.cells.specs.Finding.{cell_refusal, pattern_at, pattern_refusal};
ghost use Rattle.cells.specs.FirstLaws.{FirstAt};

use replies::{Refusal, Why};

// The place of the first cell at or above a level.
fn first_reaching(level: u8, cells: &[u8]) -> Option<usize>
    ensures { result ≡ position (leb level) cells.now }
{
    cells.iter().position(|cell| level <= *cell)
}

// The first cell at or above q.
#[tactic(auto, using(crate::specs::CellLaws::cell_found, crate::specs::CellLaws::no_cell_found))]
pub fn first_cell(q: u8, cells: &[u8]) -> Result<(), Refusal>
    ensures { reply_of result ≡ cell_refusal q cells.now }
{
    match first_reaching(q, cells) {
        Some(place) => Err(Why::Cell.at(place)),
        None => Ok(()),
    }
}

// A run of cells begins with a forbidden pattern: with a top, and the first cell behind it that is not below top, sought
// no further than a pattern reaches, is a top too, with 1 to x cells between them.
#[tactic(auto, using(crate::specs::ScanLaws::no_cell_begins, crate::specs::ScanLaws::begins_with_top, crate::specs::ScanLaws::none_near, crate::specs::ScanLaws::first_near))]
fn begins(top: u8, x: usize, run: &[u8]) -> bool
    ensures { result ≡ pattern_at (below_top top x) run.now 0 }
{
    let Some((first, behind)) = run.split_first() else {
        return false;
    };
    if *first != top {
        return false;
    }
    let near = &behind[..behind.len().min(x.saturating_add(1))];
    match first_reaching(top, near) {
        Some(low) => (0 < low) & (low <= x) & (near[low] == top),
        None => false,
    }
}

// The place of the first forbidden pattern: that of its first top.
fn first_begun(top: u8, x: usize, cells: &[u8]) -> Option<usize>
    ensures { FirstAt (pattern_at (below_top top x) cells.now) (length cells.now) result }
{
    (0..cells.len()).find(|place| begins(top, x, &cells[*place..]))
}

// The first forbidden pattern, by its first top.
#[tactic(auto, using(crate::specs::CellLaws::first_pattern_refused, crate::specs::CellLaws::no_pattern_refused))]
pub fn first_pattern(top: u8, x: usize, cells: &[u8]) -> Result<(), Refusal>
    ensures { reply_of result ≡ pattern_refusal (below_top top x) cells.now }
{
    match first_begun(top, x, cells) {
        Some(place) => Err(Why::Pattern.at(place)),
        None => Ok(()),
    }
}
