// The tests of cells: a cell at or above q, a forbidden pattern; and the pattern finder.
#![tactic(auto)]

ghost use Rattle.std.specs.Prelude.{◌≡◌};
ghost use Rattle.code.specs.Code.{published};
ghost use Rattle.replies.specs.Answers.{reply_of};
ghost use Rattle.replies.specs.Ranges.{Between};
ghost use Rattle.cells.specs.Finding.{cell_refusal, pattern_refusal, cells_refusal, finding};

use replies::{Refusal, Why};

mod quick;
mod scan;

// Number 10: the first cell at or above q.
#[tactic(auto, using(crate::specs::CellLaws::no_cell_refused))]
pub fn check_cell(q: usize, cells: &[u8]) -> Result<(), Refusal>
    requires { Between 2 32 q }
    ensures { reply_of result ≡ cell_refusal q cells.now }
{
    let level = q as u8;
    if quick::some_cell(level, cells) {
        return scan::first_cell(level, cells);
    }
    Ok(())
}

// Number 11: the first forbidden pattern, by its first top.
#[tactic(auto, using(crate::specs::CellLaws::no_pattern_refused))]
pub fn check_pattern(q: usize, x: usize, cells: &[u8]) -> Result<(), Refusal>
    requires { Between 2 32 q × Between 1 8 x }
    ensures { reply_of result ≡ pattern_refusal (published q x) cells.now }
{
    let top = (q - 1) as u8;
    if quick::some_pattern(top, x, cells) {
        return scan::first_pattern(top, x, cells);
    }
    Ok(())
}

// 10, then 11.
#[tactic(auto, using(replies::specs::AnswerLaws::refusal_decides, replies::specs::AnswerLaws::passed_leaves), unfolding(crate::specs::Finding::cells_refusal))]
pub fn check_cells(q: usize, x: usize, cells: &[u8]) -> Result<(), Refusal>
    requires { Between 2 32 q × Between 1 8 x }
    ensures { reply_of result ≡ cells_refusal q (published q x) cells.now }
{
    check_cell(q, cells)?;
    check_pattern(q, x, cells)
}

// The pattern finder: the first forbidden pattern in a run of up to 65,536 cells is refused with 11
// at its first top; done says that there is none.
#[tactic(auto, using(replies::specs::AnswerLaws::refusal_decides, replies::specs::AnswerLaws::passed_leaves), unfolding(crate::specs::Finding::finding))]
pub fn find(q: usize, x: usize, cells: &[u8]) -> Result<(), Refusal>
    ensures { reply_of result ≡ finding q x cells.now }
{
    replies::check_levels(q)?;
    replies::check_reach(x)?;
    replies::refuse_if(replies::MOST_CELLS < cells.len(), Why::InputLength)?;
    check_cells(q, x, cells)
}
