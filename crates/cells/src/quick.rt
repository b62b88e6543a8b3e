// Whether there is anything to refuse at all: each loop goes over all the cells and only sets a flag.
ghost use Rattle.std.specs.Prelude.{◌≡◌, false, ◌≤◌, length};
ghost use Rattle.code.specs.Code.{below_top};
ghost use Rattle.replies.specs.ReplyLaws.{Nowhere};
ghost use Rattle.cells.specs.Finding.{pattern_at};
ghost use Rattle.cells.specs.QuickLaws.{reaches_at, tops_at};

// Some cell is at or above a level: false only where none is.
pub fn some_cell(level: u8, cells: &[u8]) -> bool
    ensures { result ≡ false → Nowhere (reaches_at level cells.now) 0 (length cells.now) }
{
    let mut hit = false;
    for cell in cells {
        hit |= level <= *cell;
    }
    hit
}

// Some top has a cell that is no top after it and a top k places on: false only where none has.
fn some_tops(top: u8, k: usize, cells: &[u8]) -> bool
    requires { 2 ≤ k }
    ensures { result ≡ false → Nowhere (tops_at top k cells.now) k (length cells.now) }
{
    let mut hit = false;
    // By places: over windows a word of 100 cells takes twice as many instructions at x = 8.
    for i in k..cells.len() {
        hit |= (cells[i - k] == top) & (cells[i - k + 1] != top) & (cells[i] == top);
    }
    hit
}

// Some forbidden pattern: false only where none is.
pub fn some_pattern(top: u8, x: usize, cells: &[u8]) -> bool
    requires { x ≤ 8 }
    ensures { result ≡ false → Nowhere (pattern_at (below_top top x) cells.now) 0 (length cells.now) }
{
    (2..x + 2).any(|k| some_tops(top, k, cells))
}
