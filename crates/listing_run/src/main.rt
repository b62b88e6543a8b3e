// Runs the listing over a script of inputs, and prints every answer with a digest of the lent text,
// and the text itself where it is short. The script and what must be printed are written by
// tests/listing.py, which shares no code with the crates.
#![tactic(auto)]

use parts::{first, first_mut};
use script::show;

// A text of more bytes is shown by its digest alone.
const SHORT: usize = 200;

// One case: how many bytes are lent, how many of them are shown, and the bytes that are read.
fn case(out: &mut [u8]) {
    let mut text = [0; 16384];
    let mut case = script::next_case(&mut text);
    let room = case.count();
    let shown = case.count();
    let mut bytes = [0; 40];
    let line = case.runs(&mut bytes);
    first_mut(out, shown).fill(show::MARKED_CELL);
    let answer = code_as_text::list(line, first_mut(out, room));
    show::written(answer);
    show::digest(first(out, shown));
    show::end();
    let count = answer.unwrap_or(0);
    if count < SHORT {
        io::write_all(1, first(out, count));
    }
}

fn main() {
    let mut out = [0; code_as_text::MOST_BYTES];
    for _ in 0..script::cases() {
        case(&mut out);
    }
}
