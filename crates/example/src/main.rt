// The library called from Rattle: two messages are written as a stream of cells and read back; then a
// cell is damaged, and the stream is refused.
#![tactic(auto)]

use replies::{Profile, Refusal};
use script::show;

// Prints number and place of a refusal, or 0 and 0, the count of an answer, and what was lent to be
// written.
fn answered(answer: Result<usize, Refusal>, lent: &[u8]) {
    let (number, place, count) = match answer {
        Ok(count) => (0, 0, count),
        Err(refusal) => (refusal.why.number(), refusal.place, 0),
    };
    show::number(u64::from(number));
    show::count(place);
    show::count(count);
    show::numbers(lent);
    show::end();
}

fn run() -> Result<(), Refusal> {
    let p = Profile { q: 4, m: 5, x: 1 };
    let mut table = [0; 60];
    tables::build(p, &mut table)?;

    // The messages 107 and 415, of 9 bits each, high bit first: 001101011 110011111.
    let messages = [0x35, 0xe7, 0xc0];
    let mut cells = [0; 11];
    let written = write_stream::write(p, &table, &messages, 18, &mut cells)?;
    answered(Ok(written), &cells);

    let mut bytes = [0; 3];
    let read = read_stream::read(p, &table, &cells, &mut bytes)?;
    answered(Ok(read), &bytes);

    cells[9] = 3;
    let refused = read_stream::read(p, &table, &cells, &mut bytes);
    answered(refused, &bytes);
    Ok(())
}

fn main() {
    if let Err(refusal) = run() {
        answered(Err(refusal), &[]);
    }
}
