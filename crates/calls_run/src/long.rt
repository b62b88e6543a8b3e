// Long streams: drawn messages are written, one cell is changed, and the stream is read, turned and
// joined with itself.
use replies::{Profile, Refusal};
use script::show::MARKED_CELL;
use script::{Case, show};

// What drawn states are below.
const STATES: u64 = 2147483648;

// An answer, and a digest of all that was lent.
fn written(answer: Result<usize, Refusal>, out: &[u8]) {
    show::written(answer);
    show::digest(out);
}

// Bytes drawn from a seed.
fn draw(seed: u64, bytes: &mut [u8]) {
    let mut state = seed;
    for byte in bytes {
        state = (state % STATES * 1103515245 + 12345) % STATES;
        *byte = (state / 65536 % 256) as u8;
    }
}

// What the calls on a stream that is there already answer.
fn stream_given(p: Profile, table: &[u64], cells: &[u8]) {
    let mut back = [MARKED_CELL; 20480];
    written(read_stream::read(p, table, cells, &mut back), &back);
    let mut turned = [MARKED_CELL; 35000];
    written(join_streams::turn(p, cells, &mut turned), &turned);
    let mut joined = [MARKED_CELL; 35000];
    written(join_streams::join(p, cells, cells, &mut joined), &joined);
    show::end();
}

pub fn stream(case: &mut Case) {
    let p = case.profile();
    let mut limbs = [0; 1300];
    let table = case.table(&mut limbs);
    let seed = case.number();
    let n = case.count();
    let bits = case.count();
    let place = case.count();
    let level = case.byte();
    let mut bytes = [0; 20480];
    draw(seed, &mut bytes);
    let mut cells = [MARKED_CELL; 35000];
    let answer = write_stream::write(p, table, parts::first(&bytes, n), bits, &mut cells);
    written(answer, &cells);
    if let Some(cell) = cells.get_mut(place) {
        *cell = level;
    }
    stream_given(p, table, parts::first(&cells, answer.unwrap_or(0)));
}
