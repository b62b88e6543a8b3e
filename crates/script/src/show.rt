// Showing answers: numbers in decimal with a blank before each, and a line's end.
use replies::{Reply, Written};

// What a limb and a cell are before a call, so that it is seen where one was written.
pub const MARKED_LIMB: u64 = 1000003;

pub const MARKED_CELL: u8 = 200;

// What digests are below.
const PRIME: u64 = 4294967291;

// A number.
pub fn number(n: u64) {
    io::write_all(1, b" ");
    io::print_decimal(1, n);
}

// A count or a place.
pub fn count(n: usize) {
    number(n as u64);
}

// Every limb or cell.
pub fn numbers<T: Copy + Into<u64>>(items: &[T]) {
    for item in items {
        number((*item).into());
    }
}

// What a digest becomes with 32 bits more.
fn mixed(sum: u64, bits: u64) -> u64 {
    (sum % PRIME * 65599 + bits % (1 << 32)) % PRIME
}

// One number for all limbs or cells, in their order.
pub fn digest<T: Copy + Into<u64>>(items: &[T]) {
    let sum = items.iter().fold(0, |sum, item| {
        let n = (*item).into();
        mixed(mixed(sum, n), n >> 32)
    });
    number(sum);
}

// The number and the place of a reply, or of what a call answers.
pub fn reply<R: Into<Reply>>(answer: R) {
    let reply = answer.into();
    number(u64::from(reply.number));
    count(reply.place);
}

// What a call that writes answers: the reply, and how much it wrote.
pub fn written<W: Into<Written>>(answer: W) {
    let written = answer.into();
    reply(written.reply);
    count(written.count);
}

// The end of a line.
pub fn end() {
    io::write_all(1, b"\n");
}
