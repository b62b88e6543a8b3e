// Runs each function of `limbs` on limbs that are drawn from a seed, and prints every answer with the
// whole of the lent slice behind it. What it must print is written by tests/limbs.py, which shares no
// code with it.
#![tactic(auto)]

ghost use Rattle.std.specs.Prelude.{◌≤◌};

use std::cmp::Ordering;

// The next number of the draw, below 2^31.
fn draw(state: u64) -> u64 {
    (state % 2147483647) * 48271 % 2147483647
}

// A limb made of three draws that begin at `state`: one in four is 0, one in four has every bit set.
fn limb(state: u64) -> u64 {
    let a = draw(state);
    let b = draw(a);
    let c = draw(b);
    match c % 4 {
        0 => 0,
        1 => u64::MAX,
        low => ((a % (1 << 31)) << 33) + ((b % (1 << 31)) << 2) + low,
    }
}

// Fills the limbs from the draw.
fn fill(limbs: &mut [u64], state: u64) {
    let mut s = state;
    for l in limbs.iter_mut() {
        s = draw(s);
        *l = limb(s);
    }
}

// Prints an answer and the limbs behind it.
fn show(answer: u64, limbs: &[u64]) {
    io::print_hex(1, answer, 1);
    for l in limbs {
        io::write_all(1, b" ");
        io::print_hex(1, *l, 1);
    }
    io::write_all(1, b"\n");
}

// What the functions are tried on: the first n of twelve limbs, a row of n limbs that begins at `at` in
// fourteen, and a factor.
#[derive(Clone, Copy)]
struct Case {
    acc: [u64; 12],
    n: usize,
    rows: [u64; 14],
    at: usize,
    k: u64,
    ghost within: { (n ≤ 10) × (at ≤ 4) },
}

impl Case {
    // The case that is drawn from `state`.
    fn drawn(state: u64, n: usize, at: usize) -> Case
        requires { (n ≤ 10) × (at ≤ 4) }
    {
        let k = limb(state);
        let mut rows = [0; 14];
        fill(&mut rows, draw(k));
        let mut acc = [0; 12];
        fill(&mut acc, state);
        Case {
            acc,
            n,
            rows,
            at,
            k,
        }
    }

    fn sum(self) {
        let mut acc = self.acc;
        let carry = limbs::add(&mut acc, self.n, &self.rows, self.at);
        show(carry, &acc);
    }

    fn difference(self) {
        let mut acc = self.acc;
        let borrow = limbs::subtract(&mut acc, self.n, &self.rows, self.at);
        show(borrow, &acc);
    }

    fn product(self) {
        let mut acc = self.acc;
        let carry = limbs::times(&mut acc, self.n, self.k);
        show(carry, &acc);
    }

    fn multiple_added(self) {
        let mut acc = self.acc;
        let carry = limbs::add_multiple(&mut acc, self.n, &self.rows, self.at, self.k);
        show(carry, &acc);
    }

    // The row is k times in the n + 1 limbs that it is taken from, and goes k / 2 times.
    fn multiple_taken(self) {
        let mut acc = self.acc;
        let mut row = [0; 12];
        limbs::add(&mut row, self.n, &self.rows, self.at);
        let carry = limbs::add_multiple(&mut acc, self.n, &row, 0, self.k);
        acc[self.n] = carry;
        limbs::subtract_multiple(&mut acc, self.n + 1, &row, 0, self.k / 2);
        show(self.k / 2, &acc);
    }

    fn order(self) {
        let number = match limbs::compare(&self.acc, self.n, &self.rows, self.at) {
            Ordering::Less => 0,
            Ordering::Equal => 1,
            Ordering::Greater => 2,
        };
        show(number, &self.acc);
    }

    fn used(self) {
        show(
            limbs::limbs_used(&self.rows, self.at, self.n) as u64,
            &self.rows,
        );
    }
}

// Every function once on each of 110 cases.
fn main() {
    for i in 0..110 {
        let case = Case::drawn(i as u64 + 1, i % 11, i / 11 % 5);
        case.sum();
        case.difference();
        case.product();
        case.multiple_added();
        case.multiple_taken();
        case.order();
        case.used();
    }
}
