// What the test programs share: reading a script of cases, which are numbers, profiles, tables and
// runs of cells, and showing answers. A script is how many cases there are, and then the cases, each
// with its length in bytes before it. In a case only the digits count; what stands between numbers is
// for the reader.
#![tactic(auto)]

use numbers::Index;
use replies::Profile;
use std::array;
use std::slice::Iter;

pub mod show;

// Ten times a number below it has at most 64 bits. No number of a script is longer.
const TENTH: u64 = u64::MAX / 10 + 1;

// The bytes of a case that are not read yet.
#[derive(Drop)]
pub struct Case<'a> {
    bytes: Iter<'a, u8>,
}

// A digit's value.
fn digit(byte: &u8) -> Option<u64> {
    match *byte {
        b'0'..=b'9' => Some(u64::from(*byte - b'0')),
        _ => None,
    }
}

impl<'a> Case<'a> {
    // A case that is already read.
    pub fn new(text: &'a [u8]) -> Case<'a> {
        Case { bytes: text.iter() }
    }

    // The next number, or 0 where there is none.
    pub fn number(&mut self) -> u64 {
        self.bytes
            .by_ref()
            .skip_while(|byte| !byte.is_ascii_digit())
            .map_while(digit)
            .fold(0, |n, d| (n % TENTH * 10).wrapping_add(d))
    }

    // The next number, as a count.
    pub fn count(&mut self) -> usize {
        self.number() as usize
    }

    // The low byte of the next number.
    pub fn byte(&mut self) -> u8 {
        (self.number() % 256) as u8
    }

    // A profile: q, m and x.
    pub fn profile(&mut self) -> Profile {
        let q = self.count();
        let m = self.count();
        let x = self.count();
        Profile { q, m, x }
    }

    // An index: its ten limbs.
    pub fn index(&mut self) -> Index {
        Index(array::from_fn(|_| self.number()))
    }

    // A table: the profile that it is built for, its damage, and how many of its limbs are lent.
    pub fn table<'t>(&mut self, limbs: &'t mut [u64]) -> &'t [u64] {
        let _ = tables::build(self.profile(), limbs);
        self.damage(limbs);
        parts::first(limbs, self.count())
    }

    // Damage to a table: a row, a limb of it, and what is added to that limb.
    fn damage(&mut self, table: &mut [u64]) {
        let row = self.count().min(200);
        let limb = self.count().min(9);
        let added = self.number();
        if let Some(limb) = table.get_mut(row * 10 + limb) {
            *limb = limb.wrapping_add(added);
        }
    }

    // Cells in runs: how many runs, and then for each its level and how many cells, as far as there is
    // room. Runs that are not there have no cells, however many are claimed.
    pub fn runs<'c>(&mut self, cells: &'c mut [u8]) -> &'c [u8] {
        let mut filled = 0;
        for _ in 0..self.number() {
            if self.bytes.as_slice().is_empty() {
                break;
            }
            let level = self.byte();
            let end = filled + self.count().min(cells.len() - filled);
            cells[filled..end].fill(level);
            filled = end;
        }
        &cells[..filled]
    }
}

// A number of the script that stands alone in eight bytes.
fn alone() -> usize {
    let mut bytes = [0; 8];
    io::read_full(0, &mut bytes);
    Case::new(&bytes).count()
}

// How many cases the script has. It is read first.
pub fn cases() -> usize {
    alone()
}

// The next case of the script, read into a buffer of zeros.
pub fn next_case(text: &mut [u8]) -> Case<'_> {
    io::read_full(0, parts::first_mut(text, alone()));
    Case::new(text)
}
