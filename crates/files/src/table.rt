// Tables of counts as files: eight bytes a limb, the low byte first.
ghost use Rattle.std.specs.Prelude.{◌≤◌, length, IfOk};

use crate::{Loaded, Trouble};
use std::io::Input;
use std::rt::Files;

// The limbs of the largest table, rows N(0) to N(128), and their bytes.
pub const LIMBS: usize = 1290;

pub const BYTES: usize = 10320;

// Reads the table in a file to the front of `limbs`. What follows the rows of the largest table is ignored.
pub fn load<'a>(
    rt: &(impl Files + Input),
    name: &[u8],
    limbs: &'a mut [u64],
) -> Result<Loaded<'a, u64>, Trouble>
    ensures { IfOk result (λ loaded. length loaded.items.now ≤ length limbs.old) }
{
    let mut bytes = [0u8; BYTES];
    let loaded = crate::load(rt, name, &mut bytes)?;
    let (read, _) = loaded.items.as_chunks();
    for (limb, bytes) in limbs.iter_mut().zip(read) {
        *limb = u64::from_le_bytes(*bytes);
    }
    let count = read.len().min(limbs.len());
    Ok(Loaded {
        items: &limbs[..count],
        facts: loaded.facts,
    })
}

// Puts limbs as the bytes of a file, as far as both go.
pub fn spell(limbs: &[u64], bytes: &mut [u8]) {
    let spelt = limbs.iter().flat_map(|limb| limb.to_le_bytes());
    for (to, byte) in bytes.iter_mut().zip(spelt) {
        *to = byte;
    }
}
