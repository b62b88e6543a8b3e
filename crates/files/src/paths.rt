// Names beside an output: the folder that it lies in, and what stands in that folder while it is written.
ghost use Rattle.std.specs.Prelude.{◌≡◌, ◌≤◌, length, take};

use crate::buffers::Buffer;
use std::fmt::Write;
use std::random::RandomSource;

// Room for the longest name of an output, and the names beside it.
pub type Path = Buffer<4352>;

// Room for a name of the process's own, and for one of a claim.
pub type Name = Buffer<64>;

// The folder that a name lies in, with the slash; nothing where it has none.
pub fn folder(name: &[u8]) -> &[u8]
    ensures short { length result.now ≤ length name.now }
    ensures front { result.now ≡ take (length result.now) name.now }
{
    match name.iter().rposition(|b| *b == b'/') {
        Some(slash) => &name[..slash + 1],
        None => &[],
    }
}

// A name by chance, which hardly another process takes.
pub fn own(rt: &impl RandomSource) -> Name {
    let mut chance = [0u8; 8];
    let _ = rt.fill_bytes(&mut chance);
    let mut name = Name::new();
    let _ = write!(name, ".remi-{}", u64::from_le_bytes(chance));
    name
}

// The name of the claim that no other user's process takes, by the user's number.
pub fn own_claim(user: u32) -> Name {
    let mut name = Name::new();
    let _ = write!(name, ".remi-claim-{user}");
    name
}

// A name within a folder, and one within that where it is not empty.
pub fn within(folder: &[u8], name: &[u8], inner: &[u8]) -> Path {
    let mut path = Path::new();
    path.add(folder);
    path.add(name);
    if !inner.is_empty() {
        path.add(b"/");
        path.add(inner);
    }
    path
}
