// Pieces: a few bits, as many as lie in one byte, taken out of a number, put behind a number, and put
// into a byte.
ghost use Rattle.std.specs.Prelude.{◌≡◌, min, ◌+◌, ◌-◌, ◌*◌, ◌/◌, ◌%◌, ◌^◌, ◌≤◌, ◌<◌};

// How many of k bits from bit place `at` on lie in a byte begun before it.
pub fn begun(at: usize, k: usize) -> usize
    ensures { result ≡ min ((8 - at % 8) % 8) k }
{
    ((8 - at % 8) % 8).min(k)
}

// c bits of a number, above its `below` lowest ones.
pub fn out_of(number: u64, below: usize, c: usize) -> u64
    requires { (below < 64) × (c < 64) }
    ensures { result ≡ number / 2 ^ below % 2 ^ c }
{
    (number >> below) % (1 << c)
}

// A piece of c bits behind a number.
pub fn behind(number: u64, c: usize, piece: u64) -> u64
    requires { (c < 64) × (number * 2 ^ c + piece < 2 ^ 64) }
    ensures { result ≡ number * 2 ^ c + piece }
{
    (number << c) + piece
}

// A byte whose last `room` bits are a piece of c bits, and then zeros.
pub fn into_byte(byte: u8, room: usize, c: usize, piece: u64) -> u8
    requires { (c ≤ room) × (room ≤ 8) × (piece < 2 ^ c) }
    ensures { result ≡ (byte / 2 ^ room * 2 ^ c + piece) * 2 ^ (room - c) }
{
    let kept = behind(u64::from(byte) >> room, c, piece);
    behind(kept, room - c, 0) as u8
}
