// Bits moved between bytes, where the high bit comes first and nothing stands between messages, and
// limbs.
#![tactic(auto)]

ghost use Rattle.std.specs.Prelude.{◌≡◌, ◌+◌, ◌-◌, ◌*◌, ◌/◌, ◌%◌, ◌^◌, ◌≤◌, ◌<◌, length, take, drop};
ghost use Rattle.limbs.specs.Limbs.{number_at, holding};
ghost use Rattle.bits.specs.Bits.{bits_of, number_of, bits_of_bytes, with_bits};

mod piece;

// The number of c bits of `bytes` from bit place `at` on, which lie in one byte.
fn gather_piece(bytes: &[u8], at: usize, c: usize) -> u64
    requires { (at % 8 + c ≤ 8) × (at + c ≤ 8 * length bytes.now) }
    ensures { result ≡ number_of (take c (drop at (bits_of_bytes bytes.now))) }
{
    if c == 0 {
        return 0;
    }
    piece::out_of(u64::from(bytes[at / 8]), 8 - at % 8 - c, c)
}

// The number of n whole bytes of `bytes` from place `first` on, behind the number `front`.
fn gather_bytes(front: u64, bytes: &[u8], first: usize, n: usize) -> u64
    requires { (first + n ≤ length bytes.now) × (n ≤ 8) × (front < 2 ^ (64 - 8 * n)) }
    ensures { result ≡ front * 2 ^ (8 * n) + number_of (take (8 * n) (drop (8 * first) (bits_of_bytes bytes.now))) }
{
    let mut number = front;
    for byte in &bytes[first..first + n] {
        number = number * 256 + u64::from(*byte);
    }
    number
}

// The number of the k bits of `bytes` from bit place `at` on: those to the end of a byte begun, whole
// bytes, and those left.
fn gather(bytes: &[u8], at: usize, k: usize) -> u64
    requires { (at + k ≤ 8 * length bytes.now) × (at + k < 2 ^ 32) × (k ≤ 64) }
    ensures { result ≡ number_of (take k (drop at (bits_of_bytes bytes.now))) }
{
    if k == 0 {
        return 0;
    }
    let begun = piece::begun(at, k);
    let n = (k - begun) / 8;
    let left = (k - begun) % 8;
    let front = gather_piece(bytes, at, begun);
    let number = gather_bytes(front, bytes, (at + begun) / 8, n);
    piece::behind(number, left, gather_piece(bytes, at + k - left, left))
}

// The number of the s bits of `bytes` from bit place `at` on, in the first ten limbs of `out`.
pub fn number_at(bytes: &[u8], at: usize, s: usize, out: &mut [u64])
    requires { (at + s ≤ 8 * length bytes.now) × (at + s < 2 ^ 32) × (s ≤ 640) × (10 ≤ length out.old) }
    ensures { out.new ≡ holding 10 (number_of (take s (drop at (bits_of_bytes bytes.now)))) out.old }
{
    let mut left = s;
    for limb in out[..10].iter_mut() {
        let k = left.min(64);
        left -= k;
        *limb = gather(bytes, at + left, k);
    }
}

// Writes c bits of a limb, above its `below` lowest ones, to `out` from bit place `at` on, where they
// lie in one byte, with zero bits to its end.
fn put_piece(limb: u64, below: usize, c: usize, out: &mut [u8], at: usize)
    requires { (below + c ≤ 64) × (at % 8 + c ≤ 8) × (at + c ≤ 8 * length out.old) }
    ensures { out.new ≡ with_bits at (bits_of c (limb / 2 ^ below)) out.old }
{
    if c > 0 {
        let bits = piece::out_of(limb, below, c);
        out[at / 8] = piece::into_byte(out[at / 8], 8 - at % 8, c, bits);
    }
}

// Writes the n lowest bytes of a limb to `out` from place `first` on, the last of them first.
fn put_bytes(limb: u64, n: usize, out: &mut [u8], first: usize)
    requires { first + n ≤ length out.old }
    ensures { out.new ≡ with_bits (8 * first) (bits_of (8 * n) limb) out.old }
{
    let mut rest = limb;
    for place in (first..first + n).rev() {
        out[place] = (rest % 256) as u8;
        rest /= 256;
    }
}

// Writes the k lowest bits of a limb to `out` from bit place `at` on, with zero bits to the end of the
// last byte: those to the end of a byte begun, whole bytes, and those left.
fn put(limb: u64, k: usize, out: &mut [u8], at: usize)
    requires { (k ≤ 64) × (at + k ≤ 8 * length out.old) × (at + k < 2 ^ 32) }
    ensures { out.new ≡ with_bits at (bits_of k limb) out.old }
{
    let begun = piece::begun(at, k);
    let n = (k - begun) / 8;
    let left = (k - begun) % 8;
    put_piece(limb, k - begun, begun, out, at);
    put_bytes(limb >> left, n, out, (at + begun) / 8);
    put_piece(limb, 0, left, out, at + k - left);
}

// Writes the s lowest bits of a number of ten limbs to `out` from bit place `at` on, with zero bits
// to the end of the last byte.
pub fn put_number(number: &[u64], s: usize, out: &mut [u8], at: usize)
    requires { (10 ≤ length number.now) × (s ≤ 640) × (at + s ≤ 8 * length out.old) × (at + s < 2 ^ 32) }
    ensures { out.new ≡ with_bits at (bits_of s (number_at 10 number.now 0)) out.old }
{
    let mut done = 0;
    for i in (0..s.div_ceil(64)).rev() {
        let k = s - done - 64 * i;
        put(number[i], k, out, at + done);
        done += k;
    }
}
