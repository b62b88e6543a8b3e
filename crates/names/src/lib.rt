// Names of files as they are printed: a name is any bytes, and what is printed of it has no control
// character, begins no line and turns no writing; within the quotes of JSON it ends no quote.
#![tactic(auto)]

ghost use Rattle.std.specs.Prelude.{MatchOption, ◌≡◌, ◌<◌, length, take, drop};
ghost use Rattle.io.specs.Counts.{IsPrefixLen};
ghost use Rattle.io.specs.Digits.{hex_digit_ascii};
ghost use Rattle.text.specs.Writer.{HasRoom, Puts};
ghost use Rattle.names.specs.Names.{stands_as_it_is, is_code_point, lead_of, standing, spelt, escaped_in};
ghost use Rattle.names.specs.Quotes.{quoted_byte, quoted_in};

use text::Writer;

// How a character of UTF-8 begins: how many bytes it has, what the first gives of its code point, and
// the least code point that takes as many bytes.
#[derive(Clone, Copy)]
struct Lead {
    size: usize,
    bits: u32,
    least: u32,
}

// The character that begins with a byte; none where none does.
#[tactic(auto, unfolding(crate::specs::Names::lead_of))]
fn lead_of(byte: u8) -> Option<Lead>
    ensures { MatchOption result ((lead_of byte).size ≡ 0) (λ first. (first ≡ lead_of byte) × (0 < first.size)) }
{
    let bits = u32::from(byte);
    match byte {
        0..=0x7f => Some(Lead {
            size: 1,
            bits,
            least: 0,
        }),
        0xc0..=0xdf => Some(Lead {
            size: 2,
            bits: bits - 0xc0,
            least: 0x80,
        }),
        0xe0..=0xef => Some(Lead {
            size: 3,
            bits: bits - 0xe0,
            least: 0x800,
        }),
        0xf0..=0xf7 => Some(Lead {
            size: 4,
            bits: bits - 0xf0,
            least: 0x10000,
        }),
        _ => None,
    }
}

// A number is the code point of a character: at most U+10FFFF, and no surrogate.
#[tactic(auto, unfolding(crate::specs::Names::is_code_point))]
fn is_code_point(point: u32) -> bool
    ensures { result ≡ is_code_point point }
{
    matches!(point, 0..=0xd7ff | 0xe000..=0x10ffff)
}

// A character stands as it is: it is no control character, begins no line, turns no writing, and is no
// backslash.
#[tactic(auto, unfolding(crate::specs::Names::stands_as_it_is))]
fn stands_as_it_is(point: u32) -> bool
    ensures { result ≡ stands_as_it_is point }
{
    let is_control = matches!(point, 0..=0x1f | 0x7f..=0x9f);
    let is_turn = matches!(point, 0x61c | 0x200e..=0x200f | 0x2028..=0x202e | 0x2066..=0x2069);
    !(is_control || is_turn || point == 0x5c)
}

// How many bytes the character has that a text begins with, where it stands as it is.
fn standing(text: &[u8]) -> Option<usize>
    ensures { MatchOption result (standing text.now ≡ 0) (λ n. (n ≡ standing text.now) × (0 < n)) }
{
    let first = lead_of(*text.first()?)?;
    let mut point = first.bits;
    for byte in text.get(1..first.size)? {
        match *byte {
            0x80..=0xbf => point = 64 * point + u32::from(*byte - 0x80),
            _ => return None,
        }
    }
    (first.least <= point && is_code_point(point) && stands_as_it_is(point)).then_some(first.size)
}

// The digit of a number below 16, in lower case.
fn glyph(n: u8) -> u8
    requires { n < 16 }
    ensures { result ≡ hex_digit_ascii n }
{
    if n < 10 { b'0' + n } else { b'a' + (n - 10) }
}

// Puts a byte spelt out: `\x` and two digits.
fn put_spelt(byte: u8, out: &mut Writer)
    requires { HasRoom out.old (spelt byte) }
    ensures { Puts out.old (spelt byte) out.new }
{
    out.put(&[b'\\', b'x', glyph(byte / 16), glyph(byte % 16)])
}

// Puts a name as it is printed to the front of `out`, which has four bytes for each of the name;
// nothing where it has fewer. How many bytes that is.
pub fn escape(name: &[u8], out: &mut [u8]) -> usize
    ensures prefix_len { IsPrefixLen result out.new }
    ensures out_after { take result out.new ≡ escaped_in name.now (length out.old) }
    ensures out_unchanged { drop result out.new ≡ drop result out.old }
{
    if out.len() / 4 < name.len() {
        return 0;
    }
    let mut writer = Writer { out, at: 0 };
    let mut rest = name;
    while let [byte, behind @ ..] = rest {
        match standing(rest) {
            Some(n) => {
                writer.put(&rest[..n]);
                rest = &rest[n..];
            }
            None => {
                put_spelt(*byte, &mut writer);
                rest = behind;
            }
        }
    }
    writer.at
}

// Puts a byte as it stands within quotes.
fn put_quoted(byte: u8, out: &mut Writer)
    requires { HasRoom out.old (quoted_byte byte) }
    ensures { Puts out.old (quoted_byte byte) out.new }
{
    if byte == b'"' || byte == b'\\' {
        out.put(b"\\");
    }
    out.put(&[byte])
}

// Puts a printed name as it stands within the quotes of JSON to the front of `out`, which has two
// bytes for each; nothing where it has fewer. How many bytes that is.
pub fn quote(printed: &[u8], out: &mut [u8]) -> usize
    ensures prefix_len { IsPrefixLen result out.new }
    ensures out_after { take result out.new ≡ quoted_in printed.now (length out.old) }
    ensures out_unchanged { drop result out.new ≡ drop result out.old }
{
    if out.len() / 2 < printed.len() {
        return 0;
    }
    let mut writer = Writer { out, at: 0 };
    for byte in printed {
        put_quoted(*byte, &mut writer);
    }
    writer.at
}
