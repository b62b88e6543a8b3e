// The line that the listing program reads: three numbers of one to three digits, single spaces, a
// newline. A line is read by taking the numbers out of it and comparing it with the line that they
// make.
ghost use Rattle.std.specs.Prelude.{◌≡◌};
ghost use Rattle.text.specs.Line.{profile_text, number_in, behind_number, profile_in, is_line_of};
ghost use Rattle.text.specs.Writer.{HasRoom, Puts};

use crate::Writer;
use replies::Profile;

// The number that the digits at the front of some bytes spell, and what stands behind the byte after
// them. From 1000 on it does not matter which number it is.
fn number(line: &[u8]) -> (usize, &[u8])
    ensures value { result.0 ≡ number_in 0 line.now }
    ensures behind { result.1.now ≡ behind_number line.now }
{
    let mut value = 0;
    for (i, byte) in line.iter().enumerate() {
        if !byte.is_ascii_digit() {
            return (value, &line[i + 1..]);
        }
        if value < 1000 {
            value = 10 * value + usize::from(*byte - b'0');
        }
    }
    (value, b"")
}

// The first three numbers of a line.
pub fn profile_in(line: &[u8]) -> Profile
    ensures { result ≡ profile_in line.now }
{
    let (q, behind_q) = number(line);
    let (m, behind_m) = number(behind_q);
    let (x, _) = number(behind_m);
    replies::profile_of(q, m, x)
}

impl Writer<'_> {
    #[tactic(auto, unfolding(crate::specs::Line::profile_text))]
    // Puts q m x with single spaces.
    pub fn put_profile(&mut self, p: Profile)
        requires { HasRoom self.old (profile_text p) }
        ensures { Puts self.old (profile_text p) self.new }
    {
        self.put_decimal(p.q as u64);
        self.put(b" ");
        self.put_decimal(p.m as u64);
        self.put(b" ");
        self.put_decimal(p.x as u64)
    }
}

// The line is that of these numbers, which have at most three digits.
pub fn is_line_of(line: &[u8], p: Profile) -> bool
    ensures { result ≡ is_line_of line.now p }
{
    if p.q >= 1000 || p.m >= 1000 || p.x >= 1000 {
        return false;
    }
    let mut right = [0u8; 12];
    let mut writer = Writer {
        out: &mut right,
        at: 0,
    };
    writer.put_profile(p);
    writer.put(b"\n");
    line == writer.front()
}
