// Text in lent bytes of ASCII: bytes as they stand, numbers in decimal and levels joined by commas are
// put, and the line of three numbers is read.
#![tactic(auto)]

ghost use Rattle.std.specs.Prelude.{◌≡◌, ◌≤◌, length, take};
ghost use Rattle.text.specs.Text.{decimal, levels_text};
ghost use Rattle.text.specs.Writer.{HasRoom, Puts};

pub mod line;

// Lent bytes, and the place behind those that are put. What is put next stands there.
#[derive(Drop)]
pub struct Writer<'a> {
    pub out: &'a mut [u8],
    pub at: usize,
}

impl Writer<'_> {
    // The bytes before that place.
    pub fn front(&self) -> &[u8]
        requires { self.now.at ≤ length self.now.out.now }
        ensures { result.now ≡ take self.now.at self.now.out.now }
    {
        let at = self.at;
        &self.out[..at]
    }

    // Puts bytes.
    pub fn put(&mut self, text: &[u8])
        requires { HasRoom self.old text.now }
        ensures { Puts self.old text.now self.new }
    {
        let next = self.at + text.len();
        self.out[self.at..next].copy_from_slice(text);
        self.at = next;
    }

    // Puts a number in decimal.
    pub fn put_decimal(&mut self, n: u64)
        requires { HasRoom self.old (decimal n) }
        ensures { Puts self.old (decimal n) self.new }
    {
        let mut digits = [0u8; 20];
        let k = io::decimal(n, &mut digits);
        self.put(&digits[..k])
    }

    // Puts levels, joined by commas.
    pub fn put_levels(&mut self, cells: &[u8])
        requires { HasRoom self.old (levels_text cells.now) }
        ensures { Puts self.old (levels_text cells.now) self.new }
    {
        if let [first, further @ ..] = cells {
            self.put_decimal(u64::from(*first));
            for level in further {
                self.put(b",");
                self.put_decimal(u64::from(*level));
            }
        }
    }
}
