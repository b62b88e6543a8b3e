// The messages of the words of a stream, written as bits.
ghost use Rattle.std.specs.Prelude.{◌≡◌, length};
ghost use Rattle.limbs.specs.Limbs.{AllLimbs};
ghost use Rattle.numbers.specs.Step.{message_of};
ghost use Rattle.profiles.specs.Profiles.{index_for};
ghost use Rattle.bits.specs.Bits.{bits_of, with_bits};
ghost use Rattle.read_stream.specs.Reading.{bits_in, bits_read};
ghost use Rattle.read_stream.specs.WordLaws.{EachWord};
ghost use Rattle.read_stream.specs.CarrierLaws.{Carrier};
ghost use Rattle.read_stream.specs.OutputLaws.{Found, Room};

use numbers::Index;
use replies::Profile;

// What is found once for all words of a stream: the profile, its table, the limbs that row m of it uses, and how many
// bits a message has.
#[derive(Clone, Copy)]
pub struct Reader<'a> {
    pub p: Profile,
    pub table: &'a [u64],
    pub used: usize,
    pub s: usize,
    ghost found: { Found p table.now used s },
    ghost limbs: { AllLimbs table.now },
}

impl Reader<'_> {
    // Writes the s bits of the message that a word carries to `out` from bit place `at` on. The index is
    // written to the limbs that row m of the table uses.
    fn put_message(&self, word: &[u8], out: &mut [u8], at: usize)
        requires { Carrier self.now.p word.now × Room self.now.s at out.old }
        ensures { out.new ≡ with_bits at (bits_of self.now.s (message_of (index_for self.now.p word.now))) out.old }
    {
        let mut sum = [0; 10];
        index_of_word::put_index(self.p, self.table, self.used, word, &mut sum);
        let index = Index(sum);
        let message = index.message();
        let limbs = message.0;
        bits::put_number(&limbs, self.s, out, at);
    }

    // Writes the bits of the messages of a part's words: the cells after a word and its bridge are handed
    // on as the part that starts m + x cells in. The limbs of a word stand in no frame of this recursion.
    pub fn put_messages(&self, part: &[u8], out: &mut [u8], at: usize)
        requires { EachWord self.now.p (Carrier self.now.p) part.now × Room (bits_in self.now.p (length part.now)) at out.old }
        ensures { out.new ≡ with_bits at (bits_read self.now.p part.now) out.old }
    {
        if part.is_empty() {
            return;
        }
        let m = self.p.m;
        if part.len() <= m {
            self.put_message(part, out, at);
            return;
        }
        self.put_message(&part[..m], out, at);
        self.put_messages(&part[m + self.p.x..], out, at + self.s);
    }
}
