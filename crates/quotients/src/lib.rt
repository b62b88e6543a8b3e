// How much there is of one number for each of another: spelt as a decimal with four places, and compared.
#![tactic(auto)]

ghost use Rattle.std.specs.Prelude.{◌≡◌, IfSome, is_some, unwrap_or, take};
ghost use Rattle.io.specs.Counts.{IsPrefixLen};
ghost use Rattle.text.specs.Writer.{HasRoom, Puts};
ghost use Rattle.quotients.specs.Quotients.{is_figure, places_text, figure_text, is_larger};

use text::Writer;

// Numbers from here on are too large for a figure.
const LIMIT: usize = 1 << 32;

// Puts ten-thousandths as a decimal with four places.
#[tactic(auto, unfolding(crate::specs::Quotients::places_text))]
fn put_places(t: usize, out: &mut Writer)
    requires { HasRoom out.old (places_text t) }
    ensures { Puts out.old (places_text t) out.new }
{
    out.put_decimal((t / 10000) as u64);
    out.put(b".");
    out.put_decimal((t / 1000 % 10) as u64);
    out.put_decimal((t / 100 % 10) as u64);
    out.put_decimal((t / 10 % 10) as u64);
    out.put_decimal((t % 10) as u64)
}

// Puts a / b, with four places, to the front of `out`. How many bytes it has; none where there is nothing
// to divide by, or a number is too large.
#[tactic(auto, unfolding(crate::specs::Quotients::figure_text))]
pub fn spell(a: usize, b: usize, out: &mut [u8; 16]) -> Option<usize>
    ensures variant { is_some result ≡ is_figure a b }
    ensures prefix_len { IfSome result (λ n. IsPrefixLen n out.new) }
    ensures out_after { take (unwrap_or result 0) out.new ≡ figure_text a b }
{
    if 0 < b && a < LIMIT && b < LIMIT {
        let mut writer = Writer { out, at: 0 };
        put_places((20000 * a + b) / (2 * b), &mut writer);
        return Some(writer.at);
    }
    None
}

// Whether a / b is larger than c / d; never where a number is too large.
#[tactic(auto, unfolding(crate::specs::Quotients::is_larger))]
pub fn is_larger(a: usize, b: usize, c: usize, d: usize) -> bool
    ensures { result ≡ is_larger a b c d }
{
    a < LIMIT && b < LIMIT && c < LIMIT && d < LIMIT && c * b < a * d
}
