// What a row is multiplied by in a guarded stretch.
ghost use Rattle.std.specs.Prelude.{◌≡◌, ◌^◌, ◌≤◌};

// Top to the power of k.
#[tactic(auto, using(crate::specs::PowerLaws::power_fits))]
pub fn power(top: u64, k: usize) -> u64
    requires { (top ≤ 31) × (k ≤ 8) }
    ensures { result ≡ top ^ k }
{
    top.pow(k as u32)
}
