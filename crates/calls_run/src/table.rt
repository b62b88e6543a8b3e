// The calls that write a table.
use parts::{first, first_mut};
use replies::Refusal;
use script::show::MARKED_LIMB;
use script::{Case, show};

// What a call answers that writes into as many limbs as the case lends, a digest of all limbs, and the
// last row written.
fn written<F: FnOnce(&mut [u64]) -> Result<usize, Refusal>>(case: &mut Case, call: F)
    requires { F.IsAlwaysCallable call }
{
    let mut limbs = [MARKED_LIMB; 1400];
    let answer = call(first_mut(&mut limbs, case.count()));
    show::written(answer);
    show::digest(&limbs);
    if let Some(row) = first(&limbs, answer.unwrap_or(0)).last_chunk::<10>() {
        show::numbers(row);
    }
    show::end();
}

pub fn build(case: &mut Case) {
    let p = case.profile();
    written(case, |limbs| tables::build(p, limbs));
}

pub fn shipped(case: &mut Case) {
    let m = case.count();
    written(case, |limbs| tables::shipped(m, limbs));
}
