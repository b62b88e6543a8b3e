// A call that writes into a part of what is there.
use parts::first_mut;
use replies::Refusal;
use script::{Case, show};

// What a call answers that writes into as many of these cells or bytes as the case lends, and all that
// was lent.
pub fn written<F: FnOnce(&mut [u8]) -> Result<usize, Refusal>>(
    case: &mut Case,
    cells: &mut [u8],
    call: F,
)
    requires { F.IsAlwaysCallable call }
{
    let lent = first_mut(cells, case.count());
    show::written(call(lent));
    show::numbers(lent);
    show::end();
}
