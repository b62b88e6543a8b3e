// Rows written into a lent table, from the front.
ghost use Rattle.std.specs.Prelude.{◌≡◌, ◌+◌, ◌≤◌, length};
ghost use Rattle.replies.specs.Ranges.{InRange};
ghost use Rattle.tables.specs.Rows.{with_row, front_rows};
ghost use Rattle.tables.specs.Tables.{table_length};

use super::counting::Count;
use replies::Profile;

// Writes a number of ten limbs as row i.
pub fn store(out: &mut [u64], i: usize, number: &[u64])
    requires { (length number.now ≡ 10) × (table_length i ≤ length out.old) }
    ensures { out.new ≡ with_row i number.now out.old }
{
    // Limb by limb: where the row is copied whole, handing out the shipped table takes twice as many instructions.
    for k in 0..10 {
        out[10 * i + k] = number[k];
    }
}

// Counts rows 0 to m, each from the rows written before it.
pub fn build(p: Profile, out: &mut [u64])
    requires in_range { InRange p }
    requires m_in_bounds { table_length p.m ≤ length out.old }
    ensures { out.new ≡ front_rows p (p.m + 1) out.old }
{
    let mut count = Count::first(p);
    store(out, 0, &count.row);
    for i in 1..p.m + 1 {
        count.step(p, out);
        store(out, i, &count.row);
    }
}
