// A line into three lent slices.
ghost use Rattle.std.specs.Prelude.{[], ◌∷◌, suc};
ghost use Rattle.drift_laws.specs.LineRows.{RowRoom, RowsSet};
ghost use Rattle.values.specs.Meanings.{line_of};

use crate::Line;

// Stores a line at a place of three slices.
pub fn store_line(ps: &mut [i64], qs: &mut [i64], ds: &mut [i64], at: usize, l: Line)
    requires { RowRoom (suc at) ps.old qs.old ds.old }
    ensures { RowsSet at (line_of l ∷ []) ps.old qs.old ds.old ps.new qs.new ds.new }
{
    ps[at] = l.p;
    qs[at] = l.q;
    ds[at] = l.d;
}
