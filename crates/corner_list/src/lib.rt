// The corners of the fit into three lent slices, each in lowest terms: slow, the lines of the upper chain, fast, the lines of the lower chain.
#![tactic(auto)]

ghost use Rattle.std.specs.Prelude.{false, [], ◌∷◌, ◌+◌, ◌-◌};
ghost use Rattle.definitions.specs.Corners.{reduced as reducedOf};
ghost use Rattle.drift_laws.specs.ChainParts.{of_chain};
ghost use Rattle.drift_laws.specs.ChainLines.{Rises};
ghost use Rattle.drift_laws.specs.LineRows.{RowRoom, RowsSet};
ghost use Rattle.values.specs.Meanings.{line_of};
ghost use Rattle.values.specs.Small.{Small};
ghost use Rattle.fit.specs.ChainsOfEnds.{chain_of};
ghost use Rattle.fit.specs.Polygons.{Held, Shape};
ghost use Rattle.corner_list.specs.CornerRows.{ChainListed, ProperCorners, points, CornersListed};

use fit::ends::{End, point_at};
use fit::points::{steeper, through};
use fit::polygon::{Part, Polygon};
use values::Line;
use values::lowest_terms::reduced;
use values::storing::store_line;

// A line in lowest terms, stored at a place of the three slices.
fn put(ps: &mut [i64], qs: &mut [i64], ds: &mut [i64], at: usize, l: Line)
    requires { (Small l) × (RowRoom (at + 1) ps.old qs.old ds.old) }
    ensures { RowsSet at (reducedOf (line_of l) ∷ []) ps.old qs.old ds.old ps.new qs.new ds.new }
{
    store_line(ps, qs, ds, at, reduced(l));
}

// The lines through neighbours of a part of a chain, from the place at on, and the place after them.
fn list_chain(
    ends: &[End],
    p: Part,
    ps: &mut [i64],
    qs: &mut [i64],
    ds: &mut [i64],
    at: usize,
) -> usize
    requires { (Held p (chain_of ends.now)) × (Rises (of_chain false (chain_of ends.now)) p.start p.end) × (RowRoom (at + (p.end - p.start - 1)) ps.old qs.old ds.old) }
    ensures { ChainListed (of_chain false (chain_of ends.now)) p.start p.end ps.old qs.old ds.old at ps.new qs.new ds.new result }
{
    for j in p.start + 1..p.end {
        let a = point_at(ends, false, j - 1);
        let b = point_at(ends, false, j);
        let l = through(a, b);
        put(ps, qs, ds, at + (j - p.start - 1), l);
    }
    at + (p.end - p.start - 1)
}

// The corners in corner order, and their number.
pub fn list_corners(
    up: &[End],
    down: &[End],
    x: Polygon,
    ps: &mut [i64],
    qs: &mut [i64],
    ds: &mut [i64],
) -> usize
    requires { (Shape x (chain_of up.now) (chain_of down.now)) × (ProperCorners (chain_of up.now) (chain_of down.now) x) × (RowRoom (points x) ps.old qs.old ds.old) }
    ensures { CornersListed (chain_of up.now) (chain_of down.now) x ps.old qs.old ds.old ps.new qs.new ds.new result }
{
    put(ps, qs, ds, 0, x.slow);
    if steeper(x.slow, x.fast) {
        let m = list_chain(up, x.upper, ps, qs, ds, 1);
        put(ps, qs, ds, m, x.fast);
        list_chain(down, x.lower, ps, qs, ds, m + 1)
    } else {
        1
    }
}
