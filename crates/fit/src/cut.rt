// The polygon of a fit with one more range. The lower side is the upper side of the mirror image, so one cut serves both.
ghost use Rattle.std.specs.Prelude.{◌≡◌, ◌+◌, ◌≤◌, length};
ghost use Rattle.std.specs.Int.Signed.{lt_z};
ghost use Rattle.integers.specs.Bounds.{Within};
ghost use Rattle.definitions.specs.Spans.{most_value};
ghost use Rattle.trial_laws.specs.Accepted.{ProperRange};
ghost use Rattle.values.specs.Small.{Bounded};
ghost use Rattle.fit.specs.RangesByValue.{range_of};
ghost use Rattle.fit.specs.ChainsOfEnds.{chain_of};
ghost use Rattle.fit.specs.Polygons.{Shape};
ghost use Rattle.fit.specs.Cuts.{shortened_to, CutAt, AboveAt, BelowAt, flipped};
ghost use Rattle.fit.specs.Joins.{LineJoining, PointAt, JoinedAt, StartedAt, first_part};

use crate::chain::{Trimmed, trim};
use crate::ends::{End, Range, has_width, high_end, low_end, seen};
use crate::points::{above, reaches, steeper, through};
use crate::polygon::{Part, Polygon};
use values::Line;

// What is left of the polygon: the upper chain up to an end, the lower chain from its new start on, and the new fast line.
fn shortened(x: Polygon, t: Trimmed, end: usize) -> Polygon
    ensures { result ≡ shortened_to x t end }
{
    Polygon {
        upper: Part { end, ..x.upper },
        lower: Part {
            start: t.start,
            ..x.lower
        },
        fast: t.fast,
        ..x
    }
}

// The fit's lines at or below an upper end, where slow is below it and fast above it. The end joins the upper chain unless the fit is a mere segment of lines.
fn cut(up: &mut [End], down: &[End], flip: bool, x: Polygon, e: End) -> Polygon
    requires { (Shape x (chain_of up.old) (chain_of down.now)) × (x.upper.end + 1 ≤ length up.old) × (Within most_value e.value) }
    ensures { CutAt flip (chain_of up.old) (chain_of down.now) x e (chain_of up.new) result }
{
    let n = seen(e, flip);
    let t = trim(up, down, flip, x.upper, x.lower, n);
    if steeper(t.slow, t.fast) {
        up[t.end] = e;
        return shortened(x, t, t.end + 1);
    }
    shortened(x, t, t.end)
}

// The same polygon with one line for both.
fn alone(x: Polygon, l: Line) -> Polygon
    ensures { result ≡ record { upper = x.upper; lower = x.lower; slow = l; fast = l } }
{
    Polygon {
        slow: l,
        fast: l,
        ..x
    }
}

// The fit's lines at or below an upper end.
fn cut_above(up: &mut [End], down: &[End], flip: bool, x: Polygon, e: End) -> Polygon
    requires { (Shape x (chain_of up.old) (chain_of down.now)) × (x.upper.end + 1 ≤ length up.old) × (Within most_value e.value) }
    ensures { AboveAt flip (chain_of up.old) (chain_of down.now) x e (chain_of up.new) result }
{
    let n = seen(e, flip);
    if above(x.fast, n) {
        if reaches(x.slow, n) {
            return alone(x, x.slow);
        }
        return cut(up, down, flip, x, e);
    }
    x
}

// Every value negated, so that the chains and the lines change places.
fn mirrored(x: Polygon) -> Polygon
    requires { (Bounded x.slow) × (Bounded x.fast) }
    ensures { result ≡ flipped x }
{
    Polygon {
        upper: x.lower,
        lower: x.upper,
        slow: -x.fast,
        fast: -x.slow,
    }
}

// The fit's lines at or above a lower end: the cut above in the mirror.
fn cut_below(up: &[End], down: &mut [End], x: Polygon, e: End) -> Polygon
    requires { (Shape x (chain_of up.now) (chain_of down.old)) × (x.lower.end + 1 ≤ length down.old) × (Within most_value e.value) }
    ensures { BelowAt (chain_of up.now) (chain_of down.old) x e (chain_of down.new) result }
{
    let m = mirrored(x);
    let r = cut_above(down, up, true, m, e);
    mirrored(r)
}

// The polygon whose chains are the first n entries of their slices.
fn first_entries(n: usize, slow: Line, fast: Line) -> Polygon
    ensures { result ≡ record { upper = record { start = 0; end = n }; lower = record { start = 0; end = n }; slow = slow; fast = fast } }
{
    let entries = Part { start: 0, end: n };
    Polygon {
        upper: entries,
        lower: entries,
        slow,
        fast,
    }
}

// The fit's lines through the one value of a range.
fn cut_to_point(up: &mut [End], down: &mut [End], x: Polygon, e: End) -> Polygon
    requires { (Shape x (chain_of up.old) (chain_of down.old)) × (Within most_value e.value) }
    ensures { PointAt (chain_of up.old) (chain_of down.old) x e (chain_of up.new) (chain_of down.new) result }
{
    let n = seen(e, false);
    if reaches(x.slow, n) {
        return alone(x, x.slow);
    }
    if above(x.fast, n) {
        let t = trim(up, down, false, x.upper, x.lower, n);
        up[0] = e;
        down[0] = e;
        return first_entries(1, t.slow, t.fast);
    }
    if reaches(x.fast, n) {
        return alone(x, x.fast);
    }
    x
}

// The polygon after a range that joins the run.
pub(crate) fn join(up: &mut [End], down: &mut [End], x: Polygon, r: Range) -> Polygon
    requires { (Shape x (chain_of up.old) (chain_of down.old)) × (x.upper.end + 1 ≤ length up.old) × (x.lower.end + 1 ≤ length down.old) × (ProperRange (range_of r)) }
    ensures { JoinedAt (chain_of up.old) (chain_of down.old) x r (chain_of up.new) (chain_of down.new) result }
{
    let high = high_end(r);
    if has_width(r) {
        let low = low_end(r);
        let y = cut_above(up, down, false, x, high);
        return cut_below(up, down, y, low);
    }
    cut_to_point(up, down, x, high)
}

// The line through two ends.
fn joining(a: End, b: End) -> Line
    requires { (Within most_value a.value) × (Within most_value b.value) }
    ensures { LineJoining a b result }
{
    let n = seen(a, false);
    let m = seen(b, false);
    through(n, m)
}

// Which of the first two entries of the chains two ranges leave: a range of one value is on both chains by itself.
fn first_part(r: Range, s: Range) -> Part
    ensures { result ≡ first_part (lt_z r.low r.high) (lt_z s.low s.high) }
{
    if has_width(r) {
        if has_width(s) {
            return Part { start: 0, end: 2 };
        }
        return Part { start: 1, end: 2 };
    }
    Part { start: 0, end: 1 }
}

// The polygon of two ranges.
pub fn begin(up: &mut [End], down: &mut [End], r: Range, s: Range) -> Polygon
    requires { (2 ≤ length up.old) × (2 ≤ length down.old) × (ProperRange (range_of r)) × (ProperRange (range_of s)) }
    ensures { StartedAt r s (chain_of up.new) (chain_of down.new) result }
{
    let slow = joining(high_end(r), low_end(s));
    let fast = joining(low_end(r), high_end(s));
    up[0] = high_end(r);
    down[0] = low_end(r);
    up[1] = high_end(s);
    down[1] = low_end(s);
    let part = first_part(r, s);
    Polygon {
        upper: part,
        lower: part,
        slow,
        fast,
    }
}
