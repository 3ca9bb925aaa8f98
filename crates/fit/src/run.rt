// The run that begins at a range and goes as far as some line fits it.
ghost use Rattle.std.specs.Prelude.{◌≡◌, ◌+◌, ◌-◌, ◌<◌, ◌≤◌, length};
ghost use Rattle.trial_laws.specs.Accepted.{ProperRange, AcceptedLists};
ghost use Rattle.drift_laws.specs.RangeEnds.{lent};
ghost use Rattle.values.specs.Small.{Bounded};
ghost use Rattle.fit.specs.RangesByValue.{range_of};
ghost use Rattle.fit.specs.ChainsOfEnds.{chain_of};
ghost use Rattle.fit.specs.Polygons.{Shape};
ghost use Rattle.fit.specs.RunsFrom.{Closing, Running, RunFrom};
ghost use Rattle.fit.specs.RunsOn.{GoneOn, TwoRoom, RunReady, RunOn};

use crate::cut::{begin, join};
use crate::ends::{End, Range, high_end, low_end, range_at, seen};
use crate::points::{above, reaches};
use crate::polygon::Polygon;
use values::Line;

// The number of the range after a run's last, and the run's polygon; a run of one range has none.
#[derive(Clone, Copy)]
pub struct Reach {
    pub end: usize,
    pub polygon: Option<Polygon>,
}

// The same of a run of two ranges or more.
#[derive(Clone, Copy)]
pub struct LongReach {
    pub end: usize,
    pub polygon: Polygon,
}

// Whether a range has no line with the run that has these two lines: slow is above it, or fast is below it.
fn closes(slow: Line, fast: Line, r: Range) -> bool
    requires { (Bounded slow) × (Bounded fast) × (ProperRange (range_of r)) }
    ensures { Closing slow fast (range_of r) result }
{
    let high = seen(high_end(r), false);
    let low = seen(low_end(r), false);
    above(slow, high) || !reaches(fast, low)
}

// A polygon goes on over the ranges from a place on, among the first n, until one closes the run. The ranges before them need not stand in these slices.
fn go_on(
    times: &[u32],
    highs: &[i32],
    lows: &[i32],
    up: &mut [End],
    down: &mut [End],
    before: Polygon,
    from: usize,
    n: usize,
) -> LongReach
    requires { (AcceptedLists (lent times.now highs.now lows.now)) × (from ≤ n) × (n ≤ length times.now) × (Shape before (chain_of up.old) (chain_of down.old)) × (before.upper.end + (n - from) ≤ length up.old) × (before.lower.end + (n - from) ≤ length down.old) }
    ensures { GoneOn (lent times.now highs.now lows.now) (chain_of up.old) (chain_of down.old) before from n (chain_of up.new) (chain_of down.new) result }
{
    let mut polygon = before;
    for k in from..n {
        let r = range_at(times, highs, lows, k);
        if closes(polygon.slow, polygon.fast, r) {
            return LongReach { end: k, polygon };
        }
        polygon = join(up, down, polygon, r);
    }
    LongReach { end: n, polygon }
}

// The polygon of the first two ranges of a run.
fn first_two(
    times: &[u32],
    highs: &[i32],
    lows: &[i32],
    up: &mut [End],
    down: &mut [End],
    from: usize,
) -> Polygon
    requires { (AcceptedLists (lent times.now highs.now lows.now)) × (TwoRoom (lent times.now highs.now lows.now) (chain_of up.old) (chain_of down.old) from) }
    ensures { Running (lent times.now highs.now lows.now) (chain_of up.new) (chain_of down.new) from (from + 2) result }
{
    let first = range_at(times, highs, lows, from);
    let second = range_at(times, highs, lows, from + 1);
    begin(up, down, first, second)
}

// The run from a range on, among the first n; or, if its polygon is handed on, how far that goes on from there.
// All runs go through here, so that the loop stands once in what is compiled, with the whole of a step put into it.
pub fn run_on(
    times: &[u32],
    highs: &[i32],
    lows: &[i32],
    up: &mut [End],
    down: &mut [End],
    before: Option<Polygon>,
    from: usize,
    n: usize,
) -> Reach
    requires { RunReady (lent times.now highs.now lows.now) (chain_of up.old) (chain_of down.old) before from n }
    ensures { RunOn (lent times.now highs.now lows.now) (chain_of up.old) (chain_of down.old) before from n (chain_of up.new) (chain_of down.new) result }
{
    let (polygon, next) = match before {
        Some(polygon) => (polygon, from),
        None => {
            if n - from < 2 {
                return Reach {
                    end: n,
                    polygon: None,
                };
            }
            (first_two(times, highs, lows, up, down, from), from + 2)
        }
    };
    let gone = go_on(times, highs, lows, up, down, polygon, next, n);
    Reach {
        end: gone.end,
        polygon: Some(gone.polygon),
    }
}

// The run from range i on, among the first n. The chains need no more room than there are ranges from i to n.
pub fn run_from(
    times: &[u32],
    highs: &[i32],
    lows: &[i32],
    up: &mut [End],
    down: &mut [End],
    i: usize,
    n: usize,
) -> Reach
    requires { (AcceptedLists (lent times.now highs.now lows.now)) × (i < n) × (n ≤ length times.now) × (n - i ≤ length up.old) × (n - i ≤ length down.old) }
    ensures { RunFrom (lent times.now highs.now lows.now) i n (chain_of up.new) (chain_of down.new) result }
{
    run_on(times, highs, lows, up, down, None, i, n)
}
