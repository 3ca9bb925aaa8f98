// Ranges by value, their ends as the chains hold them, and an end as a point.
ghost use Rattle.std.specs.Prelude.{◌≡◌, ◌<◌, length, get_or, pos};
ghost use Rattle.std.specs.Int.Signed.{lt_z};
ghost use Rattle.integers.specs.Bounds.{Within};
ghost use Rattle.definitions.specs.Spans.{most_value};
ghost use Rattle.trial_laws.specs.RangeLists.{range_at};
ghost use Rattle.drift_laws.specs.RangeEnds.{lent};
ghost use Rattle.drift_laws.specs.ChainParts.{of_chain};
ghost use Rattle.fit.specs.LinesOfEnds.{PointIs, Seen};
ghost use Rattle.fit.specs.RangesByValue.{InList, range_of, high_of, low_of};
ghost use Rattle.fit.specs.ChainsOfEnds.{chain_of};

use crate::points::Point;

// A time with a low and a high.
#[derive(Clone, Copy)]
pub struct Range {
    pub time: u32,
    pub low: i32,
    pub high: i32,
}

// An end of a range: its time, and its low or its high.
#[derive(Clone, Copy)]
pub struct End {
    pub time: u32,
    pub value: i32,
}

// What the entries of a chain hold before any is stored.
pub const NO_END: End = End { time: 0, value: 0 };

// The range at a place of the lent lists.
pub fn range_at(times: &[u32], highs: &[i32], lows: &[i32], k: usize) -> Range
    requires { InList (lent times.now highs.now lows.now) k }
    ensures { range_of result ≡ range_at (lent times.now highs.now lows.now) k }
{
    Range {
        time: times[k],
        low: lows[k],
        high: highs[k],
    }
}

pub(crate) fn high_end(r: Range) -> End
    ensures { result ≡ high_of r }
{
    End {
        time: r.time,
        value: r.high,
    }
}

pub(crate) fn low_end(r: Range) -> End
    ensures { result ≡ low_of r }
{
    End {
        time: r.time,
        value: r.low,
    }
}

// Whether the low is below the high.
pub(crate) fn has_width(r: Range) -> bool
    ensures { result ≡ lt_z r.low r.high }
{
    r.low < r.high
}

// The end as a point, in the mirror where flip holds.
pub(crate) fn seen(e: End, flip: bool) -> Point
    requires { Within most_value e.value }
    ensures { Seen flip e result }
{
    let t = i64::from(e.time);
    let u = i64::from(e.value);
    Point {
        t,
        u: if flip { -u } else { u },
    }
}

// The point at a place of a chain.
pub fn point_at(ends: &[End], flip: bool, j: usize) -> Point
    requires { (j < length ends.now) × (Within most_value (get_or (chain_of ends.now).values j (pos 0))) }
    ensures { PointIs (of_chain flip (chain_of ends.now) j) result }
{
    seen(ends[j], flip)
}
