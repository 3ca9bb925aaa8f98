// Points, and the lines through them. Every question is the sign of a whole number.
ghost use Rattle.std.specs.Prelude.{◌≡◌, pos};
ghost use Rattle.std.specs.Int.Signed.{le_z, lt_z};
ghost use Rattle.chains.specs.Points.{gap, turn, through as throughPoints};
ghost use Rattle.values.specs.Meanings.{line_of};
ghost use Rattle.values.specs.Small.{Bounded};
ghost use Rattle.fit.specs.LinesOfEnds.{Proper, LineThrough, point_of};

use values::Line;

// A time and a value.
#[derive(Clone, Copy)]
pub struct Point {
    pub t: i64,
    pub u: i64,
}

// The line through two points.
pub fn through(a: Point, b: Point) -> Line
    requires { (Proper a) × (Proper b) }
    ensures { LineThrough a b result }
{
    Line {
        p: b.u - a.u,
        q: a.u * b.t - b.u * a.t,
        d: b.t - a.t,
    }
}

// Above 0 where the line is above the point, and 0 where it touches it.
fn height(l: Line, a: Point) -> i64
    requires { (Bounded l) × (Proper a) }
    ensures { result ≡ gap (line_of l) (point_of a) }
{
    l.p * a.t + l.q - l.d * a.u
}

// Whether the line is above the point.
pub(crate) fn above(l: Line, a: Point) -> bool
    requires { (Bounded l) × (Proper a) }
    ensures { result ≡ lt_z (pos 0) (gap (line_of l) (point_of a)) }
{
    let g = height(l, a);
    0 < g
}

// Whether the line is at or above the point.
pub(crate) fn reaches(l: Line, a: Point) -> bool
    requires { (Bounded l) × (Proper a) }
    ensures { result ≡ le_z (pos 0) (gap (line_of l) (point_of a)) }
{
    let g = height(l, a);
    0 <= g
}

// Whether w is steeper than v.
pub fn steeper(v: Line, w: Line) -> bool
    requires { (Bounded v) × (Bounded w) }
    ensures { result ≡ lt_z (pos 0) (turn (line_of v) (line_of w)) }
{
    0 < w.p * v.d - v.p * w.d
}

// Whether the line through a and b is at or above n: by differences, so that there are two products.
pub(crate) fn joined_reaches(a: Point, b: Point, n: Point) -> bool
    requires { (Proper a) × (Proper b) × (Proper n) }
    ensures { result ≡ le_z (pos 0) (gap (throughPoints (point_of a) (point_of b)) (point_of n)) }
{
    (n.u - b.u) * (b.t - a.t) <= (b.u - a.u) * (n.t - b.t)
}
