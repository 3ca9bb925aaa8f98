// What a new end leaves of a polygon's two chains. It shortens both: loops only move the end of the one and the start of the other.
ghost use Rattle.drift_laws.specs.ChainParts.{of_chain, PoppedTo, DroppedTo};
ghost use Rattle.fit.specs.ChainsOfEnds.{chain_of};
ghost use Rattle.fit.specs.LinesOfEnds.{Proper, point_of};
ghost use Rattle.fit.specs.Polygons.{Held, TrimmedAt};

use crate::ends::{End, point_at};
use crate::points::{Point, joined_reaches, through};
use crate::polygon::Part;
use values::Line;

// What a new end leaves: the upper chain's end, the lower chain's start, and the lines from these to the new end.
#[derive(Clone, Copy)]
pub struct Trimmed {
    pub end: usize,
    pub start: usize,
    pub slow: Line,
    pub fast: Line,
}

// The end of a chain after the points at its end are gone whose line with the point before is at or above n.
fn pop_end(ends: &[End], flip: bool, p: Part, n: Point) -> usize
    requires { (Held p (chain_of ends.now)) × (Proper n) }
    ensures { PoppedTo (of_chain flip (chain_of ends.now)) (point_of n) p.start p.end result }
{
    let mut m = p.end;
    // the end moves until a point stays, which no count tells
    while p.start + 1 < m {
        let a = point_at(ends, flip, m - 2);
        let b = point_at(ends, flip, m - 1);
        if !joined_reaches(a, b, n) {
            break;
        }
        m -= 1;
    }
    m
}

// The start of a chain after the points at its head are gone whose line with the point after is at or above n.
fn drop_head(ends: &[End], flip: bool, p: Part, n: Point) -> usize
    requires { (Held p (chain_of ends.now)) × (Proper n) }
    ensures { DroppedTo (of_chain flip (chain_of ends.now)) (point_of n) p.start p.end result }
{
    let mut h = p.start;
    // the start moves until a point stays, which no count tells
    while h + 1 < p.end {
        let a = point_at(ends, flip, h);
        let b = point_at(ends, flip, h + 1);
        if !joined_reaches(a, b, n) {
            break;
        }
        h += 1;
    }
    h
}

// Both chains shortened at n, where slow is below it and fast above it.
pub fn trim(up: &[End], down: &[End], flip: bool, upper: Part, lower: Part, n: Point) -> Trimmed
    requires { (Held upper (chain_of up.now)) × (Held lower (chain_of down.now)) × (Proper n) }
    ensures { TrimmedAt flip (chain_of up.now) (chain_of down.now) upper lower (point_of n) result }
{
    let end = pop_end(up, flip, upper, n);
    let start = drop_head(down, flip, lower, n);
    let last = point_at(up, flip, end - 1);
    let first = point_at(down, flip, start);
    let slow = through(last, n);
    let fast = through(first, n);
    Trimmed {
        end,
        start,
        slow,
        fast,
    }
}
