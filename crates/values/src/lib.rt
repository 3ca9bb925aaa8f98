// What a segment is made of, by value, its row of numbers, and what is computed of lines alone: lowest terms, the side of a level, the outlook.
#![tactic(auto)]

ghost use Rattle.std.specs.Prelude.{◌≡◌, ◌≤◌};
ghost use Rattle.definitions.specs.Spans.{most_direction};
ghost use Rattle.values.specs.Meanings.{service_of};

pub mod lowest_terms; // lowest_terms.rt: a line in lowest terms
mod mirroring; // mirroring.rt: a line's mirror image
mod numbers; // numbers.rt: the greatest common divisor, and the quotient rounded up
pub mod reaching; // reaching.rt: the side of a level, when a line reaches it, and the outlook of two lines
pub mod rows; // rows.rt: an outlook and a segment as rows of numbers, and a segment back
pub mod storing; // storing.rt: a line into three lent slices

// The line whose value at t is (p·t + q)/d, with d above 0.
#[derive(Clone, Copy, PartialEq, Eq)]
pub struct Line {
    pub p: i64,
    pub q: i64,
    pub d: i64,
}

// Which way the signal of a head drifts with dust.
#[derive(Clone, Copy)]
pub enum Direction {
    Rising,
    Falling,
}

// What an outlook looks for: the level, the direction from which it is reached, and the step, at whose multiples the line is asked.
#[derive(Clone, Copy)]
pub struct Service {
    pub level: i32,
    pub direction: Direction,
    pub step: u32,
}

impl Service {
    // A service that is not refused, by the number of its direction: 0 for rising and 1 for falling.
    pub fn new(level: i32, direction: u32, step: u32) -> Service
        requires { direction ≤ most_direction }
        ensures { service_of result ≡ record { level = level; direction = direction; step = step } }
    {
        let direction = if direction == 0 {
            Direction::Rising
        } else {
            Direction::Falling
        };
        Service {
            level,
            direction,
            step,
        }
    }
}

// Where a line is against a level at a time: the scope's own three words.
#[derive(Clone, Copy)]
pub enum Side {
    Below,
    On,
    Above,
}

// Open, a term of the scope's own: one range. Else the slow and the fast line, and the times at which some and all lines of the fit reach the level.
#[derive(Clone, Copy)]
pub enum Outlook {
    Open,
    Lines {
        slow: Line,
        fast: Line,
        some: Option<u32>,
        all: Option<u32>,
    },
}

#[derive(Clone, Copy)]
pub struct Segment {
    pub first_time: u32,
    pub last_time: u32,
    pub count: u32,
    pub outlook: Outlook,
}
