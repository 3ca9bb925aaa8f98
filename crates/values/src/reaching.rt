// On which side of a level a line is, at which multiple of the step it reaches the service level, and the outlook of a segment's two lines.
ghost use Rattle.std.specs.Prelude.{◌≡◌, ◌*◌, ◌<◌};
ghost use Rattle.integers.specs.Bounds.{Within};
ghost use Rattle.integers.specs.Multiples.{to_turn};
ghost use Rattle.definitions.specs.Spans.{most_value, most_time};
ghost use Rattle.definitions.specs.Lines.{side_at};
ghost use Rattle.trial_laws.specs.Accepted.{GoodStep, GoodService};
ghost use Rattle.lines.specs.OutlookTimes.{reach_time, rises};
ghost use Rattle.values.specs.Meanings.{line_of, service_of, side_of, time_of, outlook_of};
ghost use Rattle.values.specs.Small.{Small};
ghost use Rattle.values.specs.Reach.{look_ahead, BelowAt, TurnsFrom};

use crate::lowest_terms::reduced;
use crate::numbers::ceil_div;
use crate::{Direction, Line, Outlook, Service, Side};
use definitions::limits::MOST_TIME;

impl Line {
    // Where the line is against the level at the time: p·t + q against d·level, so that nothing is divided.
    fn side(self, level: i32, time: u32) -> Side
        requires { (Small self) × (Within most_value level) }
        ensures { side_of result ≡ side_at (line_of self) level time }
    {
        let reading = self.p * i64::from(time) + self.q;
        let scaled = self.d * i64::from(level);
        if reading < scaled {
            Side::Below
        } else if scaled < reading {
            Side::Above
        } else {
            Side::On
        }
    }
}

// The multiples of a step that are times, from some time on: how many steps the first and the last of them are from 0. There is none where the first is after the last.
#[derive(Clone, Copy)]
struct Turns {
    first: u32,
    last: u32,
}

fn turns_from(step: u32, from: u32) -> Turns
    requires { 0 < step }
    ensures { TurnsFrom step from result }
{
    Turns {
        first: from.div_ceil(step),
        last: MOST_TIME / step,
    }
}

// When a line that is below the level at the first multiple rises to it: after (d·level − q)/(p·step) steps, rounded up, if the line rises and that is a time at all.
fn crossing_time(l: Line, level: i32, step: u32, turns: Turns) -> Option<u32>
    requires { (Small l) × (Within most_value level) × (GoodStep step) × (turns.last ≡ to_turn step most_time) × (BelowAt (line_of l) level (turns.first * step)) }
    ensures { time_of result ≡ reach_time (rises level step) (turns.first * step) (line_of l) }
{
    let p = l.p;
    if 0 < p {
        let k = ceil_div(l.d * i64::from(level) - l.q, p * i64::from(step));
        if k <= i64::from(turns.last) {
            Some((k as u32) * step)
        } else {
            None
        }
    } else {
        None
    }
}

// The first multiple at which the line is at or above the level.
fn rise_time(l: Line, level: i32, step: u32, turns: Turns) -> Option<u32>
    requires { (Small l) × (Within most_value level) × (GoodStep step) × (turns.last ≡ to_turn step most_time) }
    ensures { time_of result ≡ reach_time (rises level step) (turns.first * step) (line_of l) }
{
    if turns.last < turns.first {
        return None;
    }
    let first = turns.first * step;
    let s = l.side(level, first);
    match s {
        Side::Below => crossing_time(l, level, step, turns),
        Side::On | Side::Above => Some(first),
    }
}

// The first multiple at which the line has reached the level. It falls to the level when its mirror image rises to the level negated.
fn reach_time(l: Line, v: Service, turns: Turns) -> Option<u32>
    requires { (Small l) × (GoodService (service_of v)) × (turns.last ≡ to_turn v.step most_time) }
    ensures { time_of result ≡ reach_time (service_of v) (turns.first * v.step) (line_of l) }
{
    match v.direction {
        Direction::Rising => rise_time(l, v.level, v.step, turns),
        Direction::Falling => rise_time(-l, -v.level, v.step, turns),
    }
}

// On a rising trace some line of the fit has reached the level when the fast one has, and all when the slow one has; on a falling one it is the other way round. Found from the lines as they are, so that this need not wait for their lowest terms.
pub fn outlook_of(slow: Line, fast: Line, v: Service, last: u32) -> Outlook
    requires { (Small slow) × (Small fast) × (GoodService (service_of v)) }
    ensures { outlook_of result ≡ look_ahead (line_of slow) (line_of fast) (service_of v) last }
{
    let turns = turns_from(v.step, last);
    let by_fast = reach_time(fast, v, turns);
    let by_slow = reach_time(slow, v, turns);
    let (some, all) = match v.direction {
        Direction::Rising => (by_fast, by_slow),
        Direction::Falling => (by_slow, by_fast),
    };
    Outlook::Lines {
        slow: reduced(slow),
        fast: reduced(fast),
        some,
        all,
    }
}
