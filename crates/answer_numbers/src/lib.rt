// The answers of the calls as numbers: each function gives 0, or the number of a refusal, and puts what stands beside it into lent numbers.
// It never reads them, and sets them where the answer accepts alone. The calls as C functions end with these.
#![tactic(auto)]

ghost use Rattle.std.specs.Prelude.{◌≡◌};
ghost use Rattle.definitions.specs.Answers.{refusal};
ghost use Rattle.definitions.specs.Refusals.{answered};
ghost use Rattle.definitions.specs.Results.{outlook_numbers};
ghost use Rattle.values.specs.Meanings.{line_of, outlook_of};
ghost use Rattle.drift.specs.CornersPromise.{corners_meaning};
ghost use Rattle.answer_numbers.specs.Told.{Counts, ReadTold, corner_number, eight, PreviewTold, LatestTold};

use definitions::refusals::Refusal;
use latest::Trend;
use preview::Effect;
use trace::TraceRecord;
use values::rows::OutlookRow;
use values::{Line, Outlook};

// An answer of Read: address, level, direction, step and number of ranges.
pub fn tell_read(
    answer: Result<TraceRecord, Refusal>,
    address: &mut u32,
    level: &mut i32,
    direction: &mut u32,
    step: &mut u32,
    ranges: &mut usize,
) -> u8
    ensures { ReadTold answer address.old level.old direction.old step.old ranges.old address.new level.new direction.new step.new ranges.new result }
{
    match answer {
        Ok(known) => {
            *address = known.address;
            *level = known.level;
            *direction = known.direction;
            *step = known.step;
            *ranges = known.ranges;
            0
        }
        Err(bad_file) => u8::from(bad_file),
    }
}

// An answer with a count: the bytes that Write or the report gives, the segments of Segment, the ranges of Head ranges.
pub fn tell_count(answer: Result<usize, Refusal>, count: &mut usize) -> u8
    ensures { Counts (answered answer) (λ n. n) count.old count.new result }
{
    match answer {
        Ok(given) => {
            *count = given;
            0
        }
        Err(refusal) => u8::from(refusal),
    }
}

// An answer of Corners: the count of the corners, which is 0 where the fit is open.
pub fn tell_corners(answer: Result<Option<usize>, Refusal>, count: &mut usize) -> u8
    ensures { Counts (corners_meaning answer) corner_number count.old count.new result }
{
    match answer {
        Ok(corners) => {
            *count = corners.unwrap_or(0);
            0
        }
        Err(bad_lists) => u8::from(bad_lists),
    }
}

// A line into three lent numbers.
fn tell_line(l: Line, into_p: &mut i64, into_q: &mut i64, into_d: &mut i64)
    ensures { line_of l ≡ record { p = into_p.new; q = into_q.new; d = into_d.new } }
{
    *into_p = l.p;
    *into_q = l.q;
    *into_d = l.d;
}

// An outlook into eight lent numbers.
fn tell_outlook(
    o: Outlook,
    slow_p: &mut i64,
    slow_q: &mut i64,
    slow_d: &mut i64,
    fast_p: &mut i64,
    fast_q: &mut i64,
    fast_d: &mut i64,
    some: &mut u64,
    all: &mut u64,
)
    ensures { eight slow_p.new slow_q.new slow_d.new fast_p.new fast_q.new fast_d.new some.new all.new ≡ outlook_numbers (outlook_of o) }
{
    let row = OutlookRow::from(o);
    tell_line(row.slow, slow_p, slow_q, slow_d);
    tell_line(row.fast, fast_p, fast_q, fast_d);
    *some = row.some;
    *all = row.all;
}

// An answer of Preview: the kind, 0 where the range joins the last segment and 1 where it begins one, and the outlook.
pub fn tell_preview(
    answer: Result<Effect, Refusal>,
    kind: &mut u32,
    slow_p: &mut i64,
    slow_q: &mut i64,
    slow_d: &mut i64,
    fast_p: &mut i64,
    fast_q: &mut i64,
    fast_d: &mut i64,
    some: &mut u64,
    all: &mut u64,
) -> u8
    ensures { PreviewTold answer kind.old (eight slow_p.old slow_q.old slow_d.old fast_p.old fast_q.old fast_d.old some.old all.old) kind.new (eight slow_p.new slow_q.new slow_d.new fast_p.new fast_q.new fast_d.new some.new all.new) result }
{
    match answer {
        Ok(effect) => match effect {
            Effect::Joins(o) => {
                *kind = 0;
                tell_outlook(o, slow_p, slow_q, slow_d, fast_p, fast_q, fast_d, some, all);
                0
            }
            Effect::Begins(o) => {
                *kind = 1;
                tell_outlook(o, slow_p, slow_q, slow_d, fast_p, fast_q, fast_d, some, all);
                0
            }
        },
        Err(bad_range) => u8::from(bad_range),
    }
}

// An answer of Latest: how many ranges the trend has, its outlook, and the count of its corners.
pub fn tell_latest(
    answer: Result<Trend, Refusal>,
    ranges: &mut usize,
    slow_p: &mut i64,
    slow_q: &mut i64,
    slow_d: &mut i64,
    fast_p: &mut i64,
    fast_q: &mut i64,
    fast_d: &mut i64,
    some: &mut u64,
    all: &mut u64,
    corners: &mut usize,
) -> u8
    ensures { LatestTold answer ranges.old (eight slow_p.old slow_q.old slow_d.old fast_p.old fast_q.old fast_d.old some.old all.old) corners.old ranges.new (eight slow_p.new slow_q.new slow_d.new fast_p.new fast_q.new fast_d.new some.new all.new) corners.new result }
{
    match answer {
        Ok(trend) => {
            *ranges = trend.ranges;
            tell_outlook(
                trend.outlook,
                slow_p,
                slow_q,
                slow_d,
                fast_p,
                fast_q,
                fast_d,
                some,
                all,
            );
            *corners = trend.corners;
            0
        }
        Err(bad_trace) => u8::from(bad_trace),
    }
}

// An answer of Add: the number alone.
pub fn add_number(answer: Result<(), Refusal>) -> u8
    ensures { result ≡ refusal (answered answer) }
{
    match answer {
        Ok(()) => 0,
        Err(not_added) => u8::from(not_added),
    }
}
