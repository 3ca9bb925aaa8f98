// A call of Segment, and what is written of its answer.
use crate::rows::{Columns, OLD, OLD_LINE};
use definitions::limits::SEGMENT_ROOM;
use definitions::refusals::Refusal;
use drift::segment;
use testing::lists::lent;
use testing::telling::Seen;

// As many rows are written from the start on, and the last one.
const SHOWN: usize = 6;

fn tell_end(rt: &impl Print, answer: Result<usize, Refusal>, seen: Seen) {
    match answer {
        Ok(count) => {
            let _ = print!(rt; "segments {count}, digest {}", seen.digest);
        }
        Err(refusal) => {
            let _ = print!(rt; "refused {}", u8::from(refusal));
        }
    }
    let _ = println!(rt; ", rest {}", seen.rest());
}

// Writes what the slices hold, place by place.
fn see_all(rt: &impl Print, count: usize, columns: Columns<'_>) -> Seen {
    let mut seen = Seen::nothing();
    for place in 0..SEGMENT_ROOM {
        seen.show(rt, columns.numbers(place), place, count, SHOWN);
    }
    seen
}

// Calls Segment, and writes all there is to its answer. The slices are as long as they have to be, but for one of
// them, counted from 0, that is one too short; from 11 on, none is.
pub fn tell(
    rt: &impl Print,
    short: usize,
    level: i32,
    direction: u32,
    step: u32,
    times: &[u32],
    lows: &[i32],
    highs: &[i32],
) {
    let mut first_times = [OLD.first_time; SEGMENT_ROOM];
    let mut last_times = [OLD.last_time; SEGMENT_ROOM];
    let mut counts = [OLD.count; SEGMENT_ROOM];
    let mut slow_ps = [OLD_LINE.p; SEGMENT_ROOM];
    let mut slow_qs = [OLD_LINE.q; SEGMENT_ROOM];
    let mut slow_ds = [OLD_LINE.d; SEGMENT_ROOM];
    let mut fast_ps = [OLD_LINE.p; SEGMENT_ROOM];
    let mut fast_qs = [OLD_LINE.q; SEGMENT_ROOM];
    let mut fast_ds = [OLD_LINE.d; SEGMENT_ROOM];
    let mut somes = [OLD.outlook.some; SEGMENT_ROOM];
    let mut alls = [OLD.outlook.all; SEGMENT_ROOM];
    let answer = segment(
        level,
        direction,
        step,
        times,
        lows,
        highs,
        lent(&mut first_times, short == 0),
        lent(&mut last_times, short == 1),
        lent(&mut counts, short == 2),
        lent(&mut slow_ps, short == 3),
        lent(&mut slow_qs, short == 4),
        lent(&mut slow_ds, short == 5),
        lent(&mut fast_ps, short == 6),
        lent(&mut fast_qs, short == 7),
        lent(&mut fast_ds, short == 8),
        lent(&mut somes, short == 9),
        lent(&mut alls, short == 10),
    );
    let columns = Columns {
        first_times: &first_times,
        last_times: &last_times,
        counts: &counts,
        slow_ps: &slow_ps,
        slow_qs: &slow_qs,
        slow_ds: &slow_ds,
        fast_ps: &fast_ps,
        fast_qs: &fast_qs,
        fast_ds: &fast_ds,
        somes: &somes,
        alls: &alls,
    };
    let seen = see_all(rt, answer.unwrap_or(0), columns);
    tell_end(rt, answer, seen);
}
