// The segments of a trace, their outlooks, and the corners of the fit. Only the calls are open to outsiders.
#![tactic(auto)]

mod filling; // filling.rt: every segment into the lent slices

ghost use Rattle.drift.specs.Columns.{columns};
ghost use Rattle.drift.specs.SegmentPromise.{SegmentPromise};
ghost use Rattle.drift.specs.CornersPromise.{CornersPromise};

use definitions::limits::{CORNER_ROOM, MOST_RANGES, SEGMENT_ROOM};
use definitions::refusals::Refusal;
use fit::ends::NO_END;
use trial::some_short;

// The scope's Segment.
pub fn segment(
    level: i32,
    direction: u32,
    step: u32,
    times: &[u32],
    lows: &[i32],
    highs: &[i32],
    first_times: &mut [u32],
    last_times: &mut [u32],
    counts: &mut [u32],
    slow_ps: &mut [i64],
    slow_qs: &mut [i64],
    slow_ds: &mut [i64],
    fast_ps: &mut [i64],
    fast_qs: &mut [i64],
    fast_ds: &mut [i64],
    somes: &mut [u64],
    alls: &mut [u64],
) -> Result<usize, Refusal>
    ensures { SegmentPromise (record { level = level; direction = direction; step = step }) (record { times = times.entry.now; lows = lows.now; highs = highs.now }) (columns first_times.old last_times.old counts.old slow_ps.old slow_qs.old slow_ds.old fast_ps.old fast_qs.old fast_ds.old somes.old alls.old) (columns first_times.new last_times.new counts.new slow_ps.new slow_qs.new slow_ds.new fast_ps.new fast_qs.new fast_ds.new somes.new alls.new) result }
{
    let lengths = [
        first_times.len(),
        last_times.len(),
        counts.len(),
        slow_ps.len(),
        slow_qs.len(),
        slow_ds.len(),
        fast_ps.len(),
        fast_qs.len(),
        fast_ds.len(),
        somes.len(),
        alls.len(),
    ];
    let short = some_short(SEGMENT_ROOM, &lengths);
    let outside = trial::service_outside(level, direction, step);
    trial::try_lists(short, outside, times, lows, highs)?;
    let v = values::Service::new(level, direction, step);
    let count = filling::fill(
        v,
        times,
        lows,
        highs,
        first_times,
        last_times,
        counts,
        slow_ps,
        slow_qs,
        slow_ds,
        fast_ps,
        fast_qs,
        fast_ds,
        somes,
        alls,
    );
    Ok(count)
}

// The scope's Corners after the first k ranges.
pub fn corners(
    k: usize,
    times: &[u32],
    lows: &[i32],
    highs: &[i32],
    ps: &mut [i64],
    qs: &mut [i64],
    ds: &mut [i64],
) -> Result<Option<usize>, Refusal>
    ensures { CornersPromise k (record { times = times.entry.now; lows = lows.now; highs = highs.now }) ps.old qs.old ds.old ps.new qs.new ds.new result }
{
    let short = some_short(CORNER_ROOM, &[ps.len(), qs.len(), ds.len()]);
    trial::try_lists(short, false, times, lows, highs)?;
    if trial::count_outside(k, times.len()) {
        return Err(Refusal::NoFirstRanges);
    }
    let mut up = [NO_END; MOST_RANGES];
    let mut down = [NO_END; MOST_RANGES];
    let found = fit::last_run::last_run(times, highs, lows, &mut up, &mut down, k);
    let Some(polygon) = found.polygon else {
        return Ok(None);
    };
    let count = corner_list::list_corners(&up, &down, polygon, ps, qs, ds);
    Ok(Some(count))
}
