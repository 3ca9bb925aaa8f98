// Every segment into the lent slices.
ghost use Rattle.definitions.specs.Ranges.{ranges_of};
ghost use Rattle.definitions.specs.Results.{segments_of};
ghost use Rattle.fit.specs.ChainsOfEnds.{chain_of};
ghost use Rattle.values.specs.Meanings.{service_of, segment_of};
ghost use Rattle.drift.specs.Columns.{columns, AllStored};
ghost use Rattle.drift.specs.Filling.{StartReady, FillReady, NextSegment};

use definitions::limits::MOST_RANGES;
use fit::ends::{End, NO_END};
use fit::run::run_from;
use values::reaching::outlook_of;
use values::rows::Row;
use values::storing::store_line;
use values::{Outlook, Segment, Service};

// The segment that begins at a range: the run from there on, and its outlook.
fn segment_from(
    v: Service,
    times: &[u32],
    lows: &[i32],
    highs: &[i32],
    up: &mut [End],
    down: &mut [End],
    start: usize,
) -> Segment
    requires { StartReady (service_of v) (record { times = times.now; lows = lows.now; highs = highs.now }) (chain_of up.old) (chain_of down.old) start }
    ensures { NextSegment (service_of v) (record { times = times.entry.now; lows = lows.now; highs = highs.now }) start (segment_of result) }
{
    let n = times.len();
    let found = run_from(times, highs, lows, up, down, start, n);
    let last_time = times[found.end - 1];
    let outlook = match found.polygon {
        Some(polygon) => outlook_of(polygon.slow, polygon.fast, v, last_time),
        None => Outlook::Open,
    };
    Segment {
        first_time: times[start],
        last_time,
        count: (found.end - start) as u32,
        outlook,
    }
}

// Stores each segment at its place, and counts them. The two arrays hold the chains of the run at hand.
pub fn fill(
    v: Service,
    times: &[u32],
    lows: &[i32],
    highs: &[i32],
    first_times: &mut [u32],
    last_times: &mut [u32],
    counts: &mut [u32],
    slow_ps: &mut [i64],
    slow_qs: &mut [i64],
    slow_ds: &mut [i64],
    fast_ps: &mut [i64],
    fast_qs: &mut [i64],
    fast_ds: &mut [i64],
    somes: &mut [u64],
    alls: &mut [u64],
) -> usize
    requires { FillReady (service_of v) (record { times = times.now; lows = lows.now; highs = highs.now }) (columns first_times.old last_times.old counts.old slow_ps.old slow_qs.old slow_ds.old fast_ps.old fast_qs.old fast_ds.old somes.old alls.old) }
    ensures { AllStored result (segments_of (service_of v) (ranges_of (record { times = times.entry.now; lows = lows.now; highs = highs.now }))) (columns first_times.old last_times.old counts.old slow_ps.old slow_qs.old slow_ds.old fast_ps.old fast_qs.old fast_ds.old somes.old alls.old) (columns first_times.new last_times.new counts.new slow_ps.new slow_qs.new slow_ds.new fast_ps.new fast_qs.new fast_ds.new somes.new alls.new) }
{
    let mut up = [NO_END; MOST_RANGES];
    let mut down = [NO_END; MOST_RANGES];
    let mut start = 0;
    let mut count = 0;
    // a turn goes on by a whole run
    while start < times.len() {
        let segment = segment_from(v, times, lows, highs, &mut up, &mut down, start);
        let ranges = segment.count as usize;
        let row = Row::from(segment);
        first_times[count] = row.first_time;
        last_times[count] = row.last_time;
        counts[count] = row.count;
        let outlook = row.outlook;
        store_line(slow_ps, slow_qs, slow_ds, count, outlook.slow);
        store_line(fast_ps, fast_qs, fast_ds, count, outlook.fast);
        somes[count] = outlook.some;
        alls[count] = outlook.all;
        start += ranges;
        count += 1;
    }
    count
}
