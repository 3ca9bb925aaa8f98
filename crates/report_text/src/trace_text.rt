// The report of a trace that was read: its segments, and a line for each.
ghost use Rattle.std.specs.Prelude.{◌≡◌, ◌+◌, ◌≤◌, ◌<◌, length};
ghost use Rattle.definitions.specs.Spans.{segment_room};
ghost use Rattle.definitions.specs.Report.{report_room};
ghost use Rattle.values.specs.Rows.{row_of};
ghost use Rattle.drift.specs.Columns.{columns, Room, row_at};
ghost use Rattle.text.specs.Put.{Put};
ghost use Rattle.report_text.specs.Lines.{lines_from, RowsReady, lists_text};

use crate::report_lines::{put_heading, put_refused, put_segment};
use definitions::limits::SEGMENT_ROOM;
use drift::segment;
use values::rows::{OutlookRow, Row};
use values::{Line, Segment};

// The row at a place of the slices that Segment filled.
fn row_at(
    first_times: &[u32],
    last_times: &[u32],
    counts: &[u32],
    slow_ps: &[i64],
    slow_qs: &[i64],
    slow_ds: &[i64],
    fast_ps: &[i64],
    fast_qs: &[i64],
    fast_ds: &[i64],
    somes: &[u64],
    alls: &[u64],
    j: usize,
) -> Row
    requires { (Room (j + 1) (columns first_times.now last_times.now counts.now slow_ps.now slow_qs.now slow_ds.now fast_ps.now fast_qs.now fast_ds.now somes.now alls.now)) × (j < segment_room) }
    ensures { row_of result ≡ row_at (columns first_times.now last_times.now counts.now slow_ps.now slow_qs.now slow_ds.now fast_ps.now fast_qs.now fast_ds.now somes.now alls.now) j }
{
    let slow = Line {
        p: slow_ps[j],
        q: slow_qs[j],
        d: slow_ds[j],
    };
    let fast = Line {
        p: fast_ps[j],
        q: fast_qs[j],
        d: fast_ds[j],
    };
    Row {
        first_time: first_times[j],
        last_time: last_times[j],
        count: counts[j],
        outlook: OutlookRow {
            slow,
            fast,
            some: somes[j],
            all: alls[j],
        },
    }
}

// A line for each of the first rows of the slices that Segment filled.
fn put_segments(
    text: &mut [u8],
    from: usize,
    rows: usize,
    first_times: &[u32],
    last_times: &[u32],
    counts: &[u32],
    slow_ps: &[i64],
    slow_qs: &[i64],
    slow_ds: &[i64],
    fast_ps: &[i64],
    fast_qs: &[i64],
    fast_ds: &[i64],
    somes: &[u64],
    alls: &[u64],
) -> usize
    requires { RowsReady from rows text.old (columns first_times.now last_times.now counts.now slow_ps.now slow_qs.now slow_ds.now fast_ps.now fast_qs.now fast_ds.now somes.now alls.now) }
    ensures { Put from (lines_from (columns first_times.now last_times.now counts.now slow_ps.now slow_qs.now slow_ds.now fast_ps.now fast_qs.now fast_ds.now somes.now alls.now) rows) text.old result text.new }
{
    let mut at = from;
    for j in 0..rows {
        let row = row_at(
            first_times,
            last_times,
            counts,
            slow_ps,
            slow_qs,
            slow_ds,
            fast_ps,
            fast_qs,
            fast_ds,
            somes,
            alls,
            j,
        );
        at = put_segment(text, at, j as u32 + 1, Segment::from(row));
    }
    at
}

// The lines of a trace, at the start of the text.
pub fn put_trace(
    text: &mut [u8],
    address: u32,
    level: i32,
    direction: u32,
    step: u32,
    times: &[u32],
    lows: &[i32],
    highs: &[i32],
) -> usize
    requires { report_room ≤ length text.old }
    ensures { Put 0 (lists_text address (record { level = level; direction = direction; step = step }) (record { times = times.entry.now; lows = lows.now; highs = highs.now })) text.old result text.new }
{
    let mut first_times = [0u32; SEGMENT_ROOM];
    let mut last_times = [0u32; SEGMENT_ROOM];
    let mut counts = [0u32; SEGMENT_ROOM];
    let mut slow_ps = [0i64; SEGMENT_ROOM];
    let mut slow_qs = [0i64; SEGMENT_ROOM];
    let mut slow_ds = [0i64; SEGMENT_ROOM];
    let mut fast_ps = [0i64; SEGMENT_ROOM];
    let mut fast_qs = [0i64; SEGMENT_ROOM];
    let mut fast_ds = [0i64; SEGMENT_ROOM];
    let mut somes = [0u64; SEGMENT_ROOM];
    let mut alls = [0u64; SEGMENT_ROOM];
    let answer = segment(
        level,
        direction,
        step,
        times,
        lows,
        highs,
        &mut first_times,
        &mut last_times,
        &mut counts,
        &mut slow_ps,
        &mut slow_qs,
        &mut slow_ds,
        &mut fast_ps,
        &mut fast_qs,
        &mut fast_ds,
        &mut somes,
        &mut alls,
    );
    match answer {
        Err(refusal) => put_refused(text, 0, u8::from(refusal)),
        Ok(rows) => {
            let next = put_heading(text, 0, address, level, times.len(), rows);
            put_segments(
                text,
                next,
                rows,
                &first_times,
                &last_times,
                &counts,
                &slow_ps,
                &slow_qs,
                &slow_ds,
                &fast_ps,
                &fast_qs,
                &fast_ds,
                &somes,
                &alls,
            )
        }
    }
}
