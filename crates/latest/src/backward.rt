// Where the latest run begins: a fit that goes forward over the trace read from its end.
ghost use Rattle.std.specs.Prelude.{◌<◌, ◌≤◌, length};
ghost use Rattle.definitions.specs.Spans.{most_ranges};
ghost use Rattle.trial_laws.specs.Accepted.{AcceptedLists};
ghost use Rattle.drift_laws.specs.RangeEnds.{lent};
ghost use Rattle.latest.specs.ReadBackward.{RoomFor, ReadBackward};
ghost use Rattle.latest.specs.LatestStarts.{LatestStart};

use definitions::limits::{MOST_RANGES, MOST_TIME};
use fit::ends::End;
use fit::run::run_from;

// Copies the ranges from the last to the first, each with the time that is left from its own to the last that there is: the copy's times rise again.
fn read_backward(
    times: &[u32],
    highs: &[i32],
    lows: &[i32],
    back_times: &mut [u32],
    back_highs: &mut [i32],
    back_lows: &mut [i32],
)
    requires { RoomFor (lent times.now highs.now lows.now) (lent back_times.old back_highs.old back_lows.old) }
    ensures { ReadBackward (lent times.now highs.now lows.now) (lent back_times.new back_highs.new back_lows.new) }
{
    let n = times.len();
    for k in 0..n {
        let from = n - 1 - k;
        back_times[k] = MOST_TIME - times[from];
        back_highs[k] = highs[from];
        back_lows[k] = lows[from];
    }
}

// The number of the latest run's first range, in a trace that has some.
pub fn latest_start(
    times: &[u32],
    highs: &[i32],
    lows: &[i32],
    up: &mut [End],
    down: &mut [End],
) -> usize
    requires { (AcceptedLists (lent times.now highs.now lows.now)) × (0 < length times.now) × (length times.now ≤ most_ranges) × (most_ranges ≤ length up.old) × (most_ranges ≤ length down.old) }
    ensures { LatestStart (lent times.now highs.now lows.now) result }
{
    // three lists, as a run is found in three
    let mut back_times = [0u32; MOST_RANGES];
    let mut back_highs = [0i32; MOST_RANGES];
    let mut back_lows = [0i32; MOST_RANGES];
    read_backward(
        times,
        highs,
        lows,
        &mut back_times,
        &mut back_highs,
        &mut back_lows,
    );
    let n = times.len();
    let back = run_from(
        &back_times[..n],
        &back_highs[..n],
        &back_lows[..n],
        up,
        down,
        0,
        n,
    );
    n - back.end
}
