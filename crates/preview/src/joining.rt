// The last run of some lists with one range more.
ghost use Rattle.std.specs.Prelude.{◌<◌, ◌≤◌, length};
ghost use Rattle.definitions.specs.Spans.{most_ranges};
ghost use Rattle.definitions.specs.Previews.{longer};
ghost use Rattle.trial_laws.specs.Accepted.{AcceptedLists};
ghost use Rattle.drift_laws.specs.RangeEnds.{lent};
ghost use Rattle.fit.specs.RangesByValue.{range_of};
ghost use Rattle.fit.specs.ChainsOfEnds.{chain_of};
ghost use Rattle.fit.specs.LastRuns.{LastRun};
ghost use Rattle.preview.specs.LongerRuns.{RunWith};

use fit::cut::begin;
use fit::ends::{End, Range, range_at};
use fit::last_run::Found;
use fit::polygon::Polygon;
use fit::run::run_on;

// The polygon of the last run with the range, if that joins it.
pub fn run_with(
    times: &[u32],
    highs: &[i32],
    lows: &[i32],
    up: &mut [End],
    down: &mut [End],
    last: Found,
    r: Range,
) -> Option<Polygon>
    requires { (AcceptedLists (longer (lent times.now highs.now lows.now) (range_of r))) × (LastRun (lent times.now highs.now lows.now) (length times.now) (chain_of up.old) (chain_of down.old) last) × (length times.now < most_ranges) × (most_ranges ≤ length up.old) × (most_ranges ≤ length down.old) }
    ensures { RunWith (lent times.now highs.now lows.now) (range_of r) last.start (chain_of up.new) (chain_of down.new) result }
{
    let Some(before) = last.polygon else {
        let first = range_at(times, highs, lows, last.start);
        return Some(begin(up, down, first, r));
    };
    let more = run_on(&[r.time], &[r.high], &[r.low], up, down, Some(before), 0, 1);
    if more.end == 0 { None } else { more.polygon }
}
