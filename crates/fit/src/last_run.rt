// The segment then running after the first k ranges: from run to run, until one goes up to range k.
ghost use Rattle.std.specs.Prelude.{◌<◌, ◌≤◌, length};
ghost use Rattle.trial_laws.specs.Accepted.{AcceptedLists};
ghost use Rattle.drift_laws.specs.RangeEnds.{lent};
ghost use Rattle.fit.specs.ChainsOfEnds.{chain_of};
ghost use Rattle.fit.specs.LastRuns.{LastRun};

use crate::ends::End;
use crate::polygon::Polygon;
use crate::run::run_from;

// The number of its first range, and its polygon; one range has none.
#[derive(Clone, Copy)]
pub struct Found {
    pub start: usize,
    pub polygon: Option<Polygon>,
}

pub fn last_run(
    times: &[u32],
    highs: &[i32],
    lows: &[i32],
    up: &mut [End],
    down: &mut [End],
    k: usize,
) -> Found
    requires { (AcceptedLists (lent times.now highs.now lows.now)) × (0 < k) × (k ≤ length times.now) × (k ≤ length up.old) × (k ≤ length down.old) }
    ensures { LastRun (lent times.now highs.now lows.now) k (chain_of up.new) (chain_of down.new) result }
{
    let mut start = 0;
    // a turn goes on by a whole run
    loop {
        let reach = run_from(times, highs, lows, up, down, start, k);
        if k <= reach.end {
            return Found {
                start,
                polygon: reach.polygon,
            };
        }
        start = reach.end;
    }
}
