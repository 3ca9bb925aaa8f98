// The latest trend of a trace: the longest run at its end that some line fits, its outlook and its corners. Only the call is open to outsiders.
#![tactic(auto)]

mod backward; // backward.rt: where the latest run begins

ghost use Rattle.values.specs.Meanings.{service_of};
ghost use Rattle.latest.specs.LatestPromise.{LatestPromise};
ghost use Rattle.latest.specs.FoundTrends.{Ready, TrendGiven};

use backward::latest_start;
use corner_list::list_corners;
use definitions::limits::{CORNER_ROOM, MOST_RANGES};
use definitions::refusals::Refusal;
use fit::ends::NO_END;
use fit::run::run_from;
use trial::some_short;
use values::reaching::outlook_of;
use values::{Outlook, Service};

// The number of ranges of the latest run, its outlook, and the number of its corners.
#[derive(Clone, Copy)]
pub struct Trend {
    pub ranges: usize,
    pub outlook: Outlook,
    pub corners: usize,
}

// The trend of two ranges or more: where the latest run begins, the fit from there on, and its corners into the slices.
fn find_trend(
    v: Service,
    times: &[u32],
    lows: &[i32],
    highs: &[i32],
    ps: &mut [i64],
    qs: &mut [i64],
    ds: &mut [i64],
) -> Trend
    requires { Ready (service_of v) (record { times = times.now; lows = lows.now; highs = highs.now }) ps.old qs.old ds.old }
    ensures { TrendGiven (service_of v) (record { times = times.entry.now; lows = lows.now; highs = highs.now }) ps.old qs.old ds.old ps.new qs.new ds.new result }
{
    let mut up = [NO_END; MOST_RANGES];
    let mut down = [NO_END; MOST_RANGES];
    let start = latest_start(times, highs, lows, &mut up, &mut down);
    let n = times.len();
    let run = run_from(times, highs, lows, &mut up, &mut down, start, n);
    let polygon = run.polygon.unwrap();
    let outlook = outlook_of(polygon.slow, polygon.fast, v, times[n - 1]);
    let corners = list_corners(&up, &down, polygon, ps, qs, ds);
    Trend {
        ranges: n - start,
        outlook,
        corners,
    }
}

// The scope's Latest.
pub fn latest(
    level: i32,
    direction: u32,
    step: u32,
    times: &[u32],
    lows: &[i32],
    highs: &[i32],
    ps: &mut [i64],
    qs: &mut [i64],
    ds: &mut [i64],
) -> Result<Trend, Refusal>
    ensures { LatestPromise (record { level = level; direction = direction; step = step }) (record { times = times.entry.now; lows = lows.now; highs = highs.now }) ps.old qs.old ds.old ps.new qs.new ds.new result }
{
    let short = some_short(CORNER_ROOM, &[ps.len(), qs.len(), ds.len()]);
    let outside = trial::service_outside(level, direction, step);
    trial::try_lists(short, outside, times, lows, highs)?;
    let n = times.len();
    if n < 2 {
        return Ok(Trend {
            ranges: n,
            outlook: Outlook::Open,
            corners: 0,
        });
    }
    let v = Service::new(level, direction, step);
    Ok(find_trend(v, times, lows, highs, ps, qs, ds))
}
