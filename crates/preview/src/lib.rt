// The effect of a range, seen before it is added. Only the call is open to outsiders.
#![tactic(auto)]

mod joining; // joining.rt: the last run with one range more

ghost use Rattle.values.specs.Meanings.{service_of};
ghost use Rattle.fit.specs.RangesByValue.{range_of};
ghost use Rattle.preview.specs.PreviewPromise.{PreviewPromise};
ghost use Rattle.preview.specs.FoundEffects.{Unrefused, EffectGiven};

use definitions::limits::MOST_RANGES;
use definitions::refusals::Refusal;
use fit::ends::{NO_END, Range};
use fit::last_run::last_run;
use joining::run_with;
use values::reaching::outlook_of;
use values::{Outlook, Service};

// The range joins the last segment, or begins one; with the outlook of the last segment then.
#[derive(Clone, Copy)]
pub enum Effect {
    Joins(Outlook),
    Begins(Outlook),
}

// The effect of a range that is not refused on lists that are not empty.
fn find_effect(v: Service, times: &[u32], lows: &[i32], highs: &[i32], r: Range) -> Effect
    requires { Unrefused (service_of v) (record { times = times.now; lows = lows.now; highs = highs.now }) (range_of r) }
    ensures { EffectGiven (service_of v) (record { times = times.entry.now; lows = lows.now; highs = highs.now }) (range_of r) result }
{
    let mut up = [NO_END; MOST_RANGES];
    let mut down = [NO_END; MOST_RANGES];
    let n = times.len();
    let last = last_run(times, highs, lows, &mut up, &mut down, n);
    let Some(polygon) = run_with(times, highs, lows, &mut up, &mut down, last, r) else {
        return Effect::Begins(Outlook::Open);
    };
    let outlook = outlook_of(polygon.slow, polygon.fast, v, r.time);
    Effect::Joins(outlook)
}

// The scope's Preview.
pub fn preview(
    level: i32,
    direction: u32,
    step: u32,
    times: &[u32],
    lows: &[i32],
    highs: &[i32],
    time: u32,
    low: i32,
    high: i32,
) -> Result<Effect, Refusal>
    ensures { PreviewPromise (record { level = level; direction = direction; step = step }) (record { times = times.entry.now; lows = lows.now; highs = highs.now }) (record { time = time; low = low; high = high }) result }
{
    let outside = trial::service_outside(level, direction, step);
    trial::try_longer(outside, times, lows, highs, time, low, high)?;
    if times.len() == 0 {
        return Ok(Effect::Begins(Outlook::Open));
    }
    let v = Service::new(level, direction, step);
    let r = Range { time, low, high };
    Ok(find_effect(v, times, lows, highs, r))
}
