// One panel, many heads: Add and Head ranges.
#![tactic(auto)]

pub mod entries; // entries.rt: the lent list of entries, one for each detector
pub mod lists; // lists.rt: one head's ranges, copied into lent lists
pub mod places; // places.rt: a range put at a place

ghost use Rattle.std.specs.Prelude.{◌≡◌};
ghost use Rattle.panel.specs.Promises.{AddPromise, HeadRangesPromise};

use crate::entries::set_held;
use crate::lists::copy_head;
use crate::places::put_range;
use definitions::entries::Entry;
use definitions::refusals::Refusal;
use panel_trial::decisions::{decide, try_panel};
use panel_trial::tallies::total_of;

// Tries a range of a head, and adds it to the panel if nothing turns it down.
pub fn add(
    entries: &mut [Entry],
    addresses: &mut [u32],
    times: &mut [u32],
    lows: &mut [i32],
    highs: &mut [i32],
    address: u32,
    time: u32,
    low: i32,
    high: i32,
) -> Result<(), Refusal>
    ensures { AddPromise (record { entries = entries.entry.now; places = record { addresses = addresses.entry.now; times = times.old; lows = lows.old; highs = highs.old } }) address (record { time = time; low = low; high = high }) result (record { entries = entries.exit.now; places = record { addresses = addresses.exit.now; times = times.new; lows = lows.new; highs = highs.new } }) }
{
    let lengths = [addresses.len(), times.len(), lows.len(), highs.len()];
    let decision = decide(
        &lengths, entries, addresses, times, address, time, low, high,
    )?;
    let at = decision.place;
    put_range(addresses, times, lows, highs, at, address, time, low, high);
    set_held(entries, decision.at, decision.held);
    Ok(())
}

// Fills three lists with the ranges of one head in order of acceptance, and gives their number.
pub fn head_ranges(
    entries: &[Entry],
    addresses: &[u32],
    times: &[u32],
    lows: &[i32],
    highs: &[i32],
    address: u32,
    into_times: &mut [u32],
    into_lows: &mut [i32],
    into_highs: &mut [i32],
) -> Result<usize, Refusal>
    ensures { HeadRangesPromise (record { entries = entries.entry.now; places = record { addresses = addresses.entry.now; times = times.entry.now; lows = lows.now; highs = highs.now } }) address (record { times = into_times.old; lows = into_lows.old; highs = into_highs.old }) (record { times = into_times.new; lows = into_lows.new; highs = into_highs.new }) result }
{
    let lengths = [
        addresses.len(),
        times.len(),
        lows.len(),
        highs.len(),
        into_times.len(),
        into_lows.len(),
        into_highs.len(),
    ];
    try_panel(&lengths, entries, addresses, address)?;
    let total = total_of(entries) as usize;
    let count = copy_head(
        &addresses[..total],
        &times[..total],
        &lows[..total],
        &highs[..total],
        address,
        into_times,
        into_lows,
        into_highs,
    );
    Ok(count)
}
