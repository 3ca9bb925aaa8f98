// One head's ranges, copied into lent lists.
ghost use Rattle.std.specs.Prelude.{◌≡◌, ◌<◌};
ghost use Rattle.definitions.specs.Panels.{counted_in};
ghost use Rattle.trial_laws.specs.RangeLists.{range_at};
ghost use Rattle.panel.specs.Copies.{InEach, CopiedIf, SameLengths, Copied};

use fields::places::store;

// Copies the k-th range to `at`, if it is to be taken.
fn copy_if(
    take: bool,
    times: &[u32],
    lows: &[i32],
    highs: &[i32],
    k: usize,
    into_times: &mut [u32],
    into_lows: &mut [i32],
    into_highs: &mut [i32],
    at: usize,
)
    requires { InEach k times.now lows.now highs.now }
    ensures { CopiedIf take at (range_at (record { times = times.entry.now; lows = lows.now; highs = highs.now }) k) (record { times = into_times.old; lows = into_lows.old; highs = into_highs.old }) (record { times = into_times.new; lows = into_lows.new; highs = into_highs.new }) }
{
    if take {
        let time = times[k];
        let low = lows[k];
        let high = highs[k];
        store(into_times, at, time);
        store(into_lows, at, low);
        store(into_highs, at, high);
    }
}

// One more, if it is taken.
fn after(take: bool, at: usize) -> usize
    requires { at < 18446744073709551615 }
    ensures { result ≡ counted_in take at }
{
    if take { at + 1 } else { at }
}

// Copies the ranges of an address, in their order, and gives their number.
pub fn copy_head(
    addresses: &[u32],
    times: &[u32],
    lows: &[i32],
    highs: &[i32],
    address: u32,
    into_times: &mut [u32],
    into_lows: &mut [i32],
    into_highs: &mut [i32],
) -> usize
    requires { SameLengths addresses.now times.now lows.now highs.now }
    ensures { Copied address addresses.now times.entry.now lows.now highs.now result (record { times = into_times.old; lows = into_lows.old; highs = into_highs.old }) (record { times = into_times.new; lows = into_lows.new; highs = into_highs.new }) }
{
    let mut at = 0;
    for k in 0..addresses.len() {
        let take = addresses[k] == address;
        copy_if(
            take, times, lows, highs, k, into_times, into_lows, into_highs, at,
        );
        at = after(take, at);
    }
    at
}
