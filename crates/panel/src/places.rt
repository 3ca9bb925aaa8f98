// A range put at a place of a panel's lists.
ghost use Rattle.panel.specs.Admissions.{Within, Put};

// Puts a range at the place `at` of the four lists.
pub fn put_range(
    addresses: &mut [u32],
    times: &mut [u32],
    lows: &mut [i32],
    highs: &mut [i32],
    at: usize,
    address: u32,
    time: u32,
    low: i32,
    high: i32,
)
    requires { Within at (record { addresses = addresses.now; times = times.old; lows = lows.old; highs = highs.old }) }
    ensures { Put at address (record { time = time; low = low; high = high }) (record { addresses = addresses.entry.now; times = times.old; lows = lows.old; highs = highs.old }) (record { addresses = addresses.exit.now; times = times.new; lows = lows.new; highs = highs.new }) }
{
    addresses[at] = address;
    times[at] = time;
    lows[at] = low;
    highs[at] = high;
}
