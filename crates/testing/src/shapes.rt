// Long traces by formula: range k of each shape, for any k.
ghost use Rattle.std.specs.Prelude.{◌<◌, ◌≤◌};

use definitions::limits::MOST_RANGES;
use fields::places::store;

#[derive(Clone, Copy)]
pub enum Shape {
    // one segment with as many corners as there can be: all highs and all lows are on a hull, and each edge counts
    Bowl,
    // the same, but so narrow in the middle that few corners are left
    Waist,
    // points, no three of them on a line
    Parabola,
    // every value in every range
    Full,
    // points, from the least value to the largest and back
    Zigzag,
    // a slowly bending line at ragged times that falls back at every third hundredth range, small numbers
    Drift,
    // a rising line at ragged times that falls back at every hundredth range, large numbers
    Swings,
}

// A range by how far it is after its due time, and how far its low and high are above the least value.
#[derive(Clone, Copy)]
struct Band {
    late: u64,
    low: u64,
    high: u64,
}

// First time and gap of 4,096 times that end with the last time of all: as far apart as they can be, and one apart.
pub const WIDE_FIRST: u64 = 4350;

pub const WIDE: u64 = 1048831;

pub const LATE_FIRST: u64 = 4294963200;

// The widest gap of ragged times.
pub const WIDE_RAGGED: u64 = 1048575;

// One range more than a trace may have.
pub const MOST_MADE: usize = MOST_RANGES + 1;

// The largest value, and how far 0 is above the least.
const TOP: u64 = 268435456;

// a·b for a below 8,192 and b below 2,097,152.
fn product(a: u64, b: u64) -> u64
    ensures { result < 17179869184 }
{
    a % 8192 * (b % 2097152)
}

// A number below the span, or 0 where that is 0, in no visible order.
fn scattered(k: u64, salt: u64, span: u64) -> u64
    ensures { result ≤ span }
{
    let x = (product(k, k) * 7919 + product(k, salt)) % 9999991;
    if span == 0 { 0 } else { x % span }
}

fn bowl(k: u64, waist: u64) -> Band {
    let away = if k < 2048 { 2048 - k } else { k - 2048 };
    let height = (product(away, away) + waist % TOP) % TOP;
    Band {
        late: 0,
        low: TOP - height,
        high: TOP + height,
    }
}

fn point(height: u64) -> Band {
    Band {
        late: 0,
        low: height,
        high: height,
    }
}

fn drift(k: u64, gap: u64) -> Band {
    let j = k % 300;
    let middle = TOP - 40 + product(j, j) / 900 % 100;
    Band {
        late: scattered(k, 1, gap),
        low: middle - scattered(k, 2, 4),
        high: middle + scattered(k, 3, 5),
    }
}

fn swings(k: u64, gap: u64) -> Band {
    let middle = 20000000 + k % 100 * 5000000;
    Band {
        late: scattered(k, 1, gap),
        low: middle - scattered(k, 2, 9999991),
        high: middle + scattered(k, 3, 9999991),
    }
}

fn band_of(shape: Shape, k: u64, gap: u64) -> Band {
    match shape {
        Shape::Bowl => bowl(k, 5000000),
        Shape::Waist => bowl(k, 1),
        Shape::Parabola => point(TOP + product(k, k)),
        Shape::Full => Band {
            late: 0,
            low: 0,
            high: TOP * 2,
        },
        Shape::Zigzag => point(k % 2 * 2 * TOP),
        Shape::Drift => drift(k, gap),
        Shape::Swings => swings(k, gap),
    }
}

fn time_of(k: u64, first: u64, gap: u64, late: u64) -> u32 {
    ((first % 4294967296 + product(k, gap) + late % 2097152) % 4294967296) as u32
}

// The value that is x above the least one; 0 where there is none.
fn value(x: u64) -> i32 {
    if x <= TOP * 2 {
        x as i32 - TOP as i32
    } else {
        0
    }
}

// Fills three lists of at most 4,097 entries, each to its end. The times begin with the first one; the gap is the one between due times.
pub fn fill(
    shape: Shape,
    first: u64,
    gap: u64,
    times: &mut [u32],
    lows: &mut [i32],
    highs: &mut [i32],
) {
    for k in 0..MOST_MADE {
        let place = k as u64;
        let band = band_of(shape, place, gap);
        store(times, k, time_of(place, first, gap, band.late));
        store(lows, k, value(band.low));
        store(highs, k, value(band.high));
    }
}
