// Small functions on points, lines and numbers: each shows one use of the crate `integers` in a contract and its proof.
#![tactic(auto)]

ghost use Rattle.std.specs.Prelude.{◌≡◌, ℕ, ◌<◌, length, get_or, pos, negsuc, nat_abs, ◌+ℤ◌, ◌-ℤ◌, ◌*ℤ◌, ◌≤ℤ◌, ◌<ℤ◌};
ghost use Rattle.std.specs.Int.Signed.{lt_z};
ghost use Rattle.integers.specs.Bounds.{Within};
ghost use Rattle.integers.specs.Tests.{eq_z};
ghost use Rattle.arithmetic_examples.specs.Points.{Value, Time, Points, Small, line_through, scaled, side_of, less_steep, fits_range, sign_of};

// A line: d times its value at time t is p · t + q.
#[derive(Clone, Copy)]
pub struct Line {
    pub p: i64,
    pub q: i64,
    pub d: i64,
}

// Where a line is, seen from a point.
#[derive(Clone, Copy)]
pub enum Side {
    Below,
    At,
    Above,
}

// ---- lines

// The line through (a, u) and (b, v).
pub fn through(a: i64, u: i64, b: i64, v: i64) -> Line
    requires { Points a u b v }
    ensures { result ≡ line_through a u b v }
{
    Line {
        p: v - u,
        q: u * b - v * a,
        d: b - a,
    }
}

// Whether the line is below, at or above (t, u).
pub fn against(l: Line, t: i64, u: i64) -> Side
    requires { (Small l) × (Time t) × (Value u) }
    ensures { result ≡ side_of l t u }
{
    let e = l.p * t + l.q;
    let f = l.d * u;
    if e < f {
        Side::Below
    } else if f < e {
        Side::Above
    } else {
        Side::At
    }
}

// Whether the slope of l is below that of m.
pub fn less_steep(l: Line, m: Line) -> bool
    requires { (Small l) × (Small m) }
    ensures { result ≡ less_steep l m }
{
    l.p * m.d < m.p * l.d
}

// Whether the line passes through (t, u).
pub fn touches(l: Line, t: i64, u: i64) -> bool
    requires { (Small l) × (Time t) × (Value u) }
    ensures { result ≡ eq_z (scaled l t) (l.d *ℤ u) }
{
    l.p * t + l.q == l.d * u
}

// Whether the line fits the range (t, low, high).
pub fn fits_range(l: Line, t: i64, low: i64, high: i64) -> bool
    requires { (Small l) × (Time t) × (Value low) × (Value high) }
    ensures { result ≡ fits_range l t low high }
{
    let e = l.p * t + l.q;
    l.d * low <= e && e <= l.d * high
}

// Whether the line through (a, u) and (b, v) fits the range (t, low, high).
pub fn joins(a: i64, u: i64, b: i64, v: i64, t: i64, low: i64, high: i64) -> bool
    requires { (Points a u b v) × (Time t) × (Value low) × (Value high) }
    ensures { result ≡ fits_range (line_through a u b v) t low high }
{
    let l = through(a, u, b, v);
    fits_range(l, t, low, high)
}

// Whether the line stays at one value.
pub fn is_level(l: Line) -> bool
    ensures { result ≡ eq_z l.p (pos 0) }
{
    l.p == 0
}

// Whether the line through (a, u) and (b, v) rises.
pub fn rises(a: i64, u: i64, b: i64, v: i64) -> bool
    requires { Points a u b v }
    ensures { result ≡ lt_z u v }
{
    let l = through(a, u, b, v);
    0 < l.p
}

// ---- numbers

// −1, 0 or 1.
pub fn sign(z: i64) -> i64
    ensures { result ≡ sign_of z }
{
    if z == 0 {
        0
    } else if z < 0 {
        -1
    } else {
        1
    }
}

// The larger of two.
pub fn larger(a: i64, b: i64) -> i64
    ensures { (a ≤ℤ result) × (b ≤ℤ result) }
{
    if a < b { b } else { a }
}

// The area of a rectangle whose sides are not 0: it is no less than either side.
pub fn area(w: i64, h: i64) -> i64
    requires { (Value w) × (Value h) × (pos 1 ≤ℤ w) × (pos 1 ≤ℤ h) }
    ensures { (w ≤ℤ result) × (h ≤ℤ result) }
{
    w * h
}

// n / d, rounded down.
pub fn floor_div(n: i64, d: i64) -> i64
    requires { (Within 4611686018427387904 n) × (pos 0 <ℤ d) }
    ensures { ((result *ℤ d) ≤ℤ n) × (n <ℤ (result *ℤ d +ℤ d)) }
{
    let q = n / d;
    let r = n % d;
    if r < 0 { q - 1 } else { q }
}

// How high a range is, in 32 bits.
pub fn height(low: i32, high: i32) -> i32
    requires { (Value low) × (Value high) × (low ≤ℤ high) }
    ensures { (result ≡ high -ℤ low) × (pos 0 ≤ℤ result) }
{
    high - low
}

// Whether a value is the least of all.
pub fn is_least(u: i32) -> bool
    ensures { result ≡ eq_z u (negsuc 268435455) }
{
    u == -268435456
}

// ---- casts

// u32 to i64.
pub fn time_of(t: u32) -> i64
    ensures { result ≡ pos t }
{
    t as i64
}

// i32 to i64.
pub fn value_of(u: i32) -> i64
    ensures { result ≡ u }
{
    u as i64
}

// u32 to u64.
pub fn count_of(n: u32) -> u64
    ensures { result ≡ n }
{
    n as u64
}

// i64 to u64, of a number that is not negative.
pub fn size_of(z: i64) -> u64
    requires { pos 0 ≤ℤ z }
    ensures { pos result ≡ z }
{
    z as u64
}

// i64 to i32, of a value.
pub fn value_word(u: i64) -> i32
    requires { Value u }
    ensures { result ≡ u }
{
    u as i32
}

// i64 to u32, of a time.
pub fn time_word(t: i64) -> u32
    requires { Time t }
    ensures { pos result ≡ t }
{
    t as u32
}

// u64 to i64, of a number below 2^63.
pub fn number_of(n: u64) -> i64
    requires { n < 9223372036854775808 }
    ensures { result ≡ pos n }
{
    n as i64
}

// The time from t to s, both read from 32 bits.
pub fn elapsed(t: u32, s: u32) -> i64
    ensures { result ≡ pos s -ℤ pos t }
{
    s as i64 - t as i64
}

// The distance of two values: the cast is made where a test shows the sign.
pub fn distance(a: i32, b: i32) -> u32
    requires { (Value a) × (Value b) }
    ensures { result ≡ nat_abs (b -ℤ a) }
{
    if a < b {
        (b - a) as u32
    } else {
        (a - b) as u32
    }
}

// ---- a loop

// The highest of the values.
pub fn highest(us: &[i64]) -> i64
    requires { 0 < length us.now }
    ensures { (k : ℕ) → k < length us.now → get_or us.now k (pos 0) ≤ℤ result }
{
    let mut best = us[0];
    for &u in us {
        if best < u {
            best = u;
        }
    }
    best
}
