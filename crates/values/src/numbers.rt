// Whole numbers: the greatest common divisor, and the quotient rounded up.
ghost use Rattle.std.specs.Prelude.{◌≡◌, pos, ◌<ℤ◌};
ghost use Rattle.integers.specs.Bounds.{Within};
ghost use Rattle.integers.specs.Gcd.{gcd as gcdOf};
ghost use Rattle.integers.specs.Rounding.{ceil_div};
ghost use Rattle.values.specs.Signed.{half64};

// The greatest common divisor, by Euclid's rule.
pub fn gcd(a: u64, b: u64) -> u64
    ensures { result ≡ gcdOf a b }
{
    let mut x = a;
    let mut y = b;
    // a turn divides, and nothing is gone through
    while y != 0 {
        let rest = x % y;
        x = y;
        y = rest;
    }
    x
}

// n / d, rounded up.
pub fn ceil_div(n: i64, d: i64) -> i64
    requires { (Within half64 n) × (pos 0 <ℤ d) }
    ensures { result ≡ ceil_div n d }
{
    let q = n / d;
    let r = n % d;
    if 0 < r { q + 1 } else { q }
}
