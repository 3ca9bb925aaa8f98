// A line in lowest terms.
ghost use Rattle.values.specs.Small.{Small, Reduced};

use crate::Line;
use crate::numbers::gcd;

// The line with no common divisor above 1.
pub fn reduced(l: Line) -> Line
    requires { Small l }
    ensures { Reduced l result }
{
    let divisor = gcd(
        gcd(l.p.unsigned_abs(), l.q.unsigned_abs()),
        l.d.unsigned_abs(),
    );
    let g = divisor as i64;
    Line {
        p: l.p / g,
        q: l.q / g,
        d: l.d / g,
    }
}
