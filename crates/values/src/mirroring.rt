// The mirror image of a line.
ghost use Rattle.std.specs.Prelude.{◌≡◌};
ghost use Rattle.definitions.specs.Mirrors.{mirrored_line};
ghost use Rattle.values.specs.Meanings.{line_of};
ghost use Rattle.values.specs.Small.{Bounded};

use crate::Line;
use std::ops::Neg;

// Every value negated, so that what falls to a level rises to the level negated.
impl Neg for Line {
    type Output = Line;

    ghost can_neg = { λ l. Bounded l };

    ghost neg_gives = { λ l r. line_of r ≡ mirrored_line (line_of l) };

    fn neg(self) -> Line {
        Line {
            p: -self.p,
            q: -self.q,
            d: self.d,
        }
    }
}
