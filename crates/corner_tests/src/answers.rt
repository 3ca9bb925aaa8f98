// A call of Corners, and what is written of its answer.
use definitions::limits::CORNER_ROOM;
use definitions::refusals::Refusal;
use drift::corners;
use testing::lists::lent;
use testing::telling::{Seen, Shown, mixed_signed};
use values::Line;

// As many corners are written from the start on, and the last one.
const SHOWN: usize = 12;

// What stands at one place of the three slices.
#[derive(Clone, Copy, PartialEq)]
struct Corner(Line);

impl Shown for Corner {
    const OLD: Corner = Corner(Line {
        p: 77,
        q: 77,
        d: 77,
    });

    fn mixed(self, digest: u64) -> u64 {
        let Line { p, q, d } = self.0;
        mixed_signed(mixed_signed(mixed_signed(digest, p), q), d)
    }

    fn show(self, rt: &impl Print, _place: usize) {
        let Line { p, q, d } = self.0;
        let _ = print!(rt; " ({p}, {q}, {d})");
    }
}

// Writes what the slices hold, place by place.
fn see_all(rt: &impl Print, count: usize, ps: &[i64], qs: &[i64], ds: &[i64]) -> Seen {
    let mut seen = Seen::nothing();
    for (place, ((&p, &q), &d)) in ps.iter().zip(qs).zip(ds).enumerate() {
        seen.show(rt, Corner(Line { p, q, d }), place, count, SHOWN);
    }
    seen
}

fn tell_end(rt: &impl Print, answer: Result<Option<usize>, Refusal>, seen: Seen) {
    match answer {
        Ok(Some(count)) => {
            let _ = print!(rt; " corners {count}, digest {}", seen.digest);
        }
        Ok(None) => {
            let _ = print!(rt; " open");
        }
        Err(refusal) => {
            let _ = print!(rt; " refused {}", u8::from(refusal));
        }
    }
    let _ = println!(rt; ", rest {}", seen.rest());
}

// Calls Corners, and writes all there is to its answer on a line. The slices are as long as they have to be, but for
// one of them, counted from 0, that is one too short; from 3 on, none is.
pub fn tell(rt: &impl Print, short: usize, k: usize, times: &[u32], lows: &[i32], highs: &[i32]) {
    let _ = print!(rt; "after {k}:");
    let Line { p, q, d } = Corner::OLD.0;
    let mut ps = [p; CORNER_ROOM];
    let mut qs = [q; CORNER_ROOM];
    let mut ds = [d; CORNER_ROOM];
    let answer = corners(
        k,
        times,
        lows,
        highs,
        lent(&mut ps, short == 0),
        lent(&mut qs, short == 1),
        lent(&mut ds, short == 2),
    );
    let seen = see_all(rt, answer.ok().flatten().unwrap_or(0), &ps, &qs, &ds);
    tell_end(rt, answer, seen);
}
