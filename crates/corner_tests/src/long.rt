// Traces by formula.
use crate::answers::tell;
use testing::lists::first;
use testing::shapes::{LATE_FIRST, MOST_MADE, Shape, WIDE, WIDE_FIRST, WIDE_RAGGED, fill};

// The corners after k of the first n ranges of a shape, for n up to 4,097.
fn after(rt: &impl Print, name: &str, shape: Shape, start: u64, gap: u64, n: usize, k: usize) {
    let mut times = [0u32; MOST_MADE];
    let mut lows = [0i32; MOST_MADE];
    let mut highs = [0i32; MOST_MADE];
    fill(shape, start, gap, &mut times, &mut lows, &mut highs);
    let _ = println!(rt; "# {name}");
    tell(
        rt,
        3,
        k,
        first(&times, n),
        first(&lows, n),
        first(&highs, n),
    );
}

fn bowls(rt: &impl Print) {
    after(rt, "bowl", Shape::Bowl, 0, 1, 4096, 4096);
    after(
        rt,
        "bowl, wide gaps",
        Shape::Bowl,
        WIDE_FIRST,
        WIDE,
        4096,
        4096,
    );
    after(
        rt,
        "bowl, the last times",
        Shape::Bowl,
        LATE_FIRST,
        1,
        4096,
        4096,
    );
    after(rt, "bowl, first half", Shape::Bowl, 0, 1, 4096, 2048);
    after(rt, "bowl, one range", Shape::Bowl, 0, 1, 4096, 1);
    after(rt, "bowl, k too large", Shape::Bowl, 0, 1, 4096, 4097);
    after(rt, "bowl, 4097 ranges", Shape::Bowl, 0, 1, 4097, 4096);
    after(rt, "waist", Shape::Waist, 0, 1, 4096, 4096);
    after(
        rt,
        "waist, wide gaps",
        Shape::Waist,
        WIDE_FIRST,
        WIDE,
        4096,
        4096,
    );
    after(rt, "waist, first half", Shape::Waist, 0, 1, 4096, 2048);
}

fn extremes(rt: &impl Print) {
    after(
        rt,
        "full, wide gaps",
        Shape::Full,
        WIDE_FIRST,
        WIDE,
        4096,
        4096,
    );
    after(
        rt,
        "full, the last times",
        Shape::Full,
        LATE_FIRST,
        1,
        4096,
        4096,
    );
    after(rt, "parabola", Shape::Parabola, 0, 1, 4096, 4096);
    after(
        rt,
        "parabola, first of a segment",
        Shape::Parabola,
        0,
        1,
        4096,
        4095,
    );
    after(
        rt,
        "zigzag, wide gaps",
        Shape::Zigzag,
        WIDE_FIRST,
        WIDE,
        4096,
        4096,
    );
}

fn bands(rt: &impl Print) {
    after(rt, "drift", Shape::Drift, 0, 7, 4096, 20);
    after(rt, "drift", Shape::Drift, 0, 7, 4096, 1000);
    after(rt, "drift, every gap 1", Shape::Drift, 0, 1, 4096, 4096);
    after(
        rt,
        "drift, wide gaps",
        Shape::Drift,
        0,
        WIDE_RAGGED,
        4096,
        2500,
    );
    after(rt, "swings", Shape::Swings, 0, 100, 4096, 90);
    after(rt, "swings, every gap 1", Shape::Swings, 0, 1, 4096, 3999);
    after(
        rt,
        "swings, the last times",
        Shape::Swings,
        LATE_FIRST,
        1,
        4096,
        4050,
    );
    after(
        rt,
        "swings, wide gaps",
        Shape::Swings,
        0,
        WIDE_RAGGED,
        4096,
        4080,
    );
}

pub fn all(rt: &impl Print) {
    bowls(rt);
    extremes(rt);
    bands(rt);
}
