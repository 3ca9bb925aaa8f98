// Traces by formula.
use crate::answers::tell;
use testing::lists::first;
use testing::shapes::{LATE_FIRST, MOST_MADE, Shape, WIDE, WIDE_FIRST, WIDE_RAGGED, fill};

// The first n ranges of a shape, for n up to 4,097; the highs may be fewer.
fn lists(
    rt: &impl Print,
    name: &str,
    shape: Shape,
    start: u64,
    gap: u64,
    level: i32,
    n: usize,
    highs_n: usize,
) {
    let mut times = [0u32; MOST_MADE];
    let mut lows = [0i32; MOST_MADE];
    let mut highs = [0i32; MOST_MADE];
    fill(shape, start, gap, &mut times, &mut lows, &mut highs);
    let _ = println!(rt; "# {name}");
    tell(
        rt,
        11,
        level,
        0,
        1,
        first(&times, n),
        first(&lows, n),
        first(&highs, highs_n),
    );
}

fn ranges(rt: &impl Print, name: &str, shape: Shape, start: u64, gap: u64, level: i32) {
    lists(rt, name, shape, start, gap, level, 4096, 4096);
}

// ---- one segment

fn bowl(rt: &impl Print) {
    ranges(rt, "bowl", Shape::Bowl, 0, 1, 268435456);
    ranges(
        rt,
        "bowl, wide gaps",
        Shape::Bowl,
        WIDE_FIRST,
        WIDE,
        5000002,
    );
    ranges(
        rt,
        "bowl, the last times",
        Shape::Bowl,
        LATE_FIRST,
        1,
        5004095,
    );
}

fn waist(rt: &impl Print) {
    ranges(rt, "waist", Shape::Waist, 0, 1, 268435456);
    ranges(rt, "waist, wide gaps", Shape::Waist, WIDE_FIRST, WIDE, 3);
    ranges(
        rt,
        "waist, the last times",
        Shape::Waist,
        LATE_FIRST,
        1,
        4095,
    );
    lists(rt, "waist, first half", Shape::Waist, 0, 1, 2, 2048, 2048);
}

fn full(rt: &impl Print) {
    ranges(rt, "full", Shape::Full, 0, 1, 0);
    ranges(
        rt,
        "full, wide gaps",
        Shape::Full,
        WIDE_FIRST,
        WIDE,
        268435456,
    );
    ranges(
        rt,
        "full, the last times",
        Shape::Full,
        LATE_FIRST,
        1,
        -268435456,
    );
}

// ---- as many segments as there can be

fn parabola(rt: &impl Print) {
    ranges(rt, "parabola", Shape::Parabola, 0, 1, 20000000);
    ranges(
        rt,
        "parabola, wide gaps",
        Shape::Parabola,
        WIDE_FIRST,
        WIDE,
        16769025,
    );
    ranges(
        rt,
        "parabola, the last times",
        Shape::Parabola,
        LATE_FIRST,
        1,
        9000000,
    );
    lists(
        rt,
        "parabola, the last segment open",
        Shape::Parabola,
        7,
        3,
        268435456,
        4095,
        4095,
    );
}

fn zigzag(rt: &impl Print) {
    ranges(rt, "zigzag", Shape::Zigzag, 0, 1, -268435456);
    ranges(rt, "zigzag, wide gaps", Shape::Zigzag, WIDE_FIRST, WIDE, 0);
    ranges(
        rt,
        "zigzag, the last times",
        Shape::Zigzag,
        LATE_FIRST,
        1,
        268435456,
    );
}

// ---- some in between

fn drift(rt: &impl Print) {
    ranges(rt, "drift", Shape::Drift, 0, 7, 20);
    ranges(rt, "drift, every gap 1", Shape::Drift, 0, 1, 0);
    ranges(
        rt,
        "drift, the last times",
        Shape::Drift,
        LATE_FIRST,
        1,
        -20,
    );
    ranges(rt, "drift, wide gaps", Shape::Drift, 0, WIDE_RAGGED, 56);
}

fn swings(rt: &impl Print) {
    ranges(rt, "swings", Shape::Swings, 0, 100, 268435456);
    ranges(rt, "swings, every gap 1", Shape::Swings, 0, 1, 0);
    ranges(
        rt,
        "swings, the last times",
        Shape::Swings,
        LATE_FIRST,
        1,
        240000000,
    );
    ranges(
        rt,
        "swings, wide gaps",
        Shape::Swings,
        0,
        WIDE_RAGGED,
        200000000,
    );
}

// ---- one range too many

fn too_long(rt: &impl Print) {
    lists(rt, "4097 ranges", Shape::Bowl, 0, 1, 0, 4097, 4097);
    lists(
        rt,
        "4097 ranges and a level above",
        Shape::Bowl,
        0,
        1,
        268435457,
        4097,
        4097,
    );
    lists(
        rt,
        "4097 ranges but for one high",
        Shape::Bowl,
        0,
        1,
        0,
        4097,
        4096,
    );
}

pub fn all(rt: &impl Print) {
    bowl(rt);
    waist(rt);
    full(rt);
    parabola(rt);
    zigzag(rt);
    drift(rt);
    swings(rt);
    too_long(rt);
}
