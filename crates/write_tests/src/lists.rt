// Lists of the most ranges, the sample's lists cut at different lengths, and slices of other lengths.
use crate::answers::{read_back, tell_copy, tell_write};
use definitions::limits::{MOST_RANGES, WRITE_ROOM};
use testing::lists::first;
use trace_testing::making::{put_many, put_sample};

// ---- the most ranges

// Writes the lists that Read gives of the file `made`.
fn write_most(rt: &impl Print, made: &[u8], file: &mut [u8]) {
    let mut times = [0u32; MOST_RANGES];
    let mut lows = [0i32; MOST_RANGES];
    let mut highs = [0i32; MOST_RANGES];
    let _ = print!(rt;
        "write lists {} {} {}:",
        times.len(),
        lows.len(),
        highs.len()
    );
    tell_copy(rt, made, &mut times, &mut lows, &mut highs, file);
}

pub fn most(rt: &impl Print, file: &mut [u8]) {
    let mut made = [0u8; WRITE_ROOM];
    put_many(&mut made, 65535, true, 86400, 4096);
    write_most(rt, &made, file);
    read_back(rt, file, &made);
}

// ---- the sample's lists, cut at different lengths, falling, and with a step

fn write_first(
    rt: &impl Print,
    direction: u32,
    step: u32,
    a: usize,
    b: usize,
    c: usize,
    file: &mut [u8],
) {
    let times = [10u32, 20, 30, 40, 50];
    let lows = [0i32, 4, 10, 9, 9];
    let highs = [4i32, 8, 14, 11, 12];
    let _ = print!(rt; "write direction {direction} step {step} lists {a} {b} {c}:");
    tell_write(
        rt,
        7,
        20,
        direction,
        step,
        first(&times, a),
        first(&lows, b),
        first(&highs, c),
        file,
    );
}

pub fn cut(rt: &impl Print, file: &mut [u8]) {
    write_first(rt, 0, 1, 0, 0, 0, file);
    write_first(rt, 0, 1, 4, 5, 5, file);
    write_first(rt, 0, 1, 5, 4, 5, file);
    write_first(rt, 0, 1, 5, 5, 4, file);
    write_first(rt, 0, 1, 5, 5, 5, file);
    let mut sample = [0u8; 86];
    put_sample(&mut sample, false, 1);
    read_back(rt, first(file, 86), &sample);
}

pub fn falling(rt: &impl Print, file: &mut [u8]) {
    write_first(rt, 1, 1, 0, 0, 0, file);
    write_first(rt, 1, 1, 5, 5, 5, file);
    let mut sample = [0u8; 90];
    put_sample(&mut sample, true, 1);
    read_back(rt, first(file, 90), &sample);
}

pub fn stepped(rt: &impl Print, file: &mut [u8]) {
    write_first(rt, 0, 25, 0, 0, 0, file);
    write_first(rt, 0, 25, 5, 5, 5, file);
    let mut sample = [0u8; 93];
    put_sample(&mut sample, false, 25);
    read_back(rt, first(file, 93), &sample);
}

// With both fields that may be left out.
pub fn falling_stepped(rt: &impl Print, file: &mut [u8]) {
    write_first(rt, 1, 25, 5, 5, 5, file);
    let mut sample = [0u8; 97];
    put_sample(&mut sample, true, 25);
    read_back(rt, first(file, 97), &sample);
}

// ---- slices of other lengths

// a times and lows, and b highs, all 0.
fn write_zeros(rt: &impl Print, a: usize, b: usize, file: &mut [u8]) {
    let times = [0u32; MOST_RANGES + 1];
    let values = [0i32; MOST_RANGES + 1];
    let _ = print!(rt; "write zeros {a} {b} {}:", file.len());
    tell_write(
        rt,
        1,
        0,
        0,
        1,
        first(&times, a),
        first(&values, a),
        first(&values, b),
        file,
    );
}

// Lists that are too long, lists that also differ in length, and good lists.
fn write_into(rt: &impl Print, file: &mut [u8]) {
    write_zeros(rt, 4097, 4097, file);
    write_zeros(rt, 4097, 1, file);
    write_zeros(rt, 1, 1, file);
}

pub fn lengths(rt: &impl Print) {
    let mut least = [170u8; WRITE_ROOM];
    write_into(rt, &mut least);
    let mut longer = [170u8; WRITE_ROOM + 1];
    write_into(rt, &mut longer);
    let mut short = [170u8; WRITE_ROOM - 1];
    write_into(rt, &mut short);
}
