// Files that end early, files with too many ranges, and lists of other lengths.
use definitions::limits::{READ_ROOM, WRITE_ROOM};
use testing::lists::first;
use trace_testing::making::{put_ends, put_many, put_sample};
use trace_testing::reading::tell_read;

// A file with a range field more than the largest.
const ONE_TOO_MANY: usize = WRITE_ROOM + 15;

// Reads the first n bytes, for each n from `least` to below `end`.
fn read_each(
    rt: &impl Print,
    file: &[u8],
    least: usize,
    end: usize,
    times: &mut [u32],
    lows: &mut [i32],
    highs: &mut [i32],
) {
    for n in least..end {
        let _ = print!(rt; "read {n}:");
        tell_read(rt, first(file, n), times, lows, highs);
    }
}

// A small file, up to each length from `least` to below `end`.
fn read_ends(rt: &impl Print, address: u32, falling: bool, step: u32, least: usize, end: usize) {
    let mut times = [1u32; READ_ROOM];
    let mut lows = [2i32; READ_ROOM];
    let mut highs = [3i32; READ_ROOM];
    let mut file = [0u8; 53];
    put_ends(&mut file, address, falling, step);
    read_each(rt, &file, least, end, &mut times, &mut lows, &mut highs);
}

// A file with 4,097 ranges, up to each length from `least` to below `end`.
fn read_many(rt: &impl Print, address: u32, falling: bool, step: u32, least: usize, end: usize) {
    let mut times = [1u32; READ_ROOM];
    let mut lows = [2i32; READ_ROOM];
    let mut highs = [3i32; READ_ROOM];
    let mut file = [0u8; ONE_TOO_MANY];
    put_many(&mut file, address, falling, step, 4097);
    read_each(rt, &file, least, end, &mut times, &mut lows, &mut highs);
}

// Both, with an address of one byte and of two, falling, and with a step; the large file from one byte less than one with
// 4,096 ranges has. Up to its level a falling trace is a rising one without ranges, and up to its direction one with a step
// is one without.
pub fn files(rt: &impl Print) {
    read_ends(rt, 1, false, 1, 0, 42);
    read_ends(rt, 256, false, 1, 0, 43);
    read_ends(rt, 256, true, 1, 12, 47);
    read_ends(rt, 256, true, 86400, 16, 54);
    read_many(rt, 255, false, 1, 61450, 61467);
    read_many(rt, 65535, false, 1, 61451, 61468);
    read_many(rt, 65535, true, 1, 61455, 61472);
    read_many(rt, 65535, true, 86400, 61462, 61479);
}

fn read_into(rt: &impl Print, times: &mut [u32], lows: &mut [i32], highs: &mut [i32]) {
    let mut file = [0u8; 86];
    put_sample(&mut file, false, 1);
    let _ = print!(rt; "read into {} {} {}:", times.len(), lows.len(), highs.len());
    tell_read(rt, &file, times, lows, highs);
}

pub fn lists(rt: &impl Print) {
    let mut times = [1u32; READ_ROOM + 1];
    let mut lows = [2i32; READ_ROOM + 1];
    let mut highs = [3i32; READ_ROOM + 1];
    read_into(rt, &mut times, &mut lows, &mut highs);
    let mut short_times = [1u32; READ_ROOM - 1];
    read_into(rt, &mut short_times, &mut lows, &mut highs);
    let mut short_values = [2i32; READ_ROOM - 1];
    read_into(rt, &mut times, &mut short_values, &mut highs);
    read_into(rt, &mut times, &mut lows, &mut short_values);
}
