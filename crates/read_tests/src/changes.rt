// The sample, and each change of one byte in a table.
use definitions::limits::READ_ROOM;
use fields::numbers::write_u8;
use testing::lists::entry_or;
use trace_testing::making::put_sample;
use trace_testing::reading::tell_read;

// A place in the sample, and the byte that is read there.
const TABLE: [(u8, u8); 29] = [
    (0, 0x02),
    (1, 0x01),
    (2, 0x00),
    (2, 0x02),
    (2, 0x03),
    (3, 0x00),
    (3, 0xff),
    (4, 0x01),
    (6, 0x05),
    (7, 0xf0),
    (7, 0xef),
    (7, 0x10),
    (11, 0x02),
    (11, 0x04),
    (11, 0x05),
    (13, 0x0b),
    (18, 0xf0),
    (18, 0xef),
    (18, 0x10),
    (18, 0x11),
    (21, 0x04),
    (21, 0x05),
    (22, 0x10),
    (22, 0xff),
    (32, 0x0b),
    (32, 0x0a),
    (71, 0x04),
    (71, 0x05),
    (81, 0x7f),
];

// The first six ranges of lists.
fn tell_ranges(rt: &impl Print, times: &[u32], lows: &[i32], highs: &[i32]) {
    for ((time, low), high) in times.iter().zip(lows).zip(highs).take(6) {
        let _ = println!(rt; "  range {time} {low} {high}");
    }
}

// Reads the sample with x at `at`.
fn read_changed(
    rt: &impl Print,
    at: u8,
    x: u8,
    times: &mut [u32],
    lows: &mut [i32],
    highs: &mut [i32],
) {
    let mut file = [0u8; 86];
    put_sample(&mut file, false, 1);
    let place = usize::from(at);
    let _ = print!(rt; "read, changed {at} {} {x}:", entry_or(&file, place, 0));
    write_u8(&mut file, place, x);
    tell_read(rt, &file, times, lows, highs);
}

// The trials fill the same lists: what one left in them shows in the next.
pub fn sample(rt: &impl Print) {
    let mut times = [1u32; READ_ROOM];
    let mut lows = [2i32; READ_ROOM];
    let mut highs = [3i32; READ_ROOM];
    let mut file = [0u8; 86];
    put_sample(&mut file, false, 1);
    let _ = print!(rt; "read 86:");
    tell_read(rt, &file, &mut times, &mut lows, &mut highs);
    tell_ranges(rt, &times, &lows, &highs);
    for (at, x) in TABLE {
        read_changed(rt, at, x, &mut times, &mut lows, &mut highs);
    }
}
