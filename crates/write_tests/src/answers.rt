// A call of Write, what is written of its answer, and what is read back.
use definitions::limits::READ_ROOM;
use round_trip::read_then_write;
use trace::write;
use trace_testing::reading::tell_read;
use trace_testing::telling::{bytes_digest, tell_answer, tell_contents};

// Writes a file, and the rest of a line.
pub fn tell_write(
    rt: &impl Print,
    address: u32,
    level: i32,
    direction: u32,
    step: u32,
    times: &[u32],
    lows: &[i32],
    highs: &[i32],
    file: &mut [u8],
) {
    let before = bytes_digest(file);
    let answer = write(address, level, direction, step, times, lows, highs, file);
    tell_answer(rt, answer);
    tell_contents(rt, before, bytes_digest(file));
}

// Writes what is read of a file, and the rest of a line.
pub fn tell_copy(
    rt: &impl Print,
    made: &[u8],
    times: &mut [u32],
    lows: &mut [i32],
    highs: &mut [i32],
    file: &mut [u8],
) {
    let before = bytes_digest(file);
    tell_answer(rt, read_then_write(made, times, lows, highs, file));
    tell_contents(rt, before, bytes_digest(file));
}

// Reads what was written, and tells whether it is what was made.
pub fn read_back(rt: &impl Print, file: &[u8], made: &[u8]) {
    let mut times = [1u32; READ_ROOM];
    let mut lows = [2i32; READ_ROOM];
    let mut highs = [3i32; READ_ROOM];
    let bytes = if file == made { "the same" } else { "other" };
    let _ = println!(rt; "  {bytes} bytes");
    let _ = print!(rt; "  read:");
    tell_read(rt, file, &mut times, &mut lows, &mut highs);
}
