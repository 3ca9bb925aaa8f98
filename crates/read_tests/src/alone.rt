// A file read into lists of its own.
use definitions::limits::READ_ROOM;
use trace_testing::reading::tell_read;

pub fn read_alone(rt: &impl Print, file: &[u8]) {
    let mut times = [1u32; READ_ROOM];
    let mut lows = [2i32; READ_ROOM];
    let mut highs = [3i32; READ_ROOM];
    tell_read(rt, file, &mut times, &mut lows, &mut highs);
}
