// A call of Read, and what is written of its answer: Read's own trials need it, and what Write wrote is read back by it.
use crate::telling::{lists_digest, tell_answer, tell_contents};
use std::fmt;
use trace::{TraceRecord, read};

// A record as its five numbers.
#[derive(Clone, Copy)]
struct Numbers(TraceRecord);

impl fmt::Display for Numbers {
    fn fmt<W: fmt::Write>(&self, f: &mut fmt::Formatter<W>) -> fmt::Result {
        let TraceRecord {
            address,
            level,
            direction,
            step,
            ranges,
        } = self.0;
        write!(f, "{address} {level} {direction} {step} {ranges}")
    }
}

// Reads a file, and writes the rest of a line.
pub fn tell_read(
    rt: &impl Print,
    file: &[u8],
    times: &mut [u32],
    lows: &mut [i32],
    highs: &mut [i32],
) {
    let before = lists_digest(times, lows, highs);
    tell_answer(rt, read(file, times, lows, highs).map(Numbers));
    tell_contents(rt, before, lists_digest(times, lows, highs));
}
