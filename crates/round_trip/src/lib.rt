// Write and Read, one after the other: what was given comes back. No function here asks anything of its caller.
#![tactic(auto)]

ghost use Rattle.round_trip.specs.Promises.{WriteReadPromise, ReadWritePromise};

use definitions::refusals::Refusal;
use trace::{TraceRecord, read, write};

// The file of a trace in the lent bytes, and what Read gives of it in other lists: the lists that were given, and the trace's record.
pub fn write_then_read(
    address: u32,
    level: i32,
    direction: u32,
    step: u32,
    times: &[u32],
    lows: &[i32],
    highs: &[i32],
    file: &mut [u8],
    times_back: &mut [u32],
    lows_back: &mut [i32],
    highs_back: &mut [i32],
) -> Result<TraceRecord, Refusal>
    ensures { WriteReadPromise (record { address = address; service = record { level = level; direction = direction; step = step } }) (record { times = times.entry.now; lows = lows.now; highs = highs.now }) file.old times_back.old lows_back.old highs_back.old file.new times_back.new lows_back.new highs_back.new result }
{
    let n = write(address, level, direction, step, times, lows, highs, file)?;
    read(&file[..n], times_back, lows_back, highs_back)
}

// The trace of a file in the lent lists, and what Write gives of them in other bytes: those of the file, or, where it has
// readings, those of its trace; and their count.
pub fn read_then_write(
    file: &[u8],
    times: &mut [u32],
    lows: &mut [i32],
    highs: &mut [i32],
    copy: &mut [u8],
) -> Result<usize, Refusal>
    ensures { ReadWritePromise file.now times.old lows.old highs.old copy.old times.new lows.new highs.new copy.new result }
{
    let known = read(file, times, lows, highs)?;
    let n = known.ranges;
    write(
        known.address,
        known.level,
        known.direction,
        known.step,
        &times[..n],
        &lows[..n],
        &highs[..n],
        copy,
    )
}
