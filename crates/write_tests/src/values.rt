// Values at the ends of their spans, and past them.
use crate::answers::tell_write;

// Two ranges, the first at the time 5.
fn write_headed(
    rt: &impl Print,
    address: u32,
    level: i32,
    direction: u32,
    step: u32,
    time: u32,
    low: i32,
    high: i32,
    file: &mut [u8],
) {
    let times = [5u32, time];
    let lows = [low; 2];
    let highs = [high; 2];
    let _ = print!(rt; "write address {address} level {level} direction {direction} step {step}");
    let _ = print!(rt; " and {time} {low} {high}:");
    tell_write(
        rt, address, level, direction, step, &times, &lows, &highs, file,
    );
}

// The same, rising and with a step of 1.
fn write_two(
    rt: &impl Print,
    address: u32,
    level: i32,
    time: u32,
    low: i32,
    high: i32,
    file: &mut [u8],
) {
    write_headed(rt, address, level, 0, 1, time, low, high, file);
}

// The ends of the addresses in one byte and of those in two.
fn addresses(rt: &impl Print, file: &mut [u8]) {
    write_two(rt, 0, 0, 6, 0, 0, file);
    write_two(rt, 1, 0, 6, 0, 0, file);
    write_two(rt, 255, 0, 6, 0, 0, file);
    write_two(rt, 256, 0, 6, 0, 0, file);
    write_two(rt, 65535, 0, 6, 0, 0, file);
}

// Numbers above these; cut to 16 bits, the last two would be addresses.
fn above_addresses(rt: &impl Print, file: &mut [u8]) {
    write_two(rt, 65536, 0, 6, 0, 0, file);
    write_two(rt, 65543, 0, 6, 0, 0, file);
    write_two(rt, 4294967295, 0, 6, 0, 0, file);
}

fn levels(rt: &impl Print, file: &mut [u8]) {
    write_two(rt, 1, -268435456, 6, 0, 0, file);
    write_two(rt, 65535, 268435456, 6, 0, 0, file);
    write_two(rt, 1, -268435457, 6, 0, 0, file);
    write_two(rt, 1, 268435457, 6, 0, 0, file);
}

fn directions(rt: &impl Print, file: &mut [u8]) {
    write_headed(rt, 1, 0, 1, 1, 6, 0, 0, file);
    write_headed(rt, 65535, -268435456, 1, 1, 6, 0, 0, file);
    write_headed(rt, 1, 0, 2, 1, 6, 0, 0, file);
    write_headed(rt, 1, 0, 4294967295, 1, 6, 0, 0, file);
}

// Cut to 8 bits, the first two would be directions; the others have a fault more, before the direction and after it.
fn other_directions(rt: &impl Print, file: &mut [u8]) {
    write_headed(rt, 1, 0, 256, 1, 6, 0, 0, file);
    write_headed(rt, 1, 0, 257, 1, 6, 0, 0, file);
    write_headed(rt, 1, 268435457, 2, 1, 6, 0, 0, file);
    write_headed(rt, 1, 0, 2, 1, 5, 1, 0, file);
}

fn steps(rt: &impl Print, file: &mut [u8]) {
    write_headed(rt, 1, 0, 0, 2, 6, 0, 0, file);
    write_headed(rt, 1, 0, 0, 65536, 6, 0, 0, file);
    write_headed(rt, 65535, -268435456, 1, 86400, 6, 0, 0, file);
    write_headed(rt, 1, 0, 0, 0, 6, 0, 0, file);
    write_headed(rt, 1, 0, 0, 86401, 6, 0, 0, file);
    write_headed(rt, 1, 0, 0, 4294967295, 6, 0, 0, file);
}

// With a fault more, after the step.
fn other_steps(rt: &impl Print, file: &mut [u8]) {
    write_headed(rt, 1, 0, 0, 0, 5, 1, 0, file);
    write_headed(rt, 1, 0, 1, 86401, 5, 0, 0, file);
}

fn times_and_values(rt: &impl Print, file: &mut [u8]) {
    write_two(rt, 1, 0, 4294967295, -268435456, 268435456, file);
    write_two(rt, 1, 0, 5, -268435457, 0, file);
    write_two(rt, 1, 0, 5, 0, 268435457, file);
    write_two(rt, 1, 0, 5, 1, -268435457, file);
    write_two(rt, 1, 0, 5, 1, 0, file);
    write_two(rt, 1, 0, 5, 0, 0, file);
}

pub fn all(rt: &impl Print, file: &mut [u8]) {
    addresses(rt, file);
    above_addresses(rt, file);
    levels(rt, file);
    directions(rt, file);
    other_directions(rt, file);
    steps(rt, file);
    other_steps(rt, file);
    times_and_values(rt, file);
}
