// The step field with each fault of its length, its value and its place.
use crate::alone::read_alone;
use fields::numbers::write_u32;
use testing::lists::first;
use trace_testing::making::{put_direction, put_level, put_range, put_start, put_step};

// Reads the first n bytes of a file in which a field with tag 5, this length and this number stands after the level.
fn read_field(rt: &impl Print, length: u16, step: u32, n: usize) {
    let mut file = [0u8; 19];
    put_start(&mut file, 7, 20, false, 1);
    write_u32(&mut file, 11, 0x05000000 + 256 * u32::from(length));
    write_u32(&mut file, 14, step);
    let _ = print!(rt; "read, step field {length} {step} {n}:");
    read_alone(rt, first(&file, n));
}

// Only 2 to 86,400 are written.
fn values(rt: &impl Print) {
    read_field(rt, 4, 2, 18);
    read_field(rt, 4, 65536, 18);
    read_field(rt, 4, 86400, 18);
    read_field(rt, 4, 0, 18);
    read_field(rt, 4, 1, 18);
    read_field(rt, 4, 86401, 18);
    read_field(rt, 4, 4294967295, 18);
}

// 2 with its bytes the other way round, and with its highest bit set.
fn other_values(rt: &impl Print) {
    read_field(rt, 4, 33554432, 18);
    read_field(rt, 4, 2147483650, 18);
}

// With another high byte of the length too. The last has no body, but its length is tried before.
fn lengths(rt: &impl Print) {
    read_field(rt, 0, 2, 14);
    read_field(rt, 3, 2, 17);
    read_field(rt, 5, 2, 19);
    read_field(rt, 260, 2, 18);
    read_field(rt, 5, 2, 14);
}

// The last two have a fault more, which is tried later.
fn cut_short(rt: &impl Print) {
    read_field(rt, 4, 2, 12);
    read_field(rt, 4, 2, 13);
    read_field(rt, 4, 2, 14);
    read_field(rt, 4, 2, 17);
    read_field(rt, 5, 2, 13);
    read_field(rt, 4, 1, 17);
}

// Before the address, before the level, and before the direction.
fn early(rt: &impl Print) {
    let mut file = [0u8; 22];
    put_step(&mut file, 0, 25);
    write_u32(&mut file, 7, 0x01000107);
    put_level(&mut file, 11, 20);
    let _ = print!(rt; "read, step at 0:");
    read_alone(rt, first(&file, 18));
    write_u32(&mut file, 0, 0x01000107);
    put_step(&mut file, 4, 25);
    let _ = print!(rt; "read, step at 4:");
    read_alone(rt, first(&file, 18));
    put_start(&mut file, 7, 20, false, 25);
    put_direction(&mut file, 18, true);
    let _ = print!(rt; "read, step at 11, direction at 18:");
    read_alone(rt, &file);
}

// After the direction, and a second time.
fn late(rt: &impl Print) {
    let mut file = [0u8; 25];
    put_start(&mut file, 7, 20, true, 25);
    let _ = print!(rt; "read, direction at 11, step at 15:");
    read_alone(rt, first(&file, 22));
    put_start(&mut file, 7, 20, false, 25);
    put_step(&mut file, 18, 25);
    let _ = print!(rt; "read, step at 11 and 18:");
    read_alone(rt, &file);
}

// Before a range and after it, whether there is one before it or not.
fn among_ranges(rt: &impl Print) {
    let mut file = [0u8; 40];
    let start = put_start(&mut file, 7, 20, false, 25);
    put_range(&mut file, start, 0, 10, 0, 4);
    let _ = print!(rt; "read, step at 11:");
    read_alone(rt, first(&file, 33));
    put_step(&mut file, 33, 25);
    let _ = print!(rt; "read, step at 11 and 33:");
    read_alone(rt, &file);
    let start = put_start(&mut file, 7, 20, false, 1);
    put_range(&mut file, start, 0, 10, 0, 4);
    put_step(&mut file, 26, 25);
    let _ = print!(rt; "read, step at 26:");
    read_alone(rt, first(&file, 33));
}

pub fn all(rt: &impl Print) {
    values(rt);
    other_values(rt);
    lengths(rt);
    cut_short(rt);
    early(rt);
    late(rt);
    among_ranges(rt);
}
