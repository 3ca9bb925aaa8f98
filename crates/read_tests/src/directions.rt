// The direction field with each fault of its length, its value and its place.
use crate::alone::read_alone;
use fields::numbers::write_u32;
use testing::lists::first;
use trace_testing::making::{put_direction, put_level, put_range, put_start};

// Reads the first n bytes of a file in which a field with tag 4, this length and this byte stands after the level.
fn read_field(rt: &impl Print, length: u16, value: u8, n: usize) {
    let mut file = [0u8; 16];
    put_start(&mut file, 7, 20, false, 1);
    write_u32(
        &mut file,
        11,
        0x04000000 + 256 * u32::from(length) + u32::from(value),
    );
    let _ = print!(rt; "read, direction field {length} {value} {n}:");
    read_alone(rt, first(&file, n));
}

// Only 1 is written.
fn values(rt: &impl Print) {
    read_field(rt, 1, 1, 15);
    read_field(rt, 1, 0, 15);
    read_field(rt, 1, 2, 15);
    read_field(rt, 1, 255, 15);
}

// With another high byte of the length too. The last has no body, but its length is tried before.
fn lengths(rt: &impl Print) {
    read_field(rt, 0, 1, 14);
    read_field(rt, 2, 1, 16);
    read_field(rt, 257, 1, 16);
    read_field(rt, 2, 1, 14);
}

fn cut_short(rt: &impl Print) {
    read_field(rt, 1, 1, 12);
    read_field(rt, 1, 1, 13);
    read_field(rt, 1, 1, 14);
    read_field(rt, 2, 1, 13);
}

// Before the address, and before the level.
fn early(rt: &impl Print) {
    let mut file = [0u8; 15];
    put_direction(&mut file, 0, true);
    write_u32(&mut file, 4, 0x01000107);
    put_level(&mut file, 8, 20);
    let _ = print!(rt; "read, direction at 0:");
    read_alone(rt, &file);
    write_u32(&mut file, 0, 0x01000107);
    put_direction(&mut file, 4, true);
    let _ = print!(rt; "read, direction at 4:");
    read_alone(rt, &file);
}

// A second time, and after a range, whether there is one before it or not.
fn late(rt: &impl Print) {
    let mut file = [0u8; 34];
    let start = put_start(&mut file, 7, 20, true, 1);
    put_direction(&mut file, 15, true);
    let _ = print!(rt; "read, direction at 11 and 15:");
    read_alone(rt, first(&file, 19));
    put_range(&mut file, start, 0, 10, 0, 4);
    let _ = print!(rt; "read, direction at 11:");
    read_alone(rt, first(&file, 30));
    put_direction(&mut file, 30, true);
    let _ = print!(rt; "read, direction at 11 and 30:");
    read_alone(rt, &file);
    let start = put_start(&mut file, 7, 20, false, 1);
    put_range(&mut file, start, 0, 10, 0, 4);
    put_direction(&mut file, 26, true);
    let _ = print!(rt; "read, direction at 26:");
    read_alone(rt, first(&file, 30));
}

pub fn all(rt: &impl Print) {
    values(rt);
    lengths(rt);
    cut_short(rt);
    early(rt);
    late(rt);
}
