// The address field with each length, and with each fault of its length or its value.
use crate::alone::read_alone;
use fields::numbers::{write_u8, write_u32};
use testing::lists::first;
use trace_testing::making::put_level;

// Reads a file without ranges. Its address field has this length; the body is a, b and 0, as many of these as the length says.
fn read_field(rt: &impl Print, length: u8, a: u8, b: u8) {
    let mut file = [0u8; 13];
    write_u32(&mut file, 0, 0x01000000 + 256 * u32::from(length));
    write_u8(&mut file, 3, a);
    write_u8(&mut file, 4, b);
    put_level(&mut file, 3 + u32::from(length), 20);
    let _ = print!(rt; "read, address field {length} {a} {b}:");
    read_alone(rt, first(&file, 10 + usize::from(length)));
}

fn one_byte(rt: &impl Print) {
    read_field(rt, 1, 0, 0);
    read_field(rt, 1, 1, 0);
    read_field(rt, 1, 255, 0);
}

// The last three would fit into one byte, so they are refused.
fn two_bytes(rt: &impl Print) {
    read_field(rt, 2, 1, 0);
    read_field(rt, 2, 4, 210);
    read_field(rt, 2, 255, 255);
    read_field(rt, 2, 0, 0);
    read_field(rt, 2, 0, 7);
    read_field(rt, 2, 0, 255);
}

// The last has a body that the file does not have.
fn other_lengths(rt: &impl Print) {
    read_field(rt, 0, 7, 0);
    read_field(rt, 3, 1, 0);
    read_field(rt, 255, 1, 0);
}

pub fn all(rt: &impl Print) {
    one_byte(rt);
    two_bytes(rt);
    other_lengths(rt);
}
