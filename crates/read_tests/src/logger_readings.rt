// Readings of a logger: values of every kind, lengths, cuts, and each tag beside the others.
use crate::alone::read_alone;
use fields::numbers::write_u8;
use testing::lists::first;
use trace_testing::making::{
    put_direction, put_range, put_readings, put_span, put_spot, put_start, put_step,
};

// The bits of 1.0 and 2.0, and of what is no number.
const ONE: u32 = 0x3f800000;

const TWO: u32 = 0x40000000;

const NO_NUMBER: u32 = 0x7fc00000;

// The next above 1,048,576, which is the end of the span.
const TOO_LARGE: u32 = 0x49800001;

fn read_spot(rt: &impl Print, value: u32) {
    let mut file = [0u8; 22];
    put_start(&mut file, 7, 20, false, 1);
    put_spot(&mut file, 11, 10, value);
    let _ = print!(rt; "read, tag 6 {value}:");
    read_alone(rt, &file);
}

fn read_span(rt: &impl Print, low: u32, high: u32) {
    let mut file = [0u8; 26];
    put_start(&mut file, 7, 20, false, 1);
    put_span(&mut file, 11, 10, low, high);
    let _ = print!(rt; "read, tag 7 {low} {high}:");
    read_alone(rt, &file);
}

// Zeros, 256ths, the last digit of 24 worth a 256th and half of one, and 0.1.
fn fractions(rt: &impl Print) {
    read_spot(rt, 0);
    read_spot(rt, 0x80000000);
    read_spot(rt, 0x3b800000);
    read_spot(rt, 0xbb800000);
    read_spot(rt, 0x3b000000);
    read_spot(rt, 0x47000001);
    read_spot(rt, 0x46800001);
    read_spot(rt, 0x3dcccccd);
}

// The least of all, the last without a leading digit, and the first with one.
fn smallest(rt: &impl Print) {
    read_spot(rt, 1);
    read_spot(rt, 0x007fffff);
    read_spot(rt, 0x80800000);
}

// The ends of the span, the next on both sides, and the largest of all.
fn largest(rt: &impl Print) {
    read_spot(rt, 0x497fffff);
    read_spot(rt, 0x49800000);
    read_spot(rt, TOO_LARGE);
    read_spot(rt, 0xc9800000);
    read_spot(rt, 0xc9800001);
    read_spot(rt, 0x7f7fffff);
    read_spot(rt, 0xff7fffff);
}

// Infinite, and no numbers.
fn not_finite(rt: &impl Print) {
    read_spot(rt, 0x7f800000);
    read_spot(rt, 0xff800000);
    read_spot(rt, NO_NUMBER);
    read_spot(rt, 0x7f800001);
    read_spot(rt, 0xffffffff);
}

// What is tried first: the low before the high, on each 11 before 4, and then their order.
fn spans(rt: &impl Print) {
    read_span(rt, ONE, TWO);
    read_span(rt, 0, 0x80000000);
    read_span(rt, TOO_LARGE, NO_NUMBER);
    read_span(rt, NO_NUMBER, TOO_LARGE);
    read_span(rt, ONE, NO_NUMBER);
    read_span(rt, ONE, TOO_LARGE);
    read_span(rt, TWO, ONE);
}

// Reads the first n bytes of a file with a field of this tag and this low byte of a length, which is good but for these.
fn read_field(rt: &impl Print, tag: u8, length: u8, n: usize) {
    let mut file = [0u8; 26];
    put_start(&mut file, 7, 20, false, 1);
    put_span(&mut file, 11, 10, ONE, TWO);
    write_u8(&mut file, 11, tag);
    write_u8(&mut file, 13, length);
    let _ = print!(rt; "read, reading field {tag} {length} {n}:");
    read_alone(rt, first(&file, n));
}

fn lengths(rt: &impl Print) {
    read_field(rt, 6, 0, 14);
    read_field(rt, 6, 7, 21);
    read_field(rt, 6, 9, 23);
    read_field(rt, 6, 12, 26);
    read_field(rt, 7, 8, 22);
    read_field(rt, 7, 11, 25);
    read_field(rt, 7, 13, 14);
}

fn cut_short(rt: &impl Print) {
    read_field(rt, 6, 8, 12);
    read_field(rt, 6, 8, 13);
    read_field(rt, 6, 8, 14);
    read_field(rt, 6, 8, 21);
    read_field(rt, 6, 8, 22);
    read_field(rt, 7, 12, 13);
    read_field(rt, 7, 12, 25);
    read_field(rt, 7, 12, 26);
}

// A spot at 10, and after it at 22 a field of each kind.
fn after_spot(rt: &impl Print) {
    let mut file = [0u8; 37];
    put_start(&mut file, 7, 20, false, 1);
    put_spot(&mut file, 11, 10, ONE);
    put_spot(&mut file, 22, 20, TWO);
    let _ = print!(rt; "read, spot and spot at 20:");
    read_alone(rt, first(&file, 33));
    put_span(&mut file, 22, 10, ONE, TWO);
    let _ = print!(rt; "read, spot and span at 10:");
    read_alone(rt, &file);
    put_span(&mut file, 22, 11, ONE, TWO);
    let _ = print!(rt; "read, spot and span at 11:");
    read_alone(rt, &file);
    put_range(&mut file, 22, 0, 20, 0, 4);
    let _ = print!(rt; "read, spot and range at 20:");
    read_alone(rt, &file);
    put_direction(&mut file, 22, true);
    let _ = print!(rt; "read, spot and direction at 22:");
    read_alone(rt, first(&file, 26));
    put_step(&mut file, 22, 25);
    let _ = print!(rt; "read, spot and step at 22:");
    read_alone(rt, first(&file, 29));
}

// Before and after a range; after a direction and a step.
fn beside_others(rt: &impl Print) {
    let mut file = [0u8; 41];
    put_start(&mut file, 7, 20, false, 1);
    put_range(&mut file, 11, 0, 10, 0, 4);
    put_spot(&mut file, 26, 20, ONE);
    let _ = print!(rt; "read, range and spot at 20:");
    read_alone(rt, first(&file, 37));
    put_span(&mut file, 26, 20, ONE, TWO);
    let _ = print!(rt; "read, range and span at 20:");
    read_alone(rt, &file);
    put_span(&mut file, 11, 10, ONE, TWO);
    put_range(&mut file, 26, 0, 20, 0, 4);
    let _ = print!(rt; "read, span and range at 20:");
    read_alone(rt, &file);
    put_start(&mut file, 7, 20, true, 25);
    put_spot(&mut file, 22, 10, ONE);
    let _ = print!(rt; "read, direction, step and spot at 10:");
    read_alone(rt, first(&file, 33));
}

// As many as there may be, and the first bytes of one more.
fn most(rt: &impl Print) {
    let mut file = [0u8; 53270];
    put_readings(&mut file, 2048);
    put_spot(&mut file, 53259, 4096, NO_NUMBER);
    let _ = print!(rt; "read, readings 53259:");
    read_alone(rt, first(&file, 53259));
    let _ = print!(rt; "read, readings 53261:");
    read_alone(rt, first(&file, 53261));
    let _ = print!(rt; "read, readings 53262:");
    read_alone(rt, first(&file, 53262));
}

pub fn all(rt: &impl Print) {
    fractions(rt);
    smallest(rt);
    largest(rt);
    not_finite(rt);
    spans(rt);
    lengths(rt);
    cut_short(rt);
    after_spot(rt);
    beside_others(rt);
    most(rt);
}
