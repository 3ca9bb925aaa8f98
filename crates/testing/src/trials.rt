// Trials as lines of text: numbers in four lists, parted by `|`: parameters, times, lows and highs. A line may have any bytes.
ghost use Rattle.std.specs.Prelude.{◌+◌, ◌≤◌, length};

use crate::lists::first;

// The lists of a trial, each with the numbers that its list had room for.
#[derive(Clone, Copy)]
pub struct Trial<'a> {
    pub params: &'a [u32],
    pub times: &'a [u32],
    pub lows: &'a [i32],
    pub highs: &'a [i32],
}

// Where the line that begins at `at` ends.
pub fn line_end(text: &[u8], at: usize) -> usize
    ensures { (at ≤ result) × (result ≤ at + length text.now) }
{
    for end in at..text.len() {
        if text[end] == b'\n' {
            return end;
        }
    }
    at.max(text.len())
}

// A remark begins with `#`.
pub fn is_remark(line: &[u8]) -> bool {
    line.first() == Some(&b'#')
}

// A list's entry from the 32 bits of a number.
trait FromBits: Copy {
    fn from_bits(bits: u32) -> Self;
}

impl FromBits for u32 {
    fn from_bits(bits: u32) -> u32 {
        bits
    }
}

impl FromBits for i32 {
    fn from_bits(bits: u32) -> i32 {
        bits.cast_signed()
    }
}

fn is_in_number(byte: u8) -> bool {
    byte == b'-' || byte.is_ascii_digit()
}

// The 32 bits of a number in two's complement: its last ones, where it has more.
fn number(word: &[u8]) -> u32 {
    let digits = word.iter().filter(|byte| **byte != b'-');
    let size = digits.fold(0u32, |n, byte| {
        n.wrapping_mul(10).wrapping_add(u32::from(*byte % 16))
    });
    if word.contains(&b'-') {
        size.wrapping_neg()
    } else {
        size
    }
}

// The numbers of a part of a line, put into a list as far as it has room. Whatever is no digit and no sign parts them.
fn read_list<'a, T: FromBits>(part: &[u8], list: &'a mut [T]) -> &'a [T] {
    let words = part.split(|byte| !is_in_number(*byte));
    let numbers = words.filter(|word| !word.is_empty()).map(number);
    let mut n = 0;
    for bits in numbers {
        if n < list.len() {
            list[n] = T::from_bits(bits);
            n += 1;
        }
    }
    first(list, n)
}

impl<'a> Trial<'a> {
    // Reads a line into the lists. A fourth bar begins no list.
    pub fn read(
        line: &[u8],
        params: &'a mut [u32],
        times: &'a mut [u32],
        lows: &'a mut [i32],
        highs: &'a mut [i32],
    ) -> Trial<'a> {
        let mut parts = line.splitn(4, |byte| *byte == b'|');
        Trial {
            params: read_list(parts.next().unwrap_or(&[]), params),
            times: read_list(parts.next().unwrap_or(&[]), times),
            lows: read_list(parts.next().unwrap_or(&[]), lows),
            highs: read_list(parts.next().unwrap_or(&[]), highs),
        }
    }
}
