// The lines of a report, part by part. Each asks for room for the longest text that it may put.
ghost use Rattle.std.specs.Prelude.{◌+◌, ◌≤◌, ◌++◌, length};
ghost use Rattle.definitions.specs.Report.{time_text, outlook_text, refused_line, trace_line, span_text, segment_line};
ghost use Rattle.text.specs.Put.{Put};
ghost use Rattle.values.specs.Meanings.{line_of, time_of, outlook_of, segment_of};
ghost use Rattle.report_text.specs.Lines.{line_bytes};

use text::{Decimal, put_labelled, put_word};
use values::{Line, Outlook, Segment};

// The one line of a file that is turned down.
pub fn put_refused(text: &mut [u8], at: usize, number: u8) -> usize
    requires { at + 256 ≤ length text.old }
    ensures { Put at (refused_line number) text.old result text.new }
{
    let next = put_labelled(text, at, b"refused ", u64::from(number));
    put_word(text, next, b"\n")
}

// The first line of a trace.
pub fn put_heading(
    text: &mut [u8],
    at: usize,
    address: u32,
    level: i32,
    ranges: usize,
    segments: usize,
) -> usize
    requires { at + 256 ≤ length text.old }
    ensures { (Put at (trace_line address level ranges segments) text.old result text.new) × (result ≤ at + 256) }
{
    let next = put_labelled(text, at, b"detector ", u64::from(address));
    let next = put_labelled(text, next, b" level ", i64::from(level));
    let next = put_labelled(text, next, b" ranges ", ranges as u64);
    let next = put_labelled(text, next, b" segments ", segments as u64);
    put_word(text, next, b"\n")
}

// A word and a line's three numbers, each of at most 20 bytes.
fn put_line(text: &mut [u8], at: usize, word: &[u8], l: Line) -> usize
    requires { (length word.now ≤ 6) × (at + 68 ≤ length text.old) }
    ensures { (Put at (line_bytes word.now (line_of l)) text.old result text.new) × (result ≤ at + 68) }
{
    let next = put_labelled(text, at, word, l.p);
    let next = put_labelled(text, next, b" ", l.q);
    put_labelled(text, next, b" ", l.d)
}

// A word and a time, of at most 10 bytes.
fn put_time(text: &mut [u8], at: usize, word: &[u8], time: Option<u32>) -> usize
    requires { (length word.now ≤ 6) × (at + 16 ≤ length text.old) }
    ensures { (Put at (word.now ++ time_text (time_of time)) text.old result text.new) × (result ≤ at + 16) }
{
    let next = put_word(text, at, word);
    match time {
        None => put_word(text, next, b"none"),
        Some(t) => u64::from(t).put(text, next),
    }
}

// Open, or the two lines and the two times.
fn put_outlook(text: &mut [u8], at: usize, outlook: Outlook) -> usize
    requires { at + 168 ≤ length text.old }
    ensures { (Put at (outlook_text (outlook_of outlook)) text.old result text.new) × (result ≤ at + 168) }
{
    match outlook {
        Outlook::Open => put_word(text, at, b" open"),
        Outlook::Lines {
            slow,
            fast,
            some,
            all,
        } => {
            let next = put_line(text, at, b" slow ", slow);
            let next = put_line(text, next, b" fast ", fast);
            let next = put_time(text, next, b" some ", some);
            put_time(text, next, b" all ", all)
        }
    }
}

// A segment's place, times and number of ranges.
fn put_span(text: &mut [u8], at: usize, place: u32, first: u32, last: u32, count: u32) -> usize
    requires { at + 66 ≤ length text.old }
    ensures { (Put at (span_text place first last count) text.old result text.new) × (result ≤ at + 66) }
{
    let next = put_labelled(text, at, b"segment ", u64::from(place));
    let next = put_labelled(text, next, b" from ", u64::from(first));
    let next = put_labelled(text, next, b" to ", u64::from(last));
    put_labelled(text, next, b" ranges ", u64::from(count))
}

// The line of a segment.
pub fn put_segment(text: &mut [u8], at: usize, place: u32, s: Segment) -> usize
    requires { at + 256 ≤ length text.old }
    ensures { (Put at (segment_line place (segment_of s)) text.old result text.new) × (result ≤ at + 256) }
{
    let next = put_span(text, at, place, s.first_time, s.last_time, s.count);
    let outlook = s.outlook;
    let next = put_outlook(text, next, outlook);
    put_word(text, next, b"\n")
}
