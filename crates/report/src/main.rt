// Prints the report of the trace file on standard input. What it prints is proved in `report_text`; here it is only read and written.
#![tactic(auto)]

ghost use Rattle.std.specs.Prelude.{◌≡◌, length};

mod input; // input.rt: standard input, read to its end

use input::read_input;
use report_text::{REPORT_ROOM, report};

// The most bytes of standard input that are read: more than any trace file has.
const MOST_READ: usize = 65536;

// Zeros, as many as a report has bytes at most.
fn empty_text() -> [u8; REPORT_ROOM]
    ensures { length result ≡ 524544 }
{
    [0; REPORT_ROOM]
}

// Prints the report of a file.
fn print_report(rt: &HostRuntime, file: &[u8]) {
    let mut text = empty_text();
    let answer = report(file, &mut text);
    // The text is long enough, so there is a report, and this never returns here.
    let Ok(count) = answer else {
        return;
    };
    if rt.stdout().write_all(&text[..count]).is_err() {
        let _ = eprintln!(rt; "report: standard output takes no more");
    }
}

// A file that could not be read whole has no report: nothing is printed on standard output.
fn main(rt: HostRuntime) {
    let mut file = [0u8; MOST_READ];
    match read_input(&mut rt.stdin(), &mut file) {
        Ok(size) => print_report(&rt, &file[..size]),
        Err(_) => {
            let _ = eprintln!(rt; "report: standard input cannot be read");
        }
    }
}
