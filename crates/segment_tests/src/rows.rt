// The eleven numbers of a segment: as they stand in the slices, as a line of text, and in a digest.
use definitions::limits::NO_TIME;
use std::fmt;
use testing::lists::entry_or;
use testing::telling::{Shown, mixed, mixed_signed};
use values::Line;
use values::rows::{OutlookRow, Row};

// The slices that Segment filled.
#[derive(Clone, Copy)]
pub struct Columns<'a> {
    pub first_times: &'a [u32],
    pub last_times: &'a [u32],
    pub counts: &'a [u32],
    pub slow_ps: &'a [i64],
    pub slow_qs: &'a [i64],
    pub slow_ds: &'a [i64],
    pub fast_ps: &'a [i64],
    pub fast_qs: &'a [i64],
    pub fast_ds: &'a [i64],
    pub somes: &'a [u64],
    pub alls: &'a [u64],
}

// What stands at one place of them.
#[derive(Clone, Copy, PartialEq)]
pub struct Numbers(Row);

pub const OLD_LINE: Line = Line {
    p: 77,
    q: 77,
    d: 77,
};

pub const OLD: Row = Row {
    first_time: 77,
    last_time: 77,
    count: 77,
    outlook: OutlookRow {
        slow: OLD_LINE,
        fast: OLD_LINE,
        some: 77,
        all: 77,
    },
};

impl Columns<'_> {
    // Past the end of a slice, 0 stands.
    pub fn numbers(&self, place: usize) -> Numbers {
        Numbers(Row {
            first_time: entry_or(self.first_times, place, 0),
            last_time: entry_or(self.last_times, place, 0),
            count: entry_or(self.counts, place, 0),
            outlook: OutlookRow {
                slow: Line {
                    p: entry_or(self.slow_ps, place, 0),
                    q: entry_or(self.slow_qs, place, 0),
                    d: entry_or(self.slow_ds, place, 0),
                },
                fast: Line {
                    p: entry_or(self.fast_ps, place, 0),
                    q: entry_or(self.fast_qs, place, 0),
                    d: entry_or(self.fast_ds, place, 0),
                },
                some: entry_or(self.somes, place, 0),
                all: entry_or(self.alls, place, 0),
            },
        })
    }
}

fn mixed_line(digest: u64, line: Line) -> u64 {
    let Line { p, q, d } = line;
    mixed_signed(mixed_signed(mixed_signed(digest, p), q), d)
}

// A line as its three numbers.
#[derive(Clone, Copy)]
struct OfLine(Line);

impl fmt::Display for OfLine {
    fn fmt<W: fmt::Write>(&self, f: &mut fmt::Formatter<W>) -> fmt::Result {
        let Line { p, q, d } = self.0;
        write!(f, "{p} {q} {d}")
    }
}

// A time, or that there is none.
#[derive(Clone, Copy)]
struct OfTime(u64);

impl fmt::Display for OfTime {
    fn fmt<W: fmt::Write>(&self, f: &mut fmt::Formatter<W>) -> fmt::Result {
        let time = self.0;
        if time == NO_TIME {
            return write!(f, "none");
        }
        write!(f, "{time}")
    }
}

impl Shown for Numbers {
    const OLD: Numbers = Numbers(OLD);

    fn mixed(self, digest: u64) -> u64 {
        let row = self.0;
        let first = mixed(digest, u64::from(row.first_time));
        let last = mixed(first, u64::from(row.last_time));
        let count = mixed(last, u64::from(row.count));
        let outlook = row.outlook;
        let lines = mixed_line(mixed_line(count, outlook.slow), outlook.fast);
        mixed(mixed(lines, outlook.some), outlook.all)
    }

    // The report's line of the segment at this place. One range is open.
    fn show(self, rt: &impl Print, place: usize) {
        let Row {
            first_time,
            last_time,
            count,
            outlook,
        } = self.0;
        let _ = print!(rt; "segment {place} from {first_time} to {last_time}");
        if count == 1 {
            let _ = println!(rt; " ranges 1 open");
            return;
        }
        let _ = print!(rt;
            " ranges {count} slow {} fast {}",
            OfLine(outlook.slow),
            OfLine(outlook.fast)
        );
        let _ = println!(rt;
            " some {} all {}",
            OfTime(outlook.some),
            OfTime(outlook.all)
        );
    }
}
