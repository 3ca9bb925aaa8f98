// An outlook and a segment as rows of numbers, one for each slice that Segment fills, and a segment back. Nothing is lost: specs/RowLaws.antt.
ghost use Rattle.std.specs.Prelude.{◌≡◌};
ghost use Rattle.definitions.specs.Results.{time_number, numbers_of, outlook_numbers};
ghost use Rattle.values.specs.Meanings.{time_of, outlook_of, segment_of};
ghost use Rattle.values.specs.Rows.{row_of, outlook_row_of, time_from, outlook_from, segment_from};

use crate::{Line, Outlook, Segment};
use definitions::limits::NO_TIME;

// The numbers of a segment, in the slices' order: its own three, and those of its outlook.
#[derive(Clone, Copy, PartialEq, Eq)]
pub struct Row {
    pub first_time: u32,
    pub last_time: u32,
    pub count: u32,
    pub outlook: OutlookRow,
}

// The numbers of an outlook, eight in all, as a line has three.
#[derive(Clone, Copy, PartialEq, Eq)]
pub struct OutlookRow {
    pub slow: Line,
    pub fast: Line,
    pub some: u64,
    pub all: u64,
}

// The number above every time stands for none.
#[tactic(auto, unfolding(definitions::specs::Results::time_number, crate::specs::Meanings::time_of))]
fn time_number(t: Option<u32>) -> u64
    ensures { result ≡ time_number (time_of t) }
{
    t.map_or(NO_TIME, u64::from)
}

// An open outlook has 0 in each.
impl From<Outlook> for OutlookRow {
    ghost from_gives = { λ outlook row. outlook_row_of row ≡ outlook_numbers (outlook_of outlook) };

    #[tactic(auto, unfolding(definitions::specs::Results::slow_line, definitions::specs::Results::fast_line, definitions::specs::Results::some_number, definitions::specs::Results::all_number, crate::specs::Meanings::outlook_of))]
    fn from(outlook: Outlook) -> OutlookRow {
        match outlook {
            Outlook::Open => {
                let zeros = Line { p: 0, q: 0, d: 0 };
                OutlookRow {
                    slow: zeros,
                    fast: zeros,
                    some: 0,
                    all: 0,
                }
            }
            Outlook::Lines {
                slow,
                fast,
                some,
                all,
            } => OutlookRow {
                slow,
                fast,
                some: time_number(some),
                all: time_number(all),
            },
        }
    }
}

// The last eight numbers are those of the segment's outlook.
impl From<Segment> for Row {
    ghost from_gives = { λ segment row. row_of row ≡ numbers_of (segment_of segment) };

    #[tactic(auto, unfolding(definitions::specs::Results::numbers_of, crate::specs::Meanings::segment_of))]
    fn from(segment: Segment) -> Row {
        Row {
            first_time: segment.first_time,
            last_time: segment.last_time,
            count: segment.count,
            outlook: OutlookRow::from(segment.outlook),
        }
    }
}

// A number above every time stands for none.
#[tactic(auto, unfolding(crate::specs::Rows::time_from, crate::specs::Meanings::time_of))]
fn time_from(number: u64) -> Option<u32>
    ensures { time_of result ≡ time_from number }
{
    u32::try_from(number).ok()
}

// A segment of one range is open, whatever its lines and times are.
#[tactic(auto, unfolding(crate::specs::Rows::outlook_from, crate::specs::Meanings::outlook_of))]
fn outlook_from(r: Row) -> Outlook
    ensures { outlook_of result ≡ outlook_from (row_of r) }
{
    if r.count < 2 {
        return Outlook::Open;
    }
    let OutlookRow {
        slow,
        fast,
        some,
        all,
    } = r.outlook;
    Outlook::Lines {
        slow,
        fast,
        some: time_from(some),
        all: time_from(all),
    }
}

// The segment that has these numbers.
impl From<Row> for Segment {
    ghost from_gives = { λ row segment. segment_of segment ≡ segment_from (row_of row) };

    #[tactic(auto, unfolding(crate::specs::Rows::segment_from, crate::specs::Meanings::segment_of))]
    fn from(row: Row) -> Segment {
        Segment {
            first_time: row.first_time,
            last_time: row.last_time,
            count: row.count,
            outlook: outlook_from(row),
        }
    }
}
