// The report of a trace file: what is printed for it, byte by byte, into a lent slice.
#![tactic(auto)]

mod report_lines; // report_lines.rt: the parts of a report's lines, and its lines
mod trace_text; // trace_text.rt: the report of a trace that was read

ghost use Rattle.report_text.specs.ReportPromise.{ReportPromise};

use definitions::limits::MOST_RANGES;
use definitions::refusals::Refusal;
use report_lines::put_refused;
use trace::read;
use trace_text::put_trace;

// The least length of the slice for a report: 256 bytes for the trace's line and for each of 2,048 segments.
pub const REPORT_ROOM: usize = 524544;

// The scope's report of a file, and the number of its bytes. A file that is turned down has a report too.
pub fn report(file: &[u8], text: &mut [u8]) -> Result<usize, Refusal>
    ensures { ReportPromise file.now text.old text.new result }
{
    if text.len() < REPORT_ROOM {
        return Err(Refusal::SliceTooShort);
    }
    let mut times = [0u32; MOST_RANGES];
    let mut lows = [0i32; MOST_RANGES];
    let mut highs = [0i32; MOST_RANGES];
    let answer = read(file, &mut times, &mut lows, &mut highs);
    match answer {
        Err(refusal) => Ok(put_refused(text, 0, u8::from(refusal))),
        Ok(known) => {
            let n = known.ranges;
            Ok(put_trace(
                text,
                known.address,
                known.level,
                known.direction,
                known.step,
                &times[..n],
                &lows[..n],
                &highs[..n],
            ))
        }
    }
}
