// Standard input, read to its end.
ghost use Rattle.std.specs.Prelude.{◌≡◌, ◌≢◌, ◌+◌, ◌<◌, ◌≤◌, IfOk, IfErr, length};
ghost use Rattle.std.specs.IoError.{error_kind};
ghost use Rattle.std.specs.Io.KnownBytes.{IsAtEnd};
ghost use Rattle.report.specs.Inputs.{got_of, InputIn};

use std::io::{Error, ErrorKind, Read, Result};

// What a read gave that did not fail: some bytes, and how many; the end of the input; or nothing, because a signal came.
#[derive(Clone, Copy)]
pub enum Got {
    Bytes(usize),
    End,
    Interrupted,
}

// What a read says that gave this answer. A read that fails is not the end, and a signal is no failure.
fn got_of(answer: Result<usize>) -> Result<Got>
    ensures { result ≡ got_of answer }
{
    match answer {
        Ok(0) => Ok(Got::End),
        Ok(bytes) => Ok(Got::Bytes(bytes)),
        Err(error) => {
            if error.kind() == ErrorKind::Interrupted {
                Ok(Got::Interrupted)
            } else {
                Err(error)
            }
        }
    }
}

// One read, to the bytes of the buffer from `at` on. No byte is the end of the input, and nothing else is: a read that fails is not.
fn read_at<R: Read>(input: &mut R, buffer: &mut [u8], at: usize) -> Result<usize>
    requires { at < length buffer.old }
    ensures inside { IfOk result (λ bytes. at + bytes ≤ length buffer.new) }
    ensures end { IfOk result (λ bytes. bytes ≡ 0 → IsAtEnd (R.remaining input.new)) }
{
    input.read(&mut buffer[at..])
}

// How often an interrupted read is taken up again at most, as the program has to end.
const MOST_INTERRUPTIONS: usize = 4096;

// Reads until the buffer is full or the input ends. Where a read fails before that, nobody knows where the input would
// have ended, so what came of it until then is not taken for the whole.
pub fn read_input<R: Read>(input: &mut R, buffer: &mut [u8]) -> Result<usize>
    ensures inside { InputIn (length buffer.new) result }
    ensures whole { IfOk result (λ size. size < length buffer.new → IsAtEnd (R.remaining input.new)) }
    ensures retried { IfErr result (λ error. error_kind error ≢ ErrorKind.Interrupted) }
{
    let mut size = 0;
    let mut interruptions = 0;
    // the buffer, the input or the interruptions end it, so no count tells how many turns there are
    while size < buffer.len() {
        let answer = read_at(input, buffer, size);
        match got_of(answer)? {
            Got::Bytes(more) => size += more,
            Got::End => return Ok(size),
            Got::Interrupted => {
                if interruptions == MOST_INTERRUPTIONS {
                    return Err(Error::from(ErrorKind::TimedOut));
                }
                interruptions += 1;
            }
        }
    }
    Ok(size)
}
