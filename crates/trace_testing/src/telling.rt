// What is written of a trial.
use definitions::refusals::Refusal;
use std::fmt::Display;
use testing::lists::entry_or;

// An answer: what was accepted, or the number of the refusal.
pub fn tell_answer<T: Display + Drop>(rt: &impl Print, answer: Result<T, Refusal>) {
    match answer {
        Ok(accepted) => {
            let _ = print!(rt; " accepted {accepted}");
        }
        Err(refusal) => {
            let _ = print!(rt; " refused {}", u8::from(refusal));
        }
    }
}

// The slices after a call, by their digests before it and now.
pub fn tell_contents(rt: &impl Print, before: u64, now: u64) {
    if before == now {
        let _ = println!(rt; ", slices kept");
        return;
    }
    let _ = println!(rt; ", slices {now}");
}

// A byte or a number more.
fn mixed(digest: u64, x: u32) -> u64 {
    (digest % 4294967291 * 31 + u64::from(x)) % 4294967291
}

fn with_range(digest: u64, time: u32, low: i32, high: i32) -> u64 {
    let low_mixed = mixed(mixed(digest, time), low.cast_unsigned());
    mixed(low_mixed, high.cast_unsigned())
}

// Of three lists of at most 4,200 entries; past the end of a list, 0 stands.
pub fn lists_digest(times: &[u32], lows: &[i32], highs: &[i32]) -> u64 {
    let mut digest = 1;
    for k in 0..4200 {
        let time = entry_or(times, k, 0);
        digest = with_range(digest, time, entry_or(lows, k, 0), entry_or(highs, k, 0));
    }
    digest
}

pub fn bytes_digest(file: &[u8]) -> u64 {
    file.iter()
        .fold(1, |digest, &byte| mixed(digest, u32::from(byte)))
}
