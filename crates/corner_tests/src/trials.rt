// Trials from text. A line is a remark, which begins with `#`, or k and the slice that is one too short, and the three
// lists. Without a second number no slice is too short; without a first one every k is tried, and one too low and one
// too high.
use crate::answers::tell;
use fields::parts::part;
use testing::lists::entry_or;
use testing::trials::{Trial, is_remark, line_end};

fn tell_trial(rt: &impl Print, line: &[u8]) {
    let mut params = [0u32; 64];
    let mut times = [0u32; 64];
    let mut lows = [0i32; 64];
    let mut highs = [0i32; 64];
    let Trial {
        params,
        times,
        lows,
        highs,
    } = Trial::read(line, &mut params, &mut times, &mut lows, &mut highs);
    let Some(&k) = params.first() else {
        for k in 0..=times.len() + 1 {
            tell(rt, 3, k, times, lows, highs);
        }
        return;
    };
    let short = entry_or(params, 1, 3);
    tell(rt, short as usize, k as usize, times, lows, highs);
}

pub fn tell_line(rt: &impl Print, line: &[u8]) {
    let _ = rt.write_all(line);
    let _ = println!(rt; "");
    if !is_remark(line) {
        tell_trial(rt, line);
    }
}

pub fn all(rt: &impl Print, text: &[u8]) {
    let mut at = 0;
    // only the lines tell how many turns there are
    while at < text.len() {
        let end = line_end(text, at);
        tell_line(rt, part(text, at, end - at));
        at = end + 1;
    }
}
