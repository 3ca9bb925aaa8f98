// Trials from text. A line is a remark, which begins with `#`, or the level, the slice that is one too short, the
// direction and the step, and the three lists. Without a second number no slice is too short, without a third the
// trace rises, without a fourth the step is 1.
use crate::answers::tell;
use fields::parts::part;
use testing::lists::entry_or;
use testing::trials::{Trial, is_remark, line_end};

fn tell_trial(rt: &impl Print, line: &[u8]) {
    let mut params = [0u32; 64];
    let mut times = [0u32; 64];
    let mut lows = [0i32; 64];
    let mut highs = [0i32; 64];
    let trial = Trial::read(line, &mut params, &mut times, &mut lows, &mut highs);
    tell(
        rt,
        entry_or(trial.params, 1, 11) as usize,
        entry_or(trial.params, 0, 0).cast_signed(),
        entry_or(trial.params, 2, 0),
        entry_or(trial.params, 3, 1),
        trial.times,
        trial.lows,
        trial.highs,
    );
}

pub fn tell_line(rt: &impl Print, line: &[u8]) {
    let _ = rt.write_all(line);
    let _ = println!(rt; "");
    if !is_remark(line) {
        tell_trial(rt, line);
    }
}

pub fn all(rt: &impl Print, text: &[u8]) {
    let mut at = 0;
    // only the lines tell how many turns there are
    while at < text.len() {
        let end = line_end(text, at);
        tell_line(rt, part(text, at, end - at));
        at = end + 1;
    }
}
