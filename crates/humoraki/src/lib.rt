// What other languages link: the calls on numbers and slices. Each gives 0, or the number of a refusal,
// and puts its counts, records and outlooks into lent numbers: it never reads them, and sets them on success alone.
// Each hands its slices on to the call below, and the lent numbers to the function of `answer_numbers` that tells the call's answer.
#![tactic(auto)]

ghost use Rattle.drift.specs.Columns.{columns};
ghost use Rattle.answer_numbers.specs.Told.{eight};
ghost use Rattle.humoraki.specs.Promises.{AfterRead, AfterWrite, AfterSegment, AfterCorners, AfterPreview, AfterLatest, AfterReport, AfterAdd, AfterHeadRanges};

use definitions::entries::Entry;

// The trace of a file, with its address, level, direction, step and number of ranges.
#[unsafe(no_mangle)]
pub extern "C" fn humoraki_read(
    file: &[u8],
    times: &mut [u32],
    lows: &mut [i32],
    highs: &mut [i32],
    address: &mut u32,
    level: &mut i32,
    direction: &mut u32,
    step: &mut u32,
    ranges: &mut usize,
) -> u8
    ensures { AfterRead file.now (record { times = times.entry.now; lows = lows.old; highs = highs.old; address = address.old; level = level.old; direction = direction.old; step = step.old; ranges = ranges.old }) (record { times = times.exit.now; lows = lows.new; highs = highs.new; address = address.new; level = level.new; direction = direction.new; step = step.new; ranges = ranges.new }) result }
{
    let answer = trace::read(file, times, lows, highs);
    answer_numbers::tell_read(answer, address, level, direction, step, ranges)
}

// The file of a trace, and the count of its bytes.
#[unsafe(no_mangle)]
pub extern "C" fn humoraki_write(
    address: u32,
    level: i32,
    direction: u32,
    step: u32,
    times: &[u32],
    lows: &[i32],
    highs: &[i32],
    file: &mut [u8],
    count: &mut usize,
) -> u8
    ensures { AfterWrite (record { address = address; service = record { level = level; direction = direction; step = step } }) (record { times = times.entry.now; lows = lows.now; highs = highs.now }) (record { file = file.entry.now; count = count.old }) (record { file = file.exit.now; count = count.new }) result }
{
    let written = trace::write(address, level, direction, step, times, lows, highs, file);
    answer_numbers::tell_count(written, count)
}

// The segments of a trace, and their count.
#[unsafe(no_mangle)]
pub extern "C" fn humoraki_segment(
    level: i32,
    direction: u32,
    step: u32,
    times: &[u32],
    lows: &[i32],
    highs: &[i32],
    first_times: &mut [u32],
    last_times: &mut [u32],
    counts: &mut [u32],
    slow_ps: &mut [i64],
    slow_qs: &mut [i64],
    slow_ds: &mut [i64],
    fast_ps: &mut [i64],
    fast_qs: &mut [i64],
    fast_ds: &mut [i64],
    somes: &mut [u64],
    alls: &mut [u64],
    count: &mut usize,
) -> u8
    ensures { AfterSegment (record { level = level; direction = direction; step = step }) (record { times = times.entry.now; lows = lows.now; highs = highs.now }) (record { columns = columns first_times.old last_times.old counts.old slow_ps.old slow_qs.old slow_ds.old fast_ps.old fast_qs.old fast_ds.old somes.old alls.old; count = count.old }) (record { columns = columns first_times.new last_times.new counts.new slow_ps.new slow_qs.new slow_ds.new fast_ps.new fast_qs.new fast_ds.new somes.new alls.new; count = count.new }) result }
{
    let segmented = drift::segment(
        level,
        direction,
        step,
        times,
        lows,
        highs,
        first_times,
        last_times,
        counts,
        slow_ps,
        slow_qs,
        slow_ds,
        fast_ps,
        fast_qs,
        fast_ds,
        somes,
        alls,
    );
    answer_numbers::tell_count(segmented, count)
}

// The corners of the fit of the segment then running after the first k ranges, and their count, which is 0 where the fit is open.
#[unsafe(no_mangle)]
pub extern "C" fn humoraki_corners(
    k: usize,
    times: &[u32],
    lows: &[i32],
    highs: &[i32],
    ps: &mut [i64],
    qs: &mut [i64],
    ds: &mut [i64],
    count: &mut usize,
) -> u8
    ensures { AfterCorners k (record { times = times.entry.now; lows = lows.now; highs = highs.now }) (record { ps = ps.entry.now; qs = qs.old; ds = ds.old; count = count.old }) (record { ps = ps.exit.now; qs = qs.new; ds = ds.new; count = count.new }) result }
{
    let answer = drift::corners(k, times, lows, highs, ps, qs, ds);
    answer_numbers::tell_corners(answer, count)
}

// The effect of a range before it is added: its kind, 0 where it joins the last segment and 1 where it begins one, and the outlook of the last segment then.
#[unsafe(no_mangle)]
pub extern "C" fn humoraki_preview(
    level: i32,
    direction: u32,
    step: u32,
    times: &[u32],
    lows: &[i32],
    highs: &[i32],
    time: u32,
    low: i32,
    high: i32,
    kind: &mut u32,
    slow_p: &mut i64,
    slow_q: &mut i64,
    slow_d: &mut i64,
    fast_p: &mut i64,
    fast_q: &mut i64,
    fast_d: &mut i64,
    some: &mut u64,
    all: &mut u64,
) -> u8
    ensures { AfterPreview (record { level = level; direction = direction; step = step }) (record { times = times.entry.now; lows = lows.now; highs = highs.now }) (record { time = time; low = low; high = high }) (record { kind = kind.entry.now; numbers = eight slow_p.old slow_q.old slow_d.old fast_p.old fast_q.old fast_d.old some.old all.old }) (record { kind = kind.exit.now; numbers = eight slow_p.new slow_q.new slow_d.new fast_p.new fast_q.new fast_d.new some.new all.new }) result }
{
    let answer = preview::preview(level, direction, step, times, lows, highs, time, low, high);
    answer_numbers::tell_preview(
        answer, kind, slow_p, slow_q, slow_d, fast_p, fast_q, fast_d, some, all,
    )
}

// The latest trend of a trace: how many ranges it has, its outlook, its corners and their count. No range and one range are open, without corners.
#[unsafe(no_mangle)]
pub extern "C" fn humoraki_latest(
    level: i32,
    direction: u32,
    step: u32,
    times: &[u32],
    lows: &[i32],
    highs: &[i32],
    ps: &mut [i64],
    qs: &mut [i64],
    ds: &mut [i64],
    ranges: &mut usize,
    slow_p: &mut i64,
    slow_q: &mut i64,
    slow_d: &mut i64,
    fast_p: &mut i64,
    fast_q: &mut i64,
    fast_d: &mut i64,
    some: &mut u64,
    all: &mut u64,
    corners: &mut usize,
) -> u8
    ensures { AfterLatest (record { level = level; direction = direction; step = step }) (record { times = times.entry.now; lows = lows.now; highs = highs.now }) (record { ps = ps.entry.now; qs = qs.old; ds = ds.old; ranges = ranges.old; numbers = eight slow_p.old slow_q.old slow_d.old fast_p.old fast_q.old fast_d.old some.old all.old; corners = corners.old }) (record { ps = ps.exit.now; qs = qs.new; ds = ds.new; ranges = ranges.new; numbers = eight slow_p.new slow_q.new slow_d.new fast_p.new fast_q.new fast_d.new some.new all.new; corners = corners.new }) result }
{
    let answer = latest::latest(level, direction, step, times, lows, highs, ps, qs, ds);
    answer_numbers::tell_latest(
        answer, ranges, slow_p, slow_q, slow_d, fast_p, fast_q, fast_d, some, all, corners,
    )
}

// The report of a file, and the count of its bytes.
#[unsafe(no_mangle)]
pub extern "C" fn humoraki_report(file: &[u8], text: &mut [u8], count: &mut usize) -> u8
    ensures { AfterReport file.now (record { text = text.entry.now; count = count.old }) (record { text = text.exit.now; count = count.new }) result }
{
    let reported = report_text::report(file, text);
    answer_numbers::tell_count(reported, count)
}

// One range more of one head, on a panel of many.
#[unsafe(no_mangle)]
pub extern "C" fn humoraki_add(
    entries: &mut [Entry],
    addresses: &mut [u32],
    times: &mut [u32],
    lows: &mut [i32],
    highs: &mut [i32],
    address: u32,
    time: u32,
    low: i32,
    high: i32,
) -> u8
    ensures { AfterAdd (record { entries = entries.entry.now; places = record { addresses = addresses.entry.now; times = times.old; lows = lows.old; highs = highs.old } }) address (record { time = time; low = low; high = high }) (record { entries = entries.exit.now; places = record { addresses = addresses.exit.now; times = times.new; lows = lows.new; highs = highs.new } }) result }
{
    let answer = panel::add(
        entries, addresses, times, lows, highs, address, time, low, high,
    );
    answer_numbers::add_number(answer)
}

// The ranges of one head of a panel, and their count.
#[unsafe(no_mangle)]
pub extern "C" fn humoraki_head_ranges(
    entries: &[Entry],
    addresses: &[u32],
    times: &[u32],
    lows: &[i32],
    highs: &[i32],
    address: u32,
    into_times: &mut [u32],
    into_lows: &mut [i32],
    into_highs: &mut [i32],
    count: &mut usize,
) -> u8
    ensures { AfterHeadRanges (record { entries = entries.entry.now; places = record { addresses = addresses.entry.now; times = times.entry.now; lows = lows.now; highs = highs.now } }) address (record { lists = record { times = into_times.old; lows = into_lows.old; highs = into_highs.old }; count = count.old }) (record { lists = record { times = into_times.new; lows = into_lows.new; highs = into_highs.new }; count = count.new }) result }
{
    let listed = panel::head_ranges(
        entries, addresses, times, lows, highs, address, into_times, into_lows, into_highs,
    );
    answer_numbers::tell_count(listed, count)
}
