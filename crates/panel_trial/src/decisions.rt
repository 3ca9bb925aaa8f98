// What becomes of a range for a panel, on its entries and the addresses and times in its places.
ghost use Rattle.std.specs.Prelude.{◌≡◌, ◌≤◌, false, length};
ghost use Rattle.definitions.specs.Answers.{firstRow};
ghost use Rattle.definitions.specs.Refusals.{answered};
ghost use Rattle.definitions.specs.Spans.{panel_room};
ghost use Rattle.definitions.specs.Trial.{too_short};
ghost use Rattle.panel_trial.specs.Decisions.{RoomFor, Decided, Tried, room_rows};

use crate::heads::panel_bad;
use crate::tallies::{common_of, head_place, least_time, total_of};
use definitions::entries::Entry;
use definitions::limits::{COMMON_PLACES, PANEL_ROOM, SURE_PLACES};
use definitions::refusals::Refusal;
use trial::{some_short, try_range};

// What becomes of an accepted range: the place of its head's entry, what that entry then holds, and the range's place in the lists.
#[derive(Clone, Copy)]
pub struct Decision {
    pub at: usize,
    pub held: u32,
    pub place: usize,
}

// Lists of these lengths: 8 if one of them is below 4,096.
pub fn try_room(lengths: &[usize]) -> Result<(), Refusal>
    ensures { answered result ≡ firstRow (room_rows lengths.now) }
{
    if some_short(PANEL_ROOM, lengths) {
        return Err(Refusal::SliceTooShort);
    }
    Ok(())
}

// The panel with an address, among lists of these lengths: 8, 14, 12, else the place of the address's entry.
pub fn try_panel(
    lengths: &[usize],
    entries: &[Entry],
    addresses: &[u32],
    address: u32,
) -> Result<usize, Refusal>
    requires { too_short panel_room lengths.now ≡ false → panel_room ≤ length addresses.now }
    ensures { Tried lengths.now entries.now addresses.now address result }
{
    try_room(lengths)?;
    if panel_bad(entries, addresses) {
        return Err(Refusal::NotAPanel);
    }
    head_place(entries, address).ok_or(Refusal::AddressUnknown)
}

// A range for the panel, among lists of these lengths: 8, 14, 12, then its own 4, 5, 6, then 13; else it is accepted.
pub fn decide(
    lengths: &[usize],
    entries: &[Entry],
    addresses: &[u32],
    times: &[u32],
    address: u32,
    time: u32,
    low: i32,
    high: i32,
) -> Result<Decision, Refusal>
    requires { too_short panel_room lengths.now ≡ false → RoomFor addresses.now times.now }
    ensures { Decided lengths.now entries.now addresses.now times.now address (record { time = time; low = low; high = high }) result }
{
    let at = try_panel(lengths, entries, addresses, address)?;
    let total = total_of(entries) as usize;
    let least = least_time(&addresses[..total], &times[..total], address);
    try_range(least, time, low, high)?;
    let held = entries[at].held;
    let common = common_of(entries);
    if SURE_PLACES <= held && COMMON_PLACES <= common {
        return Err(Refusal::PanelFull);
    }
    Ok(Decision {
        at,
        held: held + 1,
        place: total,
    })
}
