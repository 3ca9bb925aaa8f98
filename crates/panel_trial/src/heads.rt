// The trial of a panel, on its entries and the addresses in its places.
ghost use Rattle.std.specs.Prelude.{◌≡◌, false, ◌≤◌, length, get_or, take};
ghost use Rattle.integers.specs.Lists.{any};
ghost use Rattle.std.specs.List.{list_any};
ghost use Rattle.definitions.specs.Spans.{most_heads, panel_room};
ghost use Rattle.definitions.specs.Panels.{bad_panel, miscounted, outside_address, total_held, twice};
ghost use Rattle.panel_trial.specs.Chains.{miscounts};

use crate::tallies::{common_of, head_place, tally, total_of};
use definitions::entries::Entry;
use definitions::limits::{COMMON_PLACES, MOST_HEADS};
use trial::address_outside;

// Two entries have one address.
fn twice(entries: &[Entry]) -> bool
    requires { length entries.now ≤ most_heads }
    ensures { result ≡ twice entries.now }
{
    for k in 0..entries.len() {
        if head_place(&entries[k + 1..], entries[k].address).is_some() {
            return true;
        }
    }
    false
}

// Some entry's address is outside its span.
#[tactic(auto, unfolding(definitions::specs::Panels::outside_address))]
fn some_outside(entries: &[Entry]) -> bool
    requires { length entries.now ≤ most_heads }
    ensures { result ≡ list_any outside_address entries.now }
{
    entries.iter().any(|e| address_outside(e.address))
}

// What is counted at an address.
fn count_at(counts: &[u16], address: u32) -> u32
    ensures { result ≡ get_or counts.now address 0 }
{
    counts
        .get(address as usize)
        .map_or(0, |count| u32::from(*count))
}

// Some head does not hold what is counted at its address.
#[tactic(auto, unfolding(crate::specs::Chains::miscounts))]
fn miscounted_by(entries: &[Entry], counts: &[u16]) -> bool
    requires { length entries.now ≤ most_heads }
    ensures { result ≡ list_any (miscounts counts.now) entries.now }
{
    entries
        .iter()
        .any(|e| e.held != count_at(counts, e.address))
}

// Some head does not hold as many ranges as there are of its address. All addresses are counted in one pass.
fn miscounted(entries: &[Entry], addresses: &[u32]) -> bool
    requires { (length entries.now ≤ most_heads) × (length addresses.now ≤ panel_room) × (any outside_address entries.now ≡ false) }
    ensures { result ≡ any (miscounted addresses.now) entries.now }
{
    let mut counts = [0u16; 65536];
    tally(addresses, &mut counts);
    miscounted_by(entries, &counts)
}

// The panel is not one. The number of entries is tried before an entry is looked at, so that no more than 64 are; what is held is added up and the common places
// are tried before the places are counted, so that no place past 4,096 is read.
pub fn panel_bad(entries: &[Entry], addresses: &[u32]) -> bool
    requires { panel_room ≤ length addresses.now }
    ensures { result ≡ bad_panel entries.now (take (total_held entries.now) addresses.now) }
{
    if entries.is_empty() {
        return true;
    }
    if MOST_HEADS < entries.len() {
        return true;
    }
    if twice(entries) {
        return true;
    }
    if some_outside(entries) {
        return true;
    }
    if COMMON_PLACES < common_of(entries) {
        return true;
    }
    let total = total_of(entries) as usize;
    miscounted(entries, &addresses[..total])
}
