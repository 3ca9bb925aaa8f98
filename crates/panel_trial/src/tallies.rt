// Counts and sums over the entries of a panel and over the addresses in its places: what the trial of a panel is made of.
ghost use Rattle.std.specs.Prelude.{◌≡◌, ℕ, ◌<◌, ◌≤◌, length, get_or, position};
ghost use Rattle.definitions.specs.Spans.{most_heads, panel_room};
ghost use Rattle.definitions.specs.Panels.{total_held, common_taken, is_at};
ghost use Rattle.panel_laws.specs.Tallies.{incremented, tallied, least_from};

use definitions::entries::Entry;
use definitions::limits::SURE_PLACES;

// The place of the first entry with an address, where there is one.
#[tactic(auto, unfolding(definitions::specs::Panels::is_at))]
pub fn place_of(entries: &[Entry], address: u32) -> Option<usize>
    ensures { result ≡ position (is_at address) entries.now }
{
    entries.iter().position(|e| e.address == address)
}

// The same among the heads of a panel, of which there are 64 at most.
pub(crate) fn head_place(entries: &[Entry], address: u32) -> Option<usize>
    requires { length entries.now ≤ most_heads }
    ensures { result ≡ position (is_at address) entries.now }
{
    place_of(entries, address)
}

// The places held in all.
#[tactic(auto, using(crate::specs::Chains::total_sum))]
pub fn total_of(entries: &[Entry]) -> u64
    requires { length entries.now ≤ most_heads }
    ensures { result ≡ total_held entries.now }
{
    entries.iter().map(|e| u64::from(e.held)).sum()
}

// The common places taken: the sum of what each head holds above 32.
#[tactic(auto, using(crate::specs::Chains::common_sum))]
pub fn common_of(entries: &[Entry]) -> u64
    requires { length entries.now ≤ most_heads }
    ensures { result ≡ common_taken entries.now }
{
    entries
        .iter()
        .map(|e| u64::from(e.held.saturating_sub(SURE_PLACES)))
        .sum()
}

// Counts every address in one pass: `counts[a]` rises by how many of the addresses are a. An address past the end of `counts` is not counted.
pub fn tally(addresses: &[u32], counts: &mut [u16])
    requires { (length addresses.now ≤ panel_room) × ((i : ℕ) → get_or counts.old i 0 ≡ 0) }
    ensures { counts.new ≡ tallied counts.old addresses.now }
{
    for address in addresses {
        count_in(counts, *address);
    }
}

// Counts one address.
fn count_in(counts: &mut [u16], address: u32)
    requires { get_or counts.old address 0 < 65535 }
    ensures { counts.new ≡ incremented counts.old address }
{
    let at = address as usize;
    if at < counts.len() {
        counts[at] += 1;
    }
}

// The least time that the next range of a head may have: one more than that of the last range with its address, and 0 where it has none.
// That range is looked for from the end, where a head that is still written to has it.
pub fn least_time(addresses: &[u32], times: &[u32], address: u32) -> u64
    requires { length times.now ≡ length addresses.now }
    ensures { result ≡ least_from address 0 addresses.now times.now }
{
    for k in (0..addresses.len()).rev() {
        if addresses[k] == address {
            return u64::from(times[k]) + 1;
        }
    }
    0
}
