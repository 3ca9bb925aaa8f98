// The lent list of entries, one for each detector.
ghost use Rattle.std.specs.Prelude.{◌≡◌, ◌<◌, length, get_or};
ghost use Rattle.panel_laws.specs.Entries.{no_entry, with_held};

use definitions::entries::Entry;

// The entry at `at`.
pub fn entry_at(entries: &[Entry], at: usize) -> Entry
    requires { at < length entries.now }
    ensures { result ≡ get_or entries.now at no_entry }
{
    entries[at]
}

// Sets what the entry at `at` holds, if there is such an entry.
pub fn set_held(entries: &mut [Entry], at: usize, held: u32)
    ensures { entries.new ≡ with_held at held entries.old }
{
    if at < entries.len() {
        entries[at].held = held;
    }
}
