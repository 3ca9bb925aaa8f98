// The terms of the scope (docs/SCOPE.md) as definitions, which stand in specs/, and the numbers that code has of it.
#![tactic(auto)]

pub mod entries; // entries.rt: an entry of a panel
pub mod limits; // limits.rt: the spans and the rooms of slices
pub mod refusals; // refusals.rt: the cases of the table of refusals, each with its number

ghost use Rattle.std.specs.Prelude.{◌≡◌};

// A crate has at least one function, and this is it.
pub fn same(x: u8) -> u8
    ensures { result ≡ x }
{
    x
}
