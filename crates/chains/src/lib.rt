// The fit of a run as two chains and two lines. All of it stands in specs/; a crate has at least one function, and this is it.
#![tactic(auto)]

ghost use Rattle.std.specs.Prelude.{◌≡◌};

pub fn same(x: u8) -> u8
    ensures { result ≡ x }
{
    x
}
