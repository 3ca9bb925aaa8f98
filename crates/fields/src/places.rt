// A value put at a place of a lent slice.
ghost use Rattle.std.specs.Prelude.{◌≡◌, set};

// Stores a value at `at`, if there is such a place.
pub fn store<T: Copy>(into: &mut [T], at: usize, x: T)
    ensures { into.new ≡ set into.old at x }
{
    if at < into.len() {
        into[at] = x;
    }
}
