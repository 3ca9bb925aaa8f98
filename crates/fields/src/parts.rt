// Parts of a slice, with the slice and the position as plain parameters.
ghost use Rattle.std.specs.Prelude.{◌≡◌, get_or, take, drop};
ghost use Rattle.fields.specs.Places.{place_in};

// The byte at `at`; past the end, 0.
pub fn byte_at(s: &[u8], at: usize) -> u8
    ensures { result ≡ get_or s.now at 0 }
{
    s.get(at).copied().unwrap_or(0)
}

// What is left of s after its first `at` bytes; past the end, nothing.
pub fn tail(s: &[u8], at: usize) -> &[u8]
    ensures { (result.now ≡ drop at s.now) × (result.ref_ptr ≡ place_in s.entry at) }
{
    &s[at.min(s.len())..]
}

// `len` bytes of s from `at`, or as many as there are.
pub fn part(s: &[u8], at: usize, len: usize) -> &[u8]
    ensures { (result.now ≡ take len (drop at s.now)) × (result.ref_ptr ≡ place_in s.entry at) }
{
    let rest = tail(s, at);
    &rest[..len.min(rest.len())]
}
