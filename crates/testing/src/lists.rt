// Entries and first entries of lists, whatever their lengths.
ghost use Rattle.std.specs.Prelude.{◌≡◌, ◌-◌, if◌then◌else◌, length, take, get_or};

// The first n entries of a list, or as many as there are.
pub fn first<T>(xs: &[T], n: usize) -> &[T]
    ensures { result.now ≡ take n xs.now }
{
    &xs[..n.min(xs.len())]
}

// Entry k of a list; past the end, what is given.
pub fn entry_or<T: Copy>(xs: &[T], k: usize, past: T) -> T
    ensures { result ≡ get_or xs.now k past }
{
    xs.get(k).copied().unwrap_or(past)
}

// A list without its last entry, or all of it.
pub fn lent<T>(xs: &mut [T], short: bool) -> &mut [T]
    ensures { result.now ≡ take (length xs.old - (if short then 1 else 0)) xs.old }
{
    let n = xs.len().saturating_sub(usize::from(short));
    &mut xs[..n]
}
