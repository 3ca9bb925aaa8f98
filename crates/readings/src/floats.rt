// Floats by their bits. A NaN is the one float whose bits are not kept.
ghost use Rattle.std.specs.Prelude.{◌≡◌, drop, from_bits};
ghost use Rattle.std.specs.Float.{binary32};
ghost use Rattle.definitions.specs.FileNumbers.{word};

use fields::numbers::read_u32;

// The float in the four bytes from `at`, big-endian; a byte past the end counts as 0.
pub fn read_f32(s: &[u8], at: usize) -> f32
    ensures { result ≡ from_bits binary32 (word (drop at s.now)) }
{
    std::num::f32_from_bits_with_nan(read_u32(s, at))
}
