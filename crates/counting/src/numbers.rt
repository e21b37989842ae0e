// Powers of two, and sets of numbers as the bits of a word.
ghost use Rattle.std.specs.Prelude.{◌≡◌, ◌^◌, ◌≤◌, ◌<◌};
ghost use Rattle.counting.specs.Internal.Lanes.{lane_bit};

// 2 to the power of a number.
pub(crate) fn power(n: usize) -> usize
    requires { n ≤ 16 }
    ensures { (result ≡ 2 ^ n) × (1 ≤ result) × (result ≤ 65536) }
{
    1 << n
}

// Whether a number is in a set.
pub(crate) fn has(set: u64, n: usize) -> bool
    requires { n < 64 }
    ensures { result ≡ lane_bit n set }
{
    (set >> n) % 2 != 0
}
