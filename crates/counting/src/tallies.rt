// How many pairs show each combination.
ghost use Rattle.std.specs.Prelude.{◌≡◌, length};

// Counts under the first set of secret bits, and under the second, by the combinations' numbers.
#[derive(Drop)]
pub struct Tallies {
    pub first: [u32; 256],
    pub second: [u32; 256],
    ghost sized: { (length first ≡ 256) × (length second ≡ 256) },
}
