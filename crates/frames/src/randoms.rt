// How many random bits a gadget takes: one for each pair of its shares, from a list, so that nothing is divided.
ghost use Rattle.std.specs.Prelude.{◌≡◌, true, ◌≤◌, length};
ghost use Rattle.frames.specs.Randoms.{doubled, listed_pairs};

// Those of 2 to 8 shares. The test goes over the whole list: each number, doubled, is d(d−1).
fn random_numbers() -> [u16; 7]
    ensures { (doubled 2 result ≡ true) × (length result ≡ 7) }
{
    [1, 3, 6, 10, 15, 21, 28]
}

// The random bits of a gadget of d shares: d(d−1)/2 up to 8 shares. The list ends there: for more shares the answer is 0, as
// `listed_pairs` has it; no option, since each caller has an answer's number of shares at hand.
pub fn random_bits(d: u16) -> u16
    ensures { (result ≡ listed_pairs d) × (result ≤ 28) }
{
    if d < 2 {
        return 0;
    }
    if 8 < d {
        return 0;
    }
    let numbers = random_numbers();
    let i = (d - 2) as usize;
    numbers[i]
}
