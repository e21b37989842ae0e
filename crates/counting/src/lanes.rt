// Which combination each of many pairs shows on the read wires, 64 pairs in the bits of a word and eight gathered at once.
ghost use Rattle.std.specs.Prelude.{◌≡◌, Bool, ℕ, ◌+◌, ◌/◌, ◌^◌, ◌≤◌, ◌<◌, length};
ghost use Rattle.circuit.specs.Lists.{nth};
ghost use Rattle.counting.specs.Internal.Lanes.{spread_of, gathered, shown_by, column_of, place_of, shown_in, Adds, tally_of, HasRoom};

use super::tallies::Tallies;

// The bits of a byte, each in a byte of its own: both halves by one product.
fn spread(bits: u64) -> u64
    requires { bits < 256 }
    ensures { result ≡ spread_of 8 bits }
{
    (bits / 16 * 0x1_0000_0000 + bits % 16) * 0x0020_4081 & 0x0101_0101_0101_0101
}

// The numbers of the combinations that eight pairs show, from one of 64 on, each in a byte: the wires' words are at one of the four
// places that each wire has, told by its number.
fn gather(shown: &[u64; 32], word: usize, from: usize, found: usize) -> u64
    requires { (word < 4) × (from < 64) × (found ≤ 8) }
    ensures { result ≡ gathered 8 (shown_by (λ i. column_of shown.now word i / 2 ^ from) found) }
{
    let mut numbers = 0;
    for i in 0..found {
        numbers = 2 * numbers + spread((shown[4 * i + word] >> from) % 256);
    }
    numbers
}

// Counts one more for the numbers of so many of them.
fn add(tally: &mut [u32; 256], numbers: u64, lanes: usize)
    requires { (lanes ≤ 8) × ((n : ℕ) → nth tally.old n + lanes < 4294967296) }
    ensures added { (f : ℕ → ℕ) → ((l : ℕ) → f l < 256) → numbers ≡ gathered 8 f → Adds f lanes tally.old tally.new }
    ensures sized { length tally.new ≡ 256 }
{
    let mut rest = numbers;
    for _lane in 0..lanes {
        tally[(rest % 256) as usize] += 1;
        rest /= 256;
    }
}

// Counts the first pairs of a word, at most 64, eight at once, under both sets: the second set's words stand two places behind the
// first's. Both are counted by turns, so that one addition need not wait for the last.
fn add_word(tallies: &mut Tallies, shown: &[u64; 32], word: usize, found: usize, lanes: usize)
    requires { (word < 2) × (found ≤ 8) × (lanes ≤ 64) × HasRoom tallies.old lanes }
    ensures { (second : Bool) → Adds (shown_by (column_of shown.now (place_of second word)) found) lanes (tally_of second tallies.old) (tally_of second tallies.new) }
{
    for done in (0..lanes).step_by(8) {
        let count = (lanes - done).min(8);
        let one = gather(shown, word, done, found);
        let other = gather(shown, word + 2, done, found);
        add(&mut tallies.first, one, count);
        add(&mut tallies.second, other, count);
    }
}

// Counts the first pairs of a batch, at most 128, under both sets, word by word.
pub(crate) fn add_batch(tallies: &mut Tallies, shown: &[u64; 32], found: usize, lanes: usize)
    requires { (found ≤ 8) × (lanes ≤ 128) × HasRoom tallies.old lanes }
    ensures { (second : Bool) → Adds (shown_in shown.now second found) lanes (tally_of second tallies.old) (tally_of second tallies.new) }
{
    add_word(tallies, shown, 0, found, lanes.min(64));
    add_word(tallies, shown, 1, found, lanes.saturating_sub(64));
}
