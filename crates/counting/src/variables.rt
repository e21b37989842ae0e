// The variables of an expanded table that are no products: the free bits, which set of secret bits is taken, and 1. They have four
// words each, in which 128 pairs have a bit each: two words for the first set, and two for the second.
ghost use Rattle.std.specs.Prelude.{◌≡◌, cond, ◌+◌, ◌*◌, ◌≤◌, ◌<◌, length};
ghost use Rattle.symbolic.specs.Internal.Sums.{four_at};
ghost use Rattle.counting.specs.Internal.Lanes.{lane_bit};
ghost use Rattle.counting.specs.Internal.Words.{free_word};
ghost use Rattle.counting.specs.Internal.Preparing.{FreeFilled, Variables};

use super::{numbers, pairs};
use symbolic::evaluate::{Four, write_four};

// The words of a bit that no pair has, of one that the pairs of the second set have, and of one that all have.
const NONE: Four = Four {
    a: 0,
    b: 0,
    c: 0,
    d: 0,
};

const SECOND: Four = Four {
    a: 0,
    b: 0,
    c: pairs::ONES,
    d: pairs::ONES,
};

const ALL: Four = Four {
    a: pairs::ONES,
    b: pairs::ONES,
    c: pairs::ONES,
    d: pairs::ONES,
};

// The words of a free bit that varies as the one of so many before it, the same under both sets.
fn write_varied(words: &mut [u64; 256], i: usize, rank: usize, batch: usize)
    requires { (i < 16) × (rank < 16) × (batch ≤ 65536) }
    ensures { words.new ≡ four_at words.old (4 * i) (free_word rank (2 * batch)) (free_word rank (2 * batch + 1)) (free_word rank (2 * batch)) (free_word rank (2 * batch + 1)) }
{
    let one = pairs::free_word(rank, 2 * batch);
    let other = pairs::free_word(rank, 2 * batch + 1);
    let four = Four {
        a: one,
        b: other,
        c: one,
        d: other,
    };
    write_four(words, 4 * i, four);
}

// The words of all free bits in the pairs of a batch: a bit varies where it is a factor, and is 0 elsewhere.
fn fill_free(words: &mut [u64; 256], factors: u64, free: usize, batch: usize)
    requires { (free ≤ 16) × (batch ≤ 65536) }
    ensures { FreeFilled factors free batch words.new }
{
    let mut rank = 0;
    for i in 0..free {
        if !numbers::has(factors, i) {
            write_four(words, 4 * i, NONE);
            continue;
        }
        write_varied(words, i, rank, batch);
        rank += 1;
    }
}

// The words of these variables in the pairs of a batch.
pub(crate) fn fill_variables(words: &mut [u64; 256], factors: u64, free: usize, batch: usize)
    requires { (free ≤ 16) × (batch ≤ 65536) }
    ensures { Variables factors free batch words.new }
{
    fill_free(words, factors, free, batch);
    write_four(words, 64, SECOND);
    write_four(words, 68, ALL);
}
