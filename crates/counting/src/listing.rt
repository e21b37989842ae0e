// The list of counts, four numbers a combination, as the C interface lends the sheet.
ghost use Rattle.std.specs.Prelude.{◌≡◌, Bool, ℕ, ◌+◌, ◌*◌, ◌^◌, ◌≤◌, length};
ghost use Rattle.std.proofs.lemmas.List.Edits.{sets};
ghost use Rattle.circuit.specs.Lists.{nth};
ghost use Rattle.counting.specs.Counting.{per_thousand};
ghost use Rattle.counting.specs.Internal.Lanes.{tally_of};
ghost use Rattle.counting.specs.Internal.Listing.{four_of, list_of};

use super::tallies::Tallies;

// The part of all pairs per thousand, halves rounded up. The pairs are those of so many free bits, so that nothing is divided.
fn per_thousand(count: u32, free: usize) -> u32
    requires { (count ≤ 65536) × (free ≤ 16) }
    ensures { result ≡ per_thousand count (2 ^ free) }
{
    let pairs = 1u32 << free;
    (2000 * count + pairs) >> (free + 1)
}

// The four numbers of a combination, from its counts under the two sets.
fn write_four(counts: &mut [u32], at: usize, one: u32, other: u32, free: usize)
    requires { (at + 4 ≤ length counts.old) × (one ≤ 65536) × (other ≤ 65536) × (free ≤ 16) }
    ensures { counts.new ≡ sets counts.old at (four_of one other (2 ^ free)) }
{
    counts[at] = one;
    counts[at + 1] = other;
    counts[at + 2] = per_thousand(one, free);
    counts[at + 3] = per_thousand(other, free);
}

// Those of all combinations, in rising order.
pub(crate) fn write_list(tallies: &Tallies, combinations: usize, free: usize, counts: &mut [u32])
    requires { (combinations ≤ 256) × (4 * combinations ≤ length counts.old) × (free ≤ 16) × ((second : Bool) (n : ℕ) → nth (tally_of second tallies.now) n ≤ 65536) }
    ensures { counts.new ≡ sets counts.old 0 (list_of tallies.now.first tallies.now.second (2 ^ free) 0 combinations) }
{
    for n in 0..combinations {
        write_four(counts, 4 * n, tallies.first[n], tallies.second[n], free);
    }
}
