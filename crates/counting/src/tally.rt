// All pairs of a sharing of given secret bits and a tape: how often the read wires show each combination. Those that are gone through
// are taken 128 at once, under both sets of secret bits.
ghost use Rattle.std.specs.Prelude.{◌≡◌, Bool, List, ℕ, ◌≤◌, ◌<◌, length, replicate};
ghost use Rattle.circuit.specs.Limits.{wire_limit};
ghost use Rattle.gadgets.specs.Internal.Accepting.{circuit_in};
ghost use Rattle.counting.specs.Counting.{pair_count};
ghost use Rattle.counting.specs.Internal.Tallying.{Listable, Prepared, Ready, HoldsShown, set_of, TalliedSome, Tallied, ListsCounts};
ghost use Rattle.counting.specs.Internal.Lanes.{tally_of};
ghost use Rattle.counting.specs.Internal.Linear.{Surveyed};

use super::enumeration::{Enumeration, enumerate};
use super::plan::plan_pairs;
use super::prepare::{Terms, prepare};
use super::tallies::Tallies;
use super::variables::fill_variables;
use super::{lanes, linear, listing, numbers};
use checker::Accepted;
use circuit::WIRES;
use symbolic::evaluate;

// Wires for which sheets of sums do that are smaller than one for any circuit.
const SMALL_SHEET: usize = 128;

const MIDDLE_SHEET: usize = 512;

const LARGE_SHEET: usize = 2048;

// The values of the read wires in the 128 pairs of a batch under both sets, four words each, from an expanded table.
fn show_batch(
    sums: &[u64],
    terms: &Terms,
    read: &[u16],
    enumeration: Enumeration,
    batch: usize,
    words: &mut [u64; 256],
    shown: &mut [u64; 32],
)
    requires { Ready read.now sums.now terms.now.sums terms.now.outputs enumeration.plan × (batch < enumeration.batches) }
    ensures { ((table secrets : List ℕ) → Prepared table secrets read.now sums.now terms.now.sums terms.now.outputs enumeration.plan
        → HoldsShown table secrets enumeration.factors enumeration.plan.free batch read.now shown.new) × (length words.new ≡ 256) × (length shown.new ≡ 32) }
{
    fill_variables(words, enumeration.factors, enumeration.plan.free, batch);
    evaluate::run(&terms.sums, 0, terms.outputs, words);
    evaluate::run(&terms.sums, 32, 32 + read.len(), words);
    evaluate::show(sums, read, words, shown);
}

// Counts, from 0, how many of the pairs that are gone through show each combination on the read wires, under each set of secret bits.
fn tally_some(
    sums: &[u64],
    terms: &Terms,
    read: &[u16],
    enumeration: Enumeration,
    tallies: &mut Tallies,
)
    requires { Ready read.now sums.now terms.now.sums terms.now.outputs enumeration.plan × ((second : Bool) → tally_of second tallies.old ≡ replicate 256 0) }
    ensures { (table secrets : List ℕ) → Prepared table secrets read.now sums.now terms.now.sums terms.now.outputs enumeration.plan
        → (second : Bool) → TalliedSome table (set_of table second secrets) read.now enumeration.factors enumeration.plan.free (tally_of second tallies.new) }
{
    let mut words = [0u64; 256];
    let mut shown = [0u64; 32];
    for batch in 0..enumeration.batches {
        show_batch(
            sums,
            terms,
            read,
            enumeration,
            batch,
            &mut words,
            &mut shown,
        );
        lanes::add_batch(tallies, &shown, read.len(), enumeration.lanes);
    }
}

// Counts, from 0, how many of all pairs do.
fn tally_both(
    sums: &[u64],
    terms: &Terms,
    read: &[u16],
    enumeration: Enumeration,
    tallies: &mut Tallies,
)
    requires { Ready read.now sums.now terms.now.sums terms.now.outputs enumeration.plan × Surveyed sums.now terms.now.sums read.now terms.now.outputs enumeration.factors
        × ((second : Bool) → tally_of second tallies.old ≡ replicate 256 0) }
    ensures { (table secrets : List ℕ) → Prepared table secrets read.now sums.now terms.now.sums terms.now.outputs enumeration.plan
        → (second : Bool) → Tallied table (set_of table second secrets) read.now (tally_of second tallies.new) }
{
    tally_some(sums, terms, read, enumeration, tallies);
    let mut buffer = [0usize; 16];
    let shifts = &mut buffer[..enumeration.plan.free];
    linear::list_shifts(sums, read, shifts);
    linear::fold(&mut tallies.first, enumeration.factors, shifts, read.len());
    linear::fold(&mut tallies.second, enumeration.factors, shifts, read.len());
}

// Lists the counts under both sets of secret bits, on a given sheet, and answers how many pairs a set has.
fn list_on(
    table: &[u16],
    secrets: &[u8],
    accepted: Accepted,
    read: &[u16],
    sums: &mut [u64],
    counts: &mut [u32],
) -> usize
    requires { Listable table.now secrets.now accepted.inputs accepted.randoms accepted.wires read.now counts.old × (accepted.wires ≤ length sums.old) × (length sums.old ≤ wire_limit) }
    ensures { (result ≡ pair_count (circuit_in table.now)) × ListsCounts table.now secrets.now accepted.inputs read.now counts.old counts.new }
{
    let plan = plan_pairs(table, accepted.inputs, accepted.randoms);
    let free = plan.free;
    let terms = prepare(table, secrets, accepted.inputs, plan, read, sums);
    let factors = linear::find_varied(sums, &terms, read, free);
    let enumeration = enumerate(plan, factors);
    let mut tallies = Tallies {
        first: [0; 256],
        second: [0; 256],
    };
    tally_both(sums, &terms, read, enumeration, &mut tallies);
    let combinations = numbers::power(read.len());
    listing::write_list(&tallies, combinations, free, counts);
    numbers::power(free)
}

// The same on a sheet of its own, of a given size.
fn list_on_sheet<const SIZE: usize>(
    table: &[u16],
    secrets: &[u8],
    accepted: Accepted,
    read: &[u16],
    counts: &mut [u32],
) -> usize
    requires { Listable table.now secrets.now accepted.inputs accepted.randoms accepted.wires read.now counts.old × (accepted.wires ≤ SIZE) × (SIZE ≤ wire_limit) }
    ensures { (result ≡ pair_count (circuit_in table.now)) × ListsCounts table.now secrets.now accepted.inputs read.now counts.old counts.new }
{
    let mut sums = [0u64; SIZE];
    list_on(table, secrets, accepted, read, &mut sums, counts)
}

// The size is what the wires ask for: a sheet is set to 0 at each call.
pub(crate) fn list_counts(
    table: &[u16],
    secrets: &[u8],
    accepted: Accepted,
    read: &[u16],
    counts: &mut [u32],
) -> usize
    requires { Listable table.now secrets.now accepted.inputs accepted.randoms accepted.wires read.now counts.old }
    ensures { (result ≡ pair_count (circuit_in table.now)) × ListsCounts table.now secrets.now accepted.inputs read.now counts.old counts.new }
{
    let wires = accepted.wires;
    if wires <= SMALL_SHEET {
        return list_on_sheet::<SMALL_SHEET>(table, secrets, accepted, read, counts);
    }
    if wires <= MIDDLE_SHEET {
        return list_on_sheet::<MIDDLE_SHEET>(table, secrets, accepted, read, counts);
    }
    if wires <= LARGE_SHEET {
        return list_on_sheet::<LARGE_SHEET>(table, secrets, accepted, read, counts);
    }
    list_on_sheet::<WIRES>(table, secrets, accepted, read, counts)
}
