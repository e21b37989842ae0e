// Free bits that are only added to what the read wires show: where none of the products that these need has such a bit among its
// factors, the bit moves every count to another combination, the same for all pairs. So only the others are gone through.
ghost use Rattle.std.specs.Prelude.{◌≡◌, ℕ, ◌+◌, ◌*◌, ◌^◌, ◌≤◌, ◌<◌, length};
ghost use Rattle.std.specs.Int.Bits.{bit_xor};
ghost use Rattle.circuit.specs.Lists.{nth};
ghost use Rattle.symbolic.specs.Internal.Sums.{BoundedTerms};
ghost use Rattle.counting.specs.Internal.Lanes.{lane_bit};
ghost use Rattle.counting.specs.Internal.Pairs.{count_varied};
ghost use Rattle.counting.specs.Internal.Linear.{folded, varied_in, Within, SurveysMore, Surveyed, shift_in, ShiftsIn, Remade, pair_added};

use super::numbers;
use super::prepare::{TERM_SUMS, Terms};

// Variables that the read wires need, and those that are factors of products among them.
#[derive(Clone, Copy)]
pub struct Survey {
    pub needed: u64,
    pub factors: u64,
}

// The variables in the sums that the read wires are.
fn variables_read(sums: &[u64], read: &[u16]) -> u64
    requires { (i : ℕ) → i < length read.now → nth read.now i < length sums.now }
    ensures { (i : ℕ) → i < length read.now → Within (nth sums.now (nth read.now i)) result }
{
    let mut all = 0;
    for wire in read {
        all |= sums[*wire as usize];
    }
    all
}

// A product, where it is needed: the variables of its two sums are needed, and are factors.
fn survey_product(terms: &[u64; TERM_SUMS], n: usize, survey: Survey) -> Survey
    requires { (n < 40) × BoundedTerms terms.now n (n + 1) }
    ensures { SurveysMore terms.now n (n + 1) survey.needed survey.factors result.needed result.factors }
{
    if !numbers::has(survey.needed, 18 + n) {
        return survey;
    }
    let both = terms[2 * n] | terms[2 * n + 1];
    Survey {
        needed: survey.needed | both,
        factors: survey.factors | both,
    }
}

// Products from one to another, the last first: a product takes variables before it.
fn survey_products(terms: &[u64; TERM_SUMS], from: usize, to: usize, survey: Survey) -> Survey
    requires { (from ≤ to) × (to ≤ 40) × BoundedTerms terms.now from to }
    ensures { SurveysMore terms.now from to survey.needed survey.factors result.needed result.factors }
{
    let mut all = survey;
    for n in (from..to).rev() {
        all = survey_product(terms, n, all);
    }
    all
}

// The variables of which the free bits are gone through: the factors of the products that the read wires need, or all that they need
// where these are so few that moving counts would take longer.
pub(crate) fn find_varied(sums: &[u64], terms: &Terms, read: &[u16], free: usize) -> u64
    requires { (free ≤ 16) × (length read.now ≤ 8) × ((i : ℕ) → i < length read.now → nth read.now i < length sums.now) × (terms.now.outputs ≤ 32) × BoundedTerms terms.now.sums 0 terms.now.outputs × BoundedTerms terms.now.sums 32 (32 + length read.now) }
    ensures { Surveyed sums.now terms.now.sums read.now terms.now.outputs result }
{
    let found = read.len();
    let start = Survey {
        needed: variables_read(sums, read),
        factors: 0,
    };
    let inner = survey_products(&terms.sums, 32, 32 + found, start);
    let all = survey_products(&terms.sums, 0, terms.outputs, inner);
    if count_free(all.needed, free) <= found {
        return all.needed;
    }
    all.factors
}

// By which number what is shown differs where a free bit is set: the read wires to whose sums it belongs.
fn shift_of(sums: &[u64], read: &[u16], i: usize) -> usize
    requires { (length read.now ≤ 8) × (i < 16) × ((j : ℕ) → j < length read.now → nth read.now j < length sums.now) }
    ensures { result ≡ shift_in sums.now read.now i }
{
    let mut shift = 0;
    for wire in read {
        shift = 2 * shift + numbers::has(sums[*wire as usize], i) as usize;
    }
    shift
}

// Those of free bits from the first on.
pub(crate) fn list_shifts(sums: &[u64], read: &[u16], shifts: &mut [usize])
    requires { (length read.now ≤ 8) × (length shifts.old ≤ 16) × ((j : ℕ) → j < length read.now → nth read.now j < length sums.now) }
    ensures { ShiftsIn sums.now read.now (length shifts.old) shifts.new }
{
    for (i, shift) in shifts.iter_mut().enumerate() {
        *shift = shift_of(sums, read, i);
    }
}

// A count, and the one whose combination differs by a shift, added; where that one is the lower, it was done with it.
fn add_pair(tally: &mut [u32; 256], shift: usize, n: usize)
    requires { (n < 256) × (bit_xor n shift < 256) × (n < bit_xor n shift → nth tally.old n + nth tally.old (bit_xor n shift) ≤ 65536) }
    ensures { tally.new ≡ pair_added shift n tally.old }
{
    let other = n ^ shift;
    if other <= n {
        return;
    }
    let sum = tally[n] + tally[other];
    tally[n] = sum;
    tally[other] = sum;
}

// All counts below a number.
fn add_shifted(tally: &mut [u32; 256], shift: usize, count: usize)
    requires { (count ≤ 256) × (1 ≤ shift) × ((n : ℕ) → n < count → (bit_xor n shift < count) × (nth tally.old n + nth tally.old (bit_xor n shift) ≤ 65536)) }
    ensures { Remade (λ n. nth tally.old n + nth tally.old (bit_xor n shift)) count tally.old tally.new }
{
    for n in 0..count {
        add_pair(tally, shift, n);
    }
}

// Each count below a number multiplied.
fn scale(tally: &mut [u32; 256], times: u32, count: usize)
    requires { (count ≤ 256) × ((n : ℕ) → n < count → times * nth tally.old n ≤ 65536) }
    ensures { Remade (λ n. times * nth tally.old n) count tally.old tally.new }
{
    for n in 0..count {
        tally[n] = times * tally[n];
    }
}

// Counts of all pairs, from those of the free bits that are factors: each of the others, set or not, moves all counts by its shift,
// and doubles them where that is 0.
pub(crate) fn fold(tally: &mut [u32; 256], factors: u64, shifts: &[usize], found: usize)
    requires { (found ≤ 8) × (length shifts.now ≤ 16) × ((i : ℕ) → nth shifts.now i < 2 ^ found)
        × ((n : ℕ) → n < 2 ^ found → folded (λ i. lane_bit i factors) (nth shifts.now) (length shifts.now) 0 (nth tally.old) n ≤ 65536) }
    ensures { Remade (folded (λ i. lane_bit i factors) (nth shifts.now) (length shifts.now) 0 (nth tally.old)) (2 ^ found) tally.old tally.new }
{
    let count = numbers::power(found);
    let mut doubles = 0;
    for (i, shift) in shifts.iter().enumerate() {
        if numbers::has(factors, i) {
            continue;
        }
        if *shift == 0 {
            doubles += 1;
            continue;
        }
        add_shifted(tally, *shift, count);
    }
    scale(tally, numbers::power(doubles) as u32, count);
}

// How many free bits are among variables.
pub(crate) fn count_free(variables: u64, free: usize) -> usize
    requires { free ≤ 16 }
    ensures { result ≡ count_varied (varied_in variables free) }
{
    let mut count = 0;
    for i in 0..free {
        count += numbers::has(variables, i) as usize;
    }
    count
}
