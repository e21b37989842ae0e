// AND and REF by sums of variables: each output of AND is a product of two sums with a third added, and so is each wire inside it that
// is read; the product is a variable of its own. What REF makes are sums.
ghost use Rattle.std.specs.Prelude.{◌≡◌, ℕ, ◌+◌, ◌^◌, ◌≤◌, ◌<◌, length, set};
ghost use Rattle.std.specs.Int.Bits.{bit_xor};
ghost use Rattle.circuit.specs.Lists.{nth, range};
ghost use Rattle.circuit.specs.Gadgets.{others};
ghost use Rattle.gadgets.specs.Internal.Places.{word_a, word_b, mask_at};
ghost use Rattle.simulation.specs.Internal.Filling.{word_sum};
ghost use Rattle.symbolic.specs.Internal.Inside.{WireOf};
ghost use Rattle.symbolic.specs.Internal.Terms.{alone, times, wire_term, sum_with, with_term, Drawn, AndTakes, RefAsks, Listed, read_sums, read_terms, ReadsInside, WritesOutputs, Refreshes};

use super::expand::ONE;
use super::offsets;
use super::offsets::Inner;
use gadgets::equations::Factors;
use gadgets::places::Gadget;
use gadgets::{equations, places};

// A product of two sums, with a third sum added.
#[derive(Clone, Copy)]
pub struct Term {
    pub one: u64,
    pub other: u64,
    pub more: u64,
}

impl Term {
    // A sum by itself.
    fn alone(sum: u64) -> Self
        ensures { result ≡ alone sum }
    {
        Term {
            one: 0,
            other: 0,
            more: sum,
        }
    }

    // A product by itself.
    fn times(factors: Factors) -> Self
        ensures { result ≡ times factors.one factors.other }
    {
        Term {
            one: factors.one,
            other: factors.other,
            more: 0,
        }
    }
}

// A variable by itself, as a sum.
fn variable(n: usize) -> u64
    requires { n < 64 }
    ensures { result ≡ 2 ^ n }
{
    1 << n
}

// The sums that the wires a and b of a share are, by a gadget's words: two rows, by document 01's names.
fn share_a(sums: &[u64], ops: &[u16], i: usize) -> u64
    requires { (1 + i < length ops.now) × (word_a ops.now i < length sums.now) }
    ensures { result ≡ nth sums.now (word_a ops.now i) }
{
    sums[places::word_a(ops, i)]
}

fn share_b(sums: &[u64], ops: &[u16], d: usize, i: usize) -> u64
    requires { (1 + d + i < length ops.now) × (word_b d ops.now i < length sums.now) }
    ensures { result ≡ nth sums.now (word_b d ops.now i) }
{
    sums[places::word_b(ops, d, i)]
}

// A gadget's random bit of two shares, as the sum that it is.
fn mask(tape: &[u64], gadget: Gadget, i: usize, j: usize) -> u64
    requires { Drawn gadget.d gadget.used (length tape.now) × (i < gadget.d) × (j < gadget.d) × (j ≡ i → ⊥) }
    ensures { result ≡ nth tape.now (mask_at gadget.d gadget.used i j) }
{
    tape[places::mask_at(gadget.d, gadget.used, i, j)]
}

// A sum, with a gadget's random bits of the share i and each other added.
fn add_masks(tape: &[u64], gadget: Gadget, i: usize, sum: u64) -> u64
    requires { Drawn gadget.d gadget.used (length tape.now) × (i < gadget.d) }
    ensures { result ≡ bit_xor sum (word_sum (others gadget.d i) (λ j. nth tape.now (mask_at gadget.d gadget.used i j))) }
{
    let mut all = sum;
    for j in 0..gadget.d {
        if j != i {
            all ^= mask(tape, gadget, i, j);
        }
    }
    all
}

// The sums of the wires b, added.
fn add_row(sums: &[u64], ops: &[u16], d: usize) -> u64
    requires { (length ops.now ≡ 1 + d + d) × ((j : ℕ) → j < d → word_b d ops.now j < length sums.now) }
    ensures { result ≡ word_sum (range 0 d) (λ j. nth sums.now (word_b d ops.now j)) }
{
    let mut all = 0;
    for j in 0..d {
        all ^= share_b(sums, ops, d, j);
    }
    all
}

// A wire inside AND.
fn wire_term(sums: &[u64], gadget: Gadget, ops: &[u16], tape: &[u64], wire: Inner) -> Term
    requires { AndTakes gadget ops.now sums.now tape.now × WireOf gadget.d wire }
    ensures { result ≡ wire_term gadget.d ops.now sums.now tape.now gadget.used wire }
{
    let d = gadget.d;
    match wire {
        Inner::R { pair } => Term::alone(tape[gadget.used + pair]),
        Inner::B { i } => Term::alone(share_b(sums, ops, d, i)),
        Inner::M { i } => {
            Term::times(equations::m(share_a(sums, ops, i), share_b(sums, ops, d, i)))
        }
        Inner::U { i, j } => {
            Term::times(equations::u(ONE, share_a(sums, ops, i), mask(tape, gadget, i, j)))
        }
        Inner::V { i, j } => {
            Term::alone(equations::v(share_b(sums, ops, d, j), mask(tape, gadget, i, j)))
        }
        Inner::W { i, j } => {
            let v = equations::v(share_b(sums, ops, d, j), mask(tape, gadget, i, j));
            Term::times(equations::w(share_a(sums, ops, i), v))
        }
    }
}

// A wire that is a term: its product is a variable, of a place on the list of terms.
fn write_term(sums: &mut [u64], terms: &mut [u64; 80], wire: usize, n: usize, term: Term)
    requires { (wire < length sums.old) × (n < 40) }
    ensures { (sums.new ≡ set sums.old wire (sum_with (18 + n) term)) × (terms.new ≡ with_term terms.old n term) }
{
    terms[2 * n] = term.one;
    terms[2 * n + 1] = term.other;
    sums[wire] = variable(18 + n) ^ term.more;
}

// A wire on the list of those that are read, where it stands inside AND: its product's place is the list's own.
fn read_one(
    sums: &mut [u64],
    terms: &mut [u64; 80],
    gadget: Gadget,
    ops: &[u16],
    tape: &[u64],
    wire: usize,
    n: usize,
)
    requires { AndTakes gadget ops.now sums.old tape.now × (n < 8) × (wire < length sums.old) }
    ensures { (sums.new ≡ read_sums gadget.d gadget.first ops.now sums.old tape.now gadget.used wire n) × (terms.new ≡ read_terms gadget.d gadget.first ops.now sums.old tape.now gadget.used wire n terms.old) }
{
    if wire < gadget.first {
        return;
    }
    let offset = wire - gadget.first;
    if places::cross_start(gadget.d, gadget.d) <= offset {
        return;
    }
    let inner = offsets::inner_at(gadget.d, offset);
    let term = wire_term(sums, gadget, ops, tape, inner);
    write_term(sums, terms, wire, 32 + n, term);
}

// All wires on the list.
pub(crate) fn read_inside(
    sums: &mut [u64],
    terms: &mut [u64; 80],
    gadget: Gadget,
    ops: &[u16],
    tape: &[u64],
    read: &[u16],
)
    requires { AndTakes gadget ops.now sums.old tape.now × Listed read.now (length sums.old) }
    ensures { ReadsInside gadget.d gadget.first ops.now tape.now gadget.used read.now (length read.now) sums.old terms.old sums.new terms.new }
{
    for (n, &wire) in read.iter().enumerate() {
        read_one(sums, terms, gadget, ops, tape, wire as usize, n);
    }
}

// The outputs of AND, their products variables behind so many others of their kind.
pub(crate) fn write_outputs(
    sums: &mut [u64],
    terms: &mut [u64; 80],
    gadget: Gadget,
    ops: &[u16],
    tape: &[u64],
    outputs: usize,
)
    requires { AndTakes gadget ops.now sums.old tape.now × (outputs + gadget.d ≤ 32) }
    ensures { WritesOutputs gadget.d gadget.first ops.now tape.now gadget.used outputs sums.old terms.old sums.new terms.new }
{
    let row = add_row(sums, ops, gadget.d);
    for i in 0..gadget.d {
        let term = Term {
            one: share_a(sums, ops, i),
            other: row,
            more: add_masks(tape, gadget, i, 0),
        };
        write_term(sums, terms, gadget.out_at(i), outputs + i, term);
    }
}

// REF.
pub(crate) fn refresh(sums: &mut [u64], gadget: Gadget, ops: &[u16], tape: &[u64])
    requires { RefAsks gadget.d gadget.first ops.now (length sums.old) (length tape.now) gadget.used }
    ensures { Refreshes gadget.d gadget.first ops.now tape.now gadget.used sums.old sums.new }
{
    let (first, used, n) = (gadget.first, gadget.used, gadget.pairs);
    sums[first..first + n].copy_from_slice(&tape[used..used + n]);
    for i in 0..gadget.d {
        let sum = add_masks(tape, gadget, i, share_a(sums, ops, i));
        let at = gadget.sum_at(i);
        sums[at] = sum;
        sums[at + gadget.d] = sum;
    }
}
