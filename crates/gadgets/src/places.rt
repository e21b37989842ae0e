// Where the wires of AND and REF stand, behind the wires before the gadget.
ghost use Rattle.std.specs.Prelude.{◌≡◌, ◌+◌, ◌*◌, ◌/◌, ◌-◌, ◌≤◌, ◌<◌, length};
ghost use Rattle.circuit.specs.Kinds.{pairs as pairs_of};
ghost use Rattle.gadgets.specs.Internal.Places.{word_a, word_b, row_start, pair_site, slot_of, cross_start, pair_at, product_at, cross_at, out_at, mask_at, sum_at};
ghost use Rattle.gadgets.specs.Internal.Frames.{Small};

use frames::randoms::random_bits;

// How many pairs two of d shares make.
pub fn pairs(d: usize) -> usize
    requires { (0 < d) × (d ≤ 8) }
    ensures { (result ≡ d * (d - 1) / 2) × (result ≤ 32) }
{
    random_bits(d as u16) as usize
}

// Twice the pairs of shares that come before those whose lower share is i.
fn twice_row_start(d: usize, i: usize) -> usize
    requires { (i < d) × (d ≤ 8) }
    ensures { (result ≡ 2 * row_start d i) × (result ≤ 128) }
{
    i * (2 * d - i - 1)
}

// The pairs of shares that come before those whose lower share is i.
fn row_start(d: usize, i: usize) -> usize
    requires { (i < d) × (d ≤ 8) }
    ensures { (result ≡ row_start d i) × (result ≤ 28) }
{
    pairs(d) - pairs(d - i)
}

// The place of AND's r of two different shares among its wires r and R, of which each pair has one. It is written once for both
// orders, so that AND's loops stay short enough to be unrolled.
fn pair_offset(d: usize, i: usize, j: usize) -> usize
    requires { (i < d) × (j < d) × (d ≤ 8) × (j ≡ i → ⊥) }
    ensures { (result ≡ 2 * pair_site d i j) × (result ≤ 144) }
{
    let low = i.min(j);
    let high = i.max(j);
    twice_row_start(d, low) + 2 * (high - low) - 2
}

// The place of the share j among those other than i.
fn slot(i: usize, j: usize) -> usize
    ensures { (result ≡ slot_of i j) × (result ≤ j) }
{
    if i < j { j - 1 } else { j }
}

// Where the parts of AND begin that belong to the share i and another; of i = d, where the outputs begin.
pub fn cross_start(d: usize, i: usize) -> usize
    requires { (i ≤ d) × (0 < d) × (d ≤ 8) }
    ensures { (result ≡ cross_start d i) × (result ≤ 512) }
{
    d * (d - 1) + 3 * d + 6 * (i * (d - 1))
}

// Where a random bit of the shares i and j stands, behind those before its gadget; of i and i there is none, and the first is told.
pub fn mask_at(d: usize, first: usize, i: usize, j: usize) -> usize
    requires { Small first d × (i < d) × (j < d) }
    ensures { (result ≡ mask_at d first i j) × (result ≤ first + 40) }
{
    if i < j {
        return first + row_start(d, i) + (j - i - 1);
    }
    if j < i {
        return first + row_start(d, j) + (i - j - 1);
    }
    first
}

// The wires a and b of the share i, among a gadget's words: two rows, by document 01's names.
pub fn word_a(ops: &[u16], i: usize) -> usize
    requires { 1 + i < length ops.now }
    ensures { result ≡ word_a ops.now i }
{
    ops[1 + i] as usize
}

pub fn word_b(ops: &[u16], d: usize, i: usize) -> usize
    requires { 1 + d + i < length ops.now }
    ensures { result ≡ word_b d ops.now i }
{
    ops[1 + d + i] as usize
}

// Where a gadget stands, AND or REF, in an accepted table.
#[derive(Clone, Copy)]
pub struct Gadget {
    // the number of shares, and of pairs of them: a gadget takes so many random bits
    pub d: usize,
    pub pairs: usize,
    // how many wires and random bits come before it
    pub first: usize,
    pub used: usize,
    ghost small: { Small first d },
    ghost paired: { pairs ≡ pairs_of d },
}

impl Gadget {
    // AND's wire r of the shares i and j; R stands behind it.
    pub fn pair_at(self, i: usize, j: usize) -> usize
        requires { (i < self.d) × (j < self.d) × (j ≡ i → ⊥) }
        ensures { (result ≡ pair_at self.d self.first i j) × (result ≤ self.first + 144) }
    {
        self.first + pair_offset(self.d, i, j)
    }

    // AND's wire B of the share i; m and M stand behind it.
    pub fn product_at(self, i: usize) -> usize
        requires { i ≤ self.d }
        ensures { (result ≡ product_at self.d self.first i) × (result ≤ self.first + 88) }
    {
        self.first + self.d * (self.d - 1) + 3 * i
    }

    // AND's wire u of the shares i and j; U, v, V, w and W stand behind it.
    pub fn cross_at(self, i: usize, j: usize) -> usize
        requires { (i < self.d) × (j < self.d) }
        ensures { (result ≡ cross_at self.d self.first i j) × (result ≤ self.first + 560) }
    {
        self.first + cross_start(self.d, i) + 6 * slot(i, j)
    }

    // AND's output of the share i.
    pub fn out_at(self, i: usize) -> usize
        requires { i < self.d }
        ensures { (result ≡ out_at self.d self.first i) × (result ≤ self.first + 520) }
    {
        self.first + cross_start(self.d, self.d) + i
    }

    // How many wires AND has.
    pub fn and_wires(self) -> usize
        ensures { (result ≡ 7 * (self.d * (self.d - 1)) + 4 * self.d) × (result ≤ 480) }
    {
        7 * (self.d * (self.d - 1)) + 4 * self.d
    }

    // REF's sum of the share i.
    pub fn sum_at(self, i: usize) -> usize
        requires { i ≤ self.d }
        ensures { (result ≡ sum_at self.d self.first i) × (result ≤ self.first + 40) }
    {
        self.first + self.pairs + i
    }
}
