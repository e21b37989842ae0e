// The values of the wires of AND and REF, in the order of document 01.
ghost use Rattle.std.specs.Prelude.{◌≡◌, ℕ, ◌+◌, ◌-◌, ◌*◌, ◌≤◌, ◌<◌, length};
ghost use Rattle.gadgets.specs.Internal.Places.{word_a, word_b, product_at, cross_start, out_at, sum_at, held_at};
ghost use Rattle.gadgets.specs.Internal.Frames.{FrameEarly, Roomy};
ghost use Rattle.frames.specs.declared.walk.Frame.TheVariants as frame;
ghost use Rattle.simulation.specs.Internal.Filling.{Fills, Copied, Drawn, ShareProducts, Multiplied, Masked, DrawnMasked, Held};
ghost use Rattle.simulation.specs.Internal.Gadgets.{Crosses, CrossesOther, CrossesRow, Sums, Takes, Writes, TakesMasks};

use gadgets::places::Gadget;
use gadgets::{gate_values, places};

// So many bytes, from a place of another buffer on. (A loop: with `copy_from_slice` the archive for C would ask for `memmove`.)
pub fn copy(values: &mut [u8], at: usize, source: &[u8], from: usize, count: usize)
    requires { (at + count ≤ length values.old) × (from + count ≤ length source.now) }
    ensures { Fills (Copied source.now from at count) at (at + count) values.old values.new }
{
    for q in 0..count {
        values[at + q] = source[from + q];
    }
}

// AND's wires r and R of every pair.
fn draws(values: &mut [u8], g: Gadget, tape: &[u8])
    requires { (g.first + 2 * g.pairs ≤ length values.old) × (g.used + g.pairs ≤ length tape.now) }
    ensures { Fills (Drawn tape.now g.used g.first g.pairs) g.first (g.first + 2 * g.pairs) values.old values.new }
{
    for q in 0..g.pairs {
        let bit = tape[g.used + q];
        let r = g.first + 2 * q;
        values[r] = bit;
        values[r + 1] = bit;
    }
}

// AND's wires B, m and M of every share.
fn share_products(values: &mut [u8], g: Gadget, ops: &[u16])
    requires { FrameEarly frame.And g.d g.first ops.now × Roomy g.d g.first values.old }
    ensures { Fills (ShareProducts g.d g.first (word_a ops.now) (word_b g.d ops.now)) (product_at g.d g.first 0) (product_at g.d g.first g.d) values.old values.new }
{
    for i in 0..g.d {
        let a = values[places::word_a(ops, i)];
        let b = values[places::word_b(ops, g.d, i)];
        let m = gate_values::m(a, b);
        let at = g.product_at(i);
        values[at] = b;
        values[at + 1] = m;
        values[at + 2] = m;
    }
}

// AND's wires u, U, v, V, w and W of two shares, from the words of a, b and r. The answer is the sum of U and W.
fn cross(values: &mut [u8], at: usize, a: u8, b: u8, r: u8) -> u8
    requires { at + 6 ≤ length values.old }
    ensures { Crosses at a b r values.old values.new result }
{
    let u = gate_values::u(a, r);
    let v = gate_values::v(b, r);
    let w = gate_values::w(a, v);
    values[at] = u;
    values[at + 1] = u;
    values[at + 2] = v;
    values[at + 3] = v;
    values[at + 4] = w;
    values[at + 5] = w;
    u ^ w
}

// The same of the share i and another, added to a word. Of the share i itself, the word as it is. (A function of its own: written into the
// loop below it was tried and is slower, since the loop is then not unrolled.)
fn cross_other(values: &mut [u8], g: Gadget, i: usize, j: usize, a: u8, word: u8) -> u8
    requires { (i < g.d) × (j < g.d) × Roomy g.d g.first values.old }
    ensures { CrossesOther g.d g.first i j a word values.old values.new result }
{
    if i == j {
        return word;
    }
    let r = values[g.pair_at(i, j)];
    let b = values[g.product_at(j)];
    word ^ cross(values, g.cross_at(i, j), a, b, r)
}

// The same of the share i and every other.
fn cross_row(values: &mut [u8], g: Gadget, i: usize, a: u8, word: u8) -> u8
    requires { (i < g.d) × Roomy g.d g.first values.old }
    ensures { CrossesRow g.d g.first i a word values.old values.new result }
{
    let mut sum = word;
    for j in 0..g.d {
        sum = cross_other(values, g, i, j, a, sum);
    }
    sum
}

// The same of every share and each other, and the outputs.
fn cross_all(values: &mut [u8], g: Gadget, ops: &[u16])
    requires { FrameEarly frame.And g.d g.first ops.now × Roomy g.d g.first values.old }
    ensures { Fills (Multiplied 1 g.d g.first (word_a ops.now)) (g.first + cross_start g.d 0) (out_at g.d g.first g.d) values.old values.new }
{
    for i in 0..g.d {
        let a = values[places::word_a(ops, i)];
        let m = values[g.product_at(i) + 2];
        values[g.out_at(i)] = cross_row(values, g, i, a, m);
    }
}

// A gadget of D shares: the compiler knows the number, and unrolls the loops.
fn of_shares<const D: usize>(g: Gadget) -> Gadget
    requires { g.d ≡ D }
    ensures { result ≡ g }
{
    Gadget {
        d: D,
        pairs: D * (D - 1) / 2,
        first: g.first,
        used: g.used,
    }
}

// AND of D shares.
fn and_shares<const D: usize>(values: &mut [u8], gadget: Gadget, ops: &[u16], tape: &[u8])
    requires { (gadget.d ≡ D) × Takes frame.And gadget ops.now tape.now values.old }
    ensures { Writes frame.And gadget ops.now tape.now values.old values.new }
{
    let g = of_shares::<D>(gadget);
    draws(values, g, tape);
    share_products(values, g, ops);
    cross_all(values, g, ops);
}

// Calls a function of a gadget's shares with their number as a const argument; the last arm is 8, the most there are.
macro_rules! by_shares {
    ($shares:ident($values:expr, $g:expr, $ops:expr, $tape:expr)) => {
        match $g.d {
            1 => $shares::<1>($values, $g, $ops, $tape),
            2 => $shares::<2>($values, $g, $ops, $tape),
            3 => $shares::<3>($values, $g, $ops, $tape),
            4 => $shares::<4>($values, $g, $ops, $tape),
            5 => $shares::<5>($values, $g, $ops, $tape),
            6 => $shares::<6>($values, $g, $ops, $tape),
            7 => $shares::<7>($values, $g, $ops, $tape),
            _ => $shares::<8>($values, $g, $ops, $tape),
        }
    };
}

// AND.
pub(crate) fn and(values: &mut [u8], g: Gadget, ops: &[u16], tape: &[u8])
    requires { Takes frame.And g ops.now tape.now values.old }
    ensures { Writes frame.And g ops.now tape.now values.old values.new }
{
    by_shares!(and_shares(values, g, ops, tape))
}

// The sum of a word and REF's random bits of the share i and each other. That of a lower share stands in the lower share's row,
// just before `at`; those of the higher shares are the row of i.
fn add_masks(values: &[u8], g: Gadget, i: usize, word: u8) -> u8
    requires { (i < g.d) × (g.first + g.pairs ≤ length values.now) }
    ensures { Sums g.d g.first i word values.now result }
{
    let mut sum = word;
    let mut at = g.first + i;
    for j in 0..i {
        sum ^= values[at - 1];
        at += g.d - j - 2;
    }
    for bit in &values[at..at + (g.d - i - 1)] {
        sum ^= *bit;
    }
    sum
}

// REF's sums.
fn sums(values: &mut [u8], g: Gadget, ops: &[u16])
    requires { FrameEarly frame.Ref g.d g.first ops.now × (sum_at g.d g.first g.d ≤ length values.old) }
    ensures { Fills (Masked g.d g.first (word_a ops.now)) (sum_at g.d g.first 0) (sum_at g.d g.first g.d) values.old values.new }
{
    for i in 0..g.d {
        let a = values[places::word_a(ops, i)];
        values[g.sum_at(i)] = add_masks(values, g, i, a);
    }
}

// REF's random bits and sums, of D shares.
fn mask_shares<const D: usize>(values: &mut [u8], gadget: Gadget, ops: &[u16], tape: &[u8])
    requires { (gadget.d ≡ D) × TakesMasks gadget ops.now tape.now values.old }
    ensures { Fills (DrawnMasked gadget.d gadget.first (word_a ops.now) tape.now gadget.used) gadget.first (sum_at gadget.d gadget.first gadget.d) values.old values.new }
{
    let g = of_shares::<D>(gadget);
    values[g.first..g.first + g.pairs].copy_from_slice(&tape[g.used..g.used + g.pairs]);
    sums(values, g, ops);
}

// REF's random bits and sums. A clock calls it too, so that it stays out of either loop over frames.
pub fn mask(values: &mut [u8], g: Gadget, ops: &[u16], tape: &[u8])
    requires { TakesMasks g ops.now tape.now values.old }
    ensures { Fills (DrawnMasked g.d g.first (word_a ops.now) tape.now g.used) g.first (sum_at g.d g.first g.d) values.old values.new }
{
    by_shares!(mask_shares(values, g, ops, tape))
}

// REF's outputs, registers of the sums. (copy_within was tried: of two and three shares it is slower.)
fn holds(values: &mut [u8], g: Gadget)
    requires { held_at g.d g.first g.d ≤ length values.old }
    ensures { Fills (Held g.d g.first) (held_at g.d g.first 0) (held_at g.d g.first g.d) values.old values.new }
{
    for i in 0..g.d {
        let sum = g.sum_at(i);
        values[sum + g.d] = values[sum];
    }
}

// REF.
pub(crate) fn refresh(values: &mut [u8], g: Gadget, ops: &[u16], tape: &[u8])
    requires { Takes frame.Ref g ops.now tape.now values.old }
    ensures { Writes frame.Ref g ops.now tape.now values.old values.new }
{
    // a slice of its own: the loop over frames then needs no copy of `ops` for the other frames
    let row = &ops[..1 + g.d];
    mask(values, g, row, tape);
    holds(values, g);
}
