// AND and REF on one clock. The buffer of values holds what every register shows; the bank gets what each shows on the next clock, which is
// what its operand shows on this one. Capital letters are registers, as in document 01. (`simulation` has AND's loops too, for
// values alone: an evaluation has at hand what R, B and V show, and a clock reads it.)
ghost use Rattle.std.specs.Prelude.{◌≡◌, List, ℕ, ◌+◌, ◌-◌, ◌*◌, ◌≤◌, ◌<◌, length};
ghost use Rattle.gadgets.specs.Internal.Places.{word_a, word_b, product_at, cross_start, out_at, held_at};
ghost use Rattle.gadgets.specs.Internal.Frames.{FrameEarly, Roomy, frame_wires};
ghost use Rattle.frames.specs.declared.walk.Frame.TheVariants as frame;
ghost use Rattle.simulation.specs.Internal.Gadgets.{Takes};
ghost use Rattle.clock.specs.Internal.Running.{Runs};
ghost use Rattle.clock.specs.Internal.Parts.{Draws, Products, Crosses, CrossesRow, Rows, Holds, Framed};

use gadgets::places::Gadget;
use gadgets::{gate_values, places};
use simulation::gadget::mask;

// AND's wires r, and what R shows next, of every pair.
fn draws(values: &mut [u8], bank: &mut [u8], g: Gadget, tape: &[u8])
    requires { (g.first + 2 * g.pairs ≤ length values.old) × (g.first + 2 * g.pairs ≤ length bank.old) × (g.used + g.pairs ≤ length tape.now) }
    ensures { Runs (Draws tape.now g.used g.first g.pairs) g.first (g.first + 2 * g.pairs) values.old bank.old values.new bank.new }
{
    for q in 0..g.pairs {
        let bit = tape[g.used + q];
        let r = g.first + 2 * q;
        values[r] = bit;
        bank[r + 1] = bit;
    }
}

// AND's wires m, and what B and M show next, of every share.
fn share_products(values: &mut [u8], bank: &mut [u8], g: Gadget, ops: &[u16])
    requires { FrameEarly frame.And g.d g.first ops.now × Roomy g.d g.first values.old × Roomy g.d g.first bank.old }
    ensures { Runs (Products g.d g.first (word_a ops.now) (word_b g.d ops.now)) (product_at g.d g.first 0) (product_at g.d g.first g.d) values.old bank.old values.new bank.new }
{
    for i in 0..g.d {
        let a = values[places::word_a(ops, i)];
        let b = values[places::word_b(ops, g.d, i)];
        let at = g.product_at(i);
        let m = gate_values::m(a, values[at]);
        bank[at] = b;
        values[at + 1] = m;
        bank[at + 2] = m;
    }
}

// AND's wires u, v and w, and what U, V and W show next, of two shares, from the words of a, b, r and what R shows. The answer is the sum
// of what U and W show.
fn cross(values: &mut [u8], bank: &mut [u8], at: usize, a: u8, b: u8, r: u8, shown: u8) -> u8
    requires { (at + 6 ≤ length values.old) × (at + 6 ≤ length bank.old) }
    ensures { Crosses at a b r shown values.old bank.old values.new bank.new result }
{
    let u = gate_values::u(a, shown);
    let v = gate_values::v(b, r);
    let w = gate_values::w(a, values[at + 3]);
    values[at] = u;
    bank[at + 1] = u;
    values[at + 2] = v;
    bank[at + 3] = v;
    values[at + 4] = w;
    bank[at + 5] = w;
    values[at + 1] ^ values[at + 5]
}

// The same of the share i and of each share j with from <= j < to, added to a word. (One loop over all shares that passes over i was tried
// and is slower.)
fn cross_row(
    values: &mut [u8],
    bank: &mut [u8],
    g: Gadget,
    i: usize,
    ops: &[u16],
    a: u8,
    word: u8,
    from: usize,
    to: usize,
) -> u8
    requires { (i < g.d) × (to ≤ g.d) × FrameEarly frame.And g.d g.first ops.now × Roomy g.d g.first values.old × Roomy g.d g.first bank.old × ((j : ℕ) → from ≤ j → j < to → j ≡ i → ⊥) × (from ≤ to) }
    ensures { CrossesRow g.d g.first i (word_b g.d ops.now) a word from to values.old bank.old values.new bank.new result }
{
    let mut sum = word;
    for j in from..to {
        let pair = g.pair_at(i, j);
        let r = values[pair];
        let shown = values[pair + 1];
        let b = values[places::word_b(ops, g.d, j)];
        sum ^= cross(values, bank, g.cross_at(i, j), a, b, r, shown);
    }
    sum
}

// The same of every share and each other, and the outputs.
fn cross_all(values: &mut [u8], bank: &mut [u8], g: Gadget, ops: &[u16])
    requires { FrameEarly frame.And g.d g.first ops.now × Roomy g.d g.first values.old × Roomy g.d g.first bank.old }
    ensures { Runs (Rows g.d g.first (word_a ops.now) (word_b g.d ops.now)) (g.first + cross_start g.d 0) (out_at g.d g.first g.d) values.old bank.old values.new bank.new }
{
    for i in 0..g.d {
        let a = values[places::word_a(ops, i)];
        let m = values[g.product_at(i) + 2];
        let lower = cross_row(values, bank, g, i, ops, a, m, 0, i);
        values[g.out_at(i)] = cross_row(values, bank, g, i, ops, a, lower, i + 1, g.d);
    }
}

// AND. It stays out of the loop over frames, which is faster for the other frames.
#[inline(never)]
pub(crate) fn and(values: &mut [u8], bank: &mut [u8], g: Gadget, ops: &[u16], tape: &[u8])
    requires { Takes frame.And g ops.now tape.now values.old × (g.first + frame_wires frame.And g.d ≤ length bank.old) }
    ensures { (from : ℕ) (shares : List ℕ) → Runs (Framed frame.And g.d g.first from g.used ops.now shares tape.now) g.first (g.first + frame_wires frame.And g.d) values.old bank.old values.new bank.new }
{
    draws(values, bank, g, tape);
    share_products(values, bank, g, ops);
    cross_all(values, bank, g, ops);
}

// What REF's outputs show next. (The same short loop as in `simulation`, into the bank.)
fn holds(values: &[u8], bank: &mut [u8], g: Gadget)
    requires { (held_at g.d g.first g.d ≤ length values.now) × (held_at g.d g.first g.d ≤ length bank.old) }
    ensures { Runs (Holds g.d g.first) (held_at g.d g.first 0) (held_at g.d g.first g.d) values.now bank.old values.now bank.new }
{
    for i in 0..g.d {
        let sum = g.sum_at(i);
        bank[sum + g.d] = values[sum];
    }
}

// REF.
pub(crate) fn refresh(values: &mut [u8], bank: &mut [u8], g: Gadget, ops: &[u16], tape: &[u8])
    requires { Takes frame.Ref g ops.now tape.now values.old × (g.first + frame_wires frame.Ref g.d ≤ length bank.old) }
    ensures { (from : ℕ) (shares : List ℕ) → Runs (Framed frame.Ref g.d g.first from g.used ops.now shares tape.now) g.first (g.first + frame_wires frame.Ref g.d) values.old bank.old values.new bank.new }
{
    // a slice of its own: the loop over frames then needs no copy of `ops` for the other frames
    let row = &ops[..1 + g.d];
    mask(values, g, row, tape);
    holds(values, bank, g);
}
