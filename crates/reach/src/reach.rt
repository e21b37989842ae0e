// What the marks on a frame's wires reach: from a wire to those it takes, the last wire first. (A mark is a byte, 1 where it is set:
// many are looked at together, and they stand beside the bytes of values.)
ghost use Rattle.std.specs.Prelude.{◌≡◌, [], ◌∷◌, map, ℕ, ◌+◌, ◌-◌, ◌*◌, ◌≤◌, ◌<◌, length};
ghost use Rattle.circuit.specs.Limits.{wire_limit};
ghost use Rattle.circuit.specs.Lists.{range};
ghost use Rattle.circuit.specs.Gadgets.{others};
ghost use Rattle.circuit.specs.Kinds.{pairs};
ghost use Rattle.gadgets.specs.Internal.Places.{word_a, word_b, product_at, cross_start, cross_at, out_at, mask_at, sum_at};
ghost use Rattle.gadgets.specs.Internal.Gates.{CrossGates, CrossRowGates, CrossAllGates, ProductsGates, OutGates, AndGates, SumGates, RefGates};
ghost use Rattle.gadgets.specs.Internal.Frames.{Roomy, FrameEarly, frame_wires};
ghost use Rattle.reach.specs.Internal.Marks.{mark_all, propagated, six_apart, out_wires, Moves};

use frames::walk::Frame;
use gadgets::places;
use gadgets::places::Gadget;

// The mark of a wire goes to two others.
#[tactic(auto, using(std::proofs::lemmas::Bool::Decides::nat_tests))]
pub(crate) fn propagate(marks: &mut [u8], wire: usize, one: usize, other: usize)
    requires { (wire < length marks.old) × (one < length marks.old) × (other < length marks.old) }
    ensures { marks.new ≡ propagated wire (one ∷ other ∷ []) marks.old }
{
    if marks[wire] < 1 {
        return;
    }
    marks[one] = 1;
    marks[other] = 1;
    marks[wire] = 0;
}

// Marks on so many wires, six apart.
fn mark_six_apart(marks: &mut [u8], from: usize, count: usize)
    requires { (from + 6 * count ≤ length marks.old + 5) × (from ≤ 2 * wire_limit) × (count ≤ 8) }
    ensures { marks.new ≡ mark_all marks.old (six_apart from count) }
{
    for k in 0..count {
        marks[from + 6 * k] = 1;
    }
}

// An output of AND: its mark goes to M, to every U and to every W.
#[tactic(auto, using(std::proofs::lemmas::Bool::Decides::nat_tests))]
fn propagate_output(marks: &mut [u8], gadget: Gadget, i: usize)
    requires { (i < gadget.d) × Roomy gadget.d gadget.first marks.old }
    ensures { marks.new ≡ propagated (out_at gadget.d gadget.first i) (out_wires gadget.d gadget.first i) marks.old }
{
    let wire = gadget.out_at(i);
    if marks[wire] < 1 {
        return;
    }
    marks[gadget.product_at(i) + 2] = 1;
    let others = gadget.d - 1;
    let row = gadget.first + places::cross_start(gadget.d, i);
    mark_six_apart(marks, row + 1, others);
    mark_six_apart(marks, row + 5, others);
    marks[wire] = 0;
}

// All outputs.
fn propagate_outputs(marks: &mut [u8], gadget: Gadget)
    requires { Roomy gadget.d gadget.first marks.old }
    ensures { Moves (OutGates gadget.d gadget.first) (out_at gadget.d gadget.first 0) (out_at gadget.d gadget.first gadget.d) marks.old marks.new }
{
    for i in (0..gadget.d).rev() {
        propagate_output(marks, gadget, i);
    }
}

// The wires w, v and u of two shares, from the wire u on, with a(i), b(j) and r(i,j).
fn propagate_cross(marks: &mut [u8], at: usize, a: usize, b: usize, r: usize)
    requires { (at + 6 ≤ length marks.old) × (a < at) × (b < at) × (r + 1 < at) }
    ensures { Moves (CrossGates at a b r) at (at + 6) marks.old marks.new }
{
    propagate(marks, at + 4, a, at + 3);
    propagate(marks, at + 2, b, r);
    propagate(marks, at, a, r + 1);
}

// The same of the share i and each from one to another.
fn propagate_row(marks: &mut [u8], gadget: Gadget, ops: &[u16], i: usize, from: usize, to: usize)
    requires { Roomy gadget.d gadget.first marks.old × FrameEarly Frame.And gadget.d gadget.first ops.now × (i < gadget.d) × (from ≤ to) × (to ≤ gadget.d) × ((j : ℕ) → from ≤ j → j < to → j ≡ i → ⊥) }
    ensures { Moves (CrossRowGates gadget.d gadget.first (word_a ops.now) (word_b gadget.d ops.now) i) (cross_at gadget.d gadget.first i from) (cross_at gadget.d gadget.first i to) marks.old marks.new }
{
    let a = places::word_a(ops, i);
    for j in (from..to).rev() {
        let b = places::word_b(ops, gadget.d, j);
        let r = gadget.pair_at(i, j);
        propagate_cross(marks, gadget.cross_at(i, j), a, b, r);
    }
}

// The same of every share and each other.
fn propagate_rows(marks: &mut [u8], gadget: Gadget, ops: &[u16])
    requires { Roomy gadget.d gadget.first marks.old × FrameEarly Frame.And gadget.d gadget.first ops.now }
    ensures { Moves (CrossAllGates gadget.d gadget.first (word_a ops.now) (word_b gadget.d ops.now)) (gadget.first + cross_start gadget.d 0) (gadget.first + cross_start gadget.d gadget.d) marks.old marks.new }
{
    for i in (0..gadget.d).rev() {
        propagate_row(marks, gadget, ops, i, i + 1, gadget.d);
        propagate_row(marks, gadget, ops, i, 0, i);
    }
}

// The wires m of all shares. Their B and M are stops.
fn propagate_products(marks: &mut [u8], gadget: Gadget, ops: &[u16])
    requires { Roomy gadget.d gadget.first marks.old × FrameEarly Frame.And gadget.d gadget.first ops.now }
    ensures { Moves (ProductsGates gadget.d gadget.first (word_a ops.now) (word_b gadget.d ops.now)) (product_at gadget.d gadget.first 0) (product_at gadget.d gadget.first gadget.d) marks.old marks.new }
{
    for i in (0..gadget.d).rev() {
        let a = places::word_a(ops, i);
        let at = gadget.product_at(i);
        propagate(marks, at + 1, a, at);
    }
}

// AND. Its wires r and R are stops.
pub(crate) fn propagate_and(marks: &mut [u8], gadget: Gadget, ops: &[u16])
    requires { Roomy gadget.d gadget.first marks.old × FrameEarly Frame.And gadget.d gadget.first ops.now }
    ensures { Moves (λ g. AndGates g gadget.d gadget.first (word_a ops.now) (word_b gadget.d ops.now)) gadget.first (gadget.first + frame_wires Frame.And gadget.d) marks.old marks.new }
{
    propagate_outputs(marks, gadget);
    propagate_rows(marks, gadget, ops);
    propagate_products(marks, gadget, ops);
}

// Marks on REF's random bits of the share i and each other. That of a lower share stands in the lower share's row, just before
// `at`; those of the higher shares are the row of i.
fn mark_masks(marks: &mut [u8], gadget: Gadget, i: usize)
    requires { (i < gadget.d) × (gadget.first + pairs gadget.d ≤ length marks.old) }
    ensures { marks.new ≡ mark_all (mark_all marks.old (map (mask_at gadget.d gadget.first i) (range 0 (i - 0)))) (map (mask_at gadget.d gadget.first i) (range (i + 1) (gadget.d - (i + 1)))) }
{
    let d = gadget.d;
    let mut at = gadget.first + i;
    for j in 0..i {
        marks[at - 1] = 1;
        at += d - j - 2;
    }
    for k in 0..d - i - 1 {
        marks[at + k] = 1;
    }
}

// A sum of REF: its mark goes to the share's wire and to its random bits.
#[tactic(auto, using(std::proofs::lemmas::Bool::Decides::nat_tests))]
fn propagate_sum(marks: &mut [u8], gadget: Gadget, i: usize, a: usize)
    requires { (i < gadget.d) × (a < gadget.first) × (gadget.first + pairs gadget.d + gadget.d ≤ length marks.old) }
    ensures { marks.new ≡ propagated (sum_at gadget.d gadget.first i) (a ∷ map (mask_at gadget.d gadget.first i) (others gadget.d i)) marks.old }
{
    let wire = gadget.sum_at(i);
    if marks[wire] < 1 {
        return;
    }
    marks[a] = 1;
    mark_masks(marks, gadget, i);
    marks[wire] = 0;
}

// REF. Its outputs and its random bits are stops.
pub(crate) fn propagate_refresh(marks: &mut [u8], gadget: Gadget, ops: &[u16])
    requires { (gadget.first + pairs gadget.d + gadget.d ≤ length marks.old) × FrameEarly Frame.Ref gadget.d gadget.first ops.now }
    ensures { Moves (λ g. RefGates g gadget.d gadget.first (word_a ops.now)) gadget.first (gadget.first + frame_wires Frame.Ref gadget.d) marks.old marks.new }
{
    for i in (0..gadget.d).rev() {
        propagate_sum(marks, gadget, i, places::word_a(ops, i));
    }
}
