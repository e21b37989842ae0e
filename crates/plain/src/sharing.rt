// The sharings of an accepted table. The d wires of a sharing have numbers in a row, and where all frames so far are in sharings,
// every wire of label 0 is the first of one. So a row of wires is a sharing where its numbers rise by one from a wire of label 0.
ghost use Rattle.std.specs.Prelude.{◌≡◌, cond, ◌&&◌, ◌+◌, ◌-◌, ◌*◌, ◌≤◌, ◌<◌, eqb, length};
ghost use Rattle.gadgets.specs.Internal.Accepting.{AcceptedTable, circuit_in};
ghost use Rattle.plain.specs.Sharings.{whole_of};
ghost use Rattle.plain.specs.Internal.Tests.{rising, Has, alike_from, over_row, frame_fits, RowsIn, Labels, judgement_of};

use checker::notes;
use circuit::{Refusal, Rule};
use frames::randoms::random_bits;
use frames::walk::{Frame, Gate, Walk};

// n places of a table, from one on and then every `by` words: those of the frames of a run, or of the words of a row.
#[derive(Clone, Copy)]
struct Places {
    at: usize,
    by: usize,
    n: usize,
    ghost some: { (1 ≤ n) × (n ≤ 8) },
    ghost near: { (1 ≤ by) × (by ≤ 8) },
}

impl Places {
    // Whether the words so far behind them are the first of these plus so many times `step`.
    fn rises(self, table: &[u16], word: usize, step: usize) -> bool
        requires { Has table.now (self.at + word) self.by self.n × (step ≤ 1) }
        ensures { result ≡ rising table.now (self.at + word) self.by self.n step }
    {
        let at = self.at + word;
        let first = table[at] as usize;
        for i in 1..self.n {
            if table[at + i * self.by] as usize != first + i * step {
                return false;
            }
        }
        true
    }

    // Whether frames of one kind, each of `by` words, stand there.
    fn alike(self, table: &[u16]) -> bool
        requires { self.at < length table.now }
        ensures { result ≡ alike_from table.now self.at self.by self.n }
    {
        self.at + self.n * self.by <= table.len() && self.rises(table, 0, 0)
    }

    // Whether such frames name wires in a row by their first words, and `wire`, the first of them, has label 0.
    fn over_row(self, table: &[u16], notes: &[u16], wire: u16) -> bool
        requires { (self.at < length table.now) × (2 ≤ self.by) }
        ensures { result ≡ over_row table.now notes.now self.at self.by self.n wire }
    {
        self.alike(table) && notes::label(notes, wire) == 0 && self.rises(table, 1, 1)
    }

    // Whether they do so by their first words and by their second, as XORs do.
    fn over_rows(self, table: &[u16], notes: &[u16], wire: u16) -> bool
        requires { (self.at < length table.now) × (3 ≤ self.by) }
        ensures { result ≡ (over_row table.now notes.now self.at self.by self.n wire && rising table.now (self.at + 2) self.by self.n 1) }
    {
        self.over_row(table, notes, wire) && self.rises(table, 2, 1)
    }

    // Whether such frames, the first of which has this label, have labels from 0 on and one stage, as CONs do.
    fn labelled(self, table: &[u16], label: u16) -> bool
        requires { (self.at < length table.now) × (4 ≤ self.by) }
        ensures { result ≡ (eqb label 0 && alike_from table.now self.at self.by self.n && rising table.now (self.at + 1) self.by self.n 1 && rising table.now (self.at + 3) self.by self.n 0) }
    {
        label == 0 && self.alike(table) && self.rises(table, 1, 1) && self.rises(table, 3, 0)
    }
}

// Whether a frame at a place, or the run of n frames that it begins, is as document 02 asks. (The check has asked that a row begins with
// label 0.)
fn fits(table: &[u16], notes: &[u16], at: usize, n: usize, frame: Frame) -> bool
    requires { (at < length table.now) × (n ≤ 8) × (1 ≤ n) × RowsIn table.now at n frame }
    ensures { result ≡ frame_fits table.now notes.now at n frame }
{
    let row = Places { at, by: 1, n };
    let copies = Places { at, by: 2, n };
    let sums = Places { at, by: 3, n };
    let constants = Places { at, by: 4, n };
    match frame {
        Frame::Gate(gate) => match gate {
            Gate::In { .. } => true,
            Gate::Con { label, .. } => constants.labelled(table, label),
            Gate::Xor { first, .. } => sums.over_rows(table, notes, first),
            Gate::Not { wire } => copies.over_row(table, notes, wire),
            Gate::Reg { wire } => copies.over_row(table, notes, wire),
            Gate::Out => row.rises(table, 1, 1),
        },
        Frame::And => row.rises(table, 2, 1) && row.rises(table, 2 + n, 1),
        Frame::Ref => row.rises(table, 2, 1),
    }
}

// How many frames go with a first one that makes so many wires: a frame of one wire begins a run of n.
#[tactic(auto, using(std::proofs::lemmas::Bool::Decides::nat_tests))]
fn frames_further(wires: usize, n: usize) -> usize
    requires { 1 ≤ n }
    ensures { result ≡ cond (eqb wires 1) (n - 1) 0 }
{
    if wires == 1 { n - 1 } else { 0 }
}

// Rule 26: at the first frame, or the first frame of a run, that fits none.
pub(crate) fn judge(table: &[u16], notes: &[u16]) -> Result<(), Refusal>
    requires { AcceptedTable table.now × Labels notes.now (circuit_in table.now) }
    ensures { (whole_of table.now).judgement ≡ judgement_of result }
{
    let d = table[1];
    let n = d as usize;
    let randoms = random_bits(d);
    let mut walk = Walk { d, at: 2 };
    let mut number = 1;
    // an accepted table has a frame at each place of the walk, up to its end
    while let Ok(Some(next)) = walk.step(table, randoms) {
        let further = frames_further(next.shape.wires, n);
        let last = number + further;
        if !fits(table, notes, walk.at, n, next.frame) {
            return Err(Refusal {
                rule: Rule::Sharing,
                frame: number,
                word: 0,
            });
        }
        let end = next.walk.at + further * (1 + next.shape.words);
        walk = Walk { d, at: end };
        number = last + 1;
    }
    Ok(())
}
