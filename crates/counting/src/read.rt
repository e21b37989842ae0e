// The wires that probes read, from marks on them.
ghost use Rattle.std.specs.Prelude.{◌≤◌, length};
ghost use Rattle.circuit.specs.Limits.{wire_limit};
ghost use Rattle.counting.specs.Internal.Reading.{marked_below, Probed, Lists, ListsRead};

use super::read_wires::ReadWires;
use circuit::WIRES;
use reach::bytes::largest;
use reach::readings::reach_stops;

// Wires that are passed over together where none is marked.
const BLOCK: usize = 64;

// The least that a mark is: a wire with less is not marked.
const MARK: u8 = 1;

// Wires of a circuit for which small marks do: they are set to 0 at each call, and those of any circuit take longer than such a circuit.
const FEW: usize = 512;

// The marked wires below a number, the lowest first, from those below a lower one.
fn list_block(marks: &[u8], from: usize, to: usize, before: ReadWires) -> ReadWires
    requires { (from ≤ to) × (to ≤ wire_limit) × (to ≤ length marks.now) × Lists (marked_below marks.now from) before }
    ensures { Lists (marked_below marks.now to) result }
{
    let mut list = before;
    for x in from..to {
        if marks[x] != 0 {
            list = list.with(x);
        }
    }
    list
}

// The same, a whole block being passed over where no wire is marked; in fewer wires it is not asked first, since bytes that were just
// written one by one are slow to read together.
fn list_some(marks: &[u8], from: usize, to: usize, before: ReadWires) -> ReadWires
    requires { (from ≤ to) × (to ≤ wire_limit) × (to ≤ length marks.now) × Lists (marked_below marks.now from) before }
    ensures { Lists (marked_below marks.now to) result }
{
    if to - from == BLOCK && largest(&marks[from..to]) < MARK {
        return before;
    }
    list_block(marks, from, to, before)
}

// The marked wires below a number, the lowest first.
fn list_marked(marks: &[u8], wires: usize) -> ReadWires
    requires { (wires ≤ wire_limit) × (wires ≤ length marks.now) }
    ensures { Lists (marked_below marks.now wires) result }
{
    let mut list = ReadWires::none();
    for from in (0..wires).step_by(BLOCK) {
        list = list_some(marks, from, wires.min(from + BLOCK), list);
    }
    list
}

// The wires that probes on an accepted table's wires read, with so many marks.
fn list_by<const MARKS: usize>(table: &[u16], wires: usize, probes: &[u16]) -> ReadWires
    requires { Probed table.now wires probes.now × (wires ≤ MARKS) × (MARKS ≤ wire_limit) }
    ensures { ListsRead table.now probes.now result }
{
    let mut marks = [0u8; MARKS];
    reach_stops(table, probes, &mut marks);
    list_marked(&marks, wires)
}

// The wires that probes on an accepted table's wires read, the lowest first: all are counted.
pub(crate) fn list_read(table: &[u16], wires: usize, probes: &[u16]) -> ReadWires
    requires { Probed table.now wires probes.now }
    ensures { ListsRead table.now probes.now result }
{
    if FEW < wires {
        return list_by::<WIRES>(table, wires, probes);
    }
    list_by::<FEW>(table, wires, probes)
}
