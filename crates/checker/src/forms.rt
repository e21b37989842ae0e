// The words of each form, judged in their order. Where they break no rule, and the wires that they make keep 13 and 14, these
// are written into the notes; otherwise the notes are as found. (The notes and the number of wires in them go side by side: a struct
// that held the lent notes would read as its state at entry and at exit in every clause.)
ghost use Rattle.std.specs.Prelude.{◌≡◌, ◌+◌, ◌-◌, ◌≤◌, ◌<◌, true, false, Ok, eqb, length};
ghost use Rattle.circuit.specs.Limits.{most_shares};
ghost use Rattle.circuit.specs.Lists.{nth};
ghost use Rattle.checker.specs.Internal.Notes.{Room, noted, wanted, label_found, stage_found};
ghost use Rattle.checker.specs.Internal.Adding.{spot, at_word, ◌and_then◌, stage_asked, label_asked, value_asked, like_asked};
ghost use Rattle.checker.specs.Internal.Adding.{row_broken, product_broken, refresh_broken, gadget_after, wires_at, Judges};

use super::notes;
use super::notes::{Made, Wanted};
use circuit::Rule;

// The rule that a frame breaks, and the word of the frame where it is broken.
#[derive(Clone, Copy)]
pub struct Spot {
    pub rule: Rule,
    pub word: usize,
}

impl Spot {
    fn new(rule: Rule, word: usize) -> Self
        ensures { result ≡ spot rule word }
    {
        Spot { rule, word }
    }
}

// The wires written, unless they break rule 13 or 14.
#[tactic(auto, using(std::proofs::lemmas::Bool::Decides::nat_tests))]
fn put(made: Made, wires: usize, notes: &mut [u16]) -> Result<(), Spot>
    requires { Room wires notes.old × (made.label + made.named ≤ most_shares) }
    ensures { Judges (Ok tt) made wires notes.old notes.new result }
{
    let room = circuit::WIRES - wires;
    if circuit::LAST_STAGE < made.stage {
        return Err(Spot::new(Rule::LastStage, 0));
    }
    if room < made.inner || room - made.inner < made.named {
        return Err(Spot::new(Rule::WireCount, 0));
    }
    notes::write(notes, wires, made);
    Ok(())
}

// One named wire written, unless it breaks rule 13 or 14.
fn put_one(
    label: u16,
    stage: usize,
    registered: bool,
    wires: usize,
    notes: &mut [u16],
) -> Result<(), Spot>
    requires { Room wires notes.old × (label < most_shares) }
    ensures { Judges (Ok tt) (wires_at 1 label stage registered) wires notes.old notes.new result }
{
    put(
        Made {
            inner: 0,
            named: 1,
            label: label as usize,
            stage,
            registered,
        },
        wires,
        notes,
    )
}

// What wires in a row break, from the word `first` on, that have the labels 0, 1 and so on, and of which the same is wanted.
fn row_rule(
    row: &[u16],
    first: usize,
    wanted: Wanted,
    wires: usize,
    notes: &[u16],
) -> Result<(), Spot>
    requires { Room wires notes.now × (length row.now ≤ 8) × (first ≤ 10) }
    ensures { result ≡ row_broken (noted notes.now wires) wanted first 0 row.now }
{
    for i in 0..row.len() {
        let word = first + i;
        let told = notes::wire_rule(notes, wires, row[i], i as u16, wanted);
        told.map_err(|rule| Spot::new(rule, word))?;
    }
    Ok(())
}

// IN: a stage.
#[tactic(auto, using(std::proofs::lemmas::Bool::Decides::nat_tests))]
pub(crate) fn stage(stage: u16, d: usize, wires: usize, notes: &mut [u16]) -> Result<(), Spot>
    requires { Room wires notes.old × (d ≤ 8) }
    ensures { Judges (at_word 1 (stage_asked stage)) (wires_at d 0 stage true) wires notes.old notes.new result }
{
    if circuit::LAST_STAGE < stage as usize {
        return Err(Spot::new(Rule::Range, 1));
    }
    put(
        Made {
            inner: 0,
            named: d,
            label: 0,
            stage: stage as usize,
            registered: true,
        },
        wires,
        notes,
    )
}

// CON: a label, a value and a stage.
#[tactic(auto, using(std::proofs::lemmas::Bool::Decides::nat_tests))]
pub(crate) fn constant(
    label: u16,
    value: u16,
    stage: u16,
    d: usize,
    wires: usize,
    notes: &mut [u16],
) -> Result<(), Spot>
    requires { Room wires notes.old × (d ≤ 8) }
    ensures { Judges (at_word 1 (label_asked d label) and_then at_word 2 (value_asked value) and_then at_word 3 (stage_asked stage))
        (wires_at 1 label stage true) wires notes.old notes.new result }
{
    if d <= label as usize {
        return Err(Spot::new(Rule::Range, 1));
    }
    if 1 < value {
        return Err(Spot::new(Rule::Range, 2));
    }
    if circuit::LAST_STAGE < stage as usize {
        return Err(Spot::new(Rule::Range, 3));
    }
    put_one(label, stage as usize, true, wires, notes)
}

// XOR: two wires of one label and stage.
pub(crate) fn sum(first: u16, second: u16, wires: usize, notes: &mut [u16]) -> Result<(), Spot>
    requires { Room wires notes.old }
    ensures { Judges (at_word 1 (like_asked (noted notes.old wires first) (noted notes.old wires first))
        and_then at_word 2 (like_asked (noted notes.old wires first) (noted notes.old wires second)))
        (wires_at 1 (label_found (noted notes.old wires first)) (stage_found (noted notes.old wires first)) false) wires notes.old notes.new result }
{
    let named = notes::look_up(notes, wires, first).map_err(|rule| Spot::new(rule, 1))?;
    let like = Wanted::at(named.stage);
    let told = notes::wire_rule(notes, wires, second, named.label, like);
    told.map_err(|rule| Spot::new(rule, 2))?;
    put_one(named.label, named.stage as usize, false, wires, notes)
}

// NOT, and REG, whose wire stands one stage later and is registered: one wire.
pub(crate) fn copy(wire: u16, after: usize, wires: usize, notes: &mut [u16]) -> Result<(), Spot>
    requires { Room wires notes.old × (after < 65536) }
    ensures { Judges (at_word 1 (like_asked (noted notes.old wires wire) (noted notes.old wires wire)))
        (wires_at 1 (label_found (noted notes.old wires wire)) (stage_found (noted notes.old wires wire) + after) (eqb after 1)) wires notes.old notes.new result }
{
    let named = notes::look_up(notes, wires, wire).map_err(|rule| Spot::new(rule, 1))?;
    put_one(
        named.label,
        named.stage as usize + after,
        after == 1,
        wires,
        notes,
    )
}

// OUT: a row of registered wires, at the stage that its first one shows. It makes no wires.
pub(crate) fn row(ops: &[u16], stage: u16, wires: usize, notes: &mut [u16]) -> Result<(), Spot>
    requires { Room wires notes.old × (length ops.now ≤ 8) }
    ensures { Judges (row_broken (noted notes.old wires) (wanted stage 0 true) 1 0 ops.now) (wires_at 0 0 stage false) wires notes.old notes.new result }
{
    let wanted = Wanted {
        registered: true,
        ..Wanted::at(stage)
    };
    row_rule(ops, 1, wanted, wires, notes)?;
    put(
        Made {
            inner: 0,
            named: 0,
            label: 0,
            stage: stage as usize,
            registered: false,
        },
        wires,
        notes,
    )
}

// A gadget's wires written, unless they break rule 13 or 14: of so many, inner ones, then a row one stage after another.
fn put_gadget(
    count: usize,
    d: usize,
    stage: u16,
    registered: bool,
    wires: usize,
    notes: &mut [u16],
) -> Result<(), Spot>
    requires { Room wires notes.old × (d ≤ 8) }
    ensures { Judges (Ok tt) (gadget_after (count - d) d stage registered) wires notes.old notes.new result }
{
    put(
        Made {
            inner: count.saturating_sub(d),
            named: d,
            label: 0,
            stage: stage as usize + 1,
            registered,
        },
        wires,
        notes,
    )
}

// AND: the first random, then the rows a and b, which stands one stage before a. Its outputs are sums, not registers.
pub(crate) fn product(
    count: usize,
    d: usize,
    used: usize,
    ops: &[u16],
    wires: usize,
    notes: &mut [u16],
) -> Result<(), Spot>
    requires { Room wires notes.old × (1 ≤ d) × (d ≤ 8) × (length ops.now ≡ 1 + d + d) }
    ensures { Judges (product_broken d used (noted notes.old wires) ops.now)
        (gadget_after (count - d) d (stage_found (noted notes.old wires (nth ops.now 1))) false) wires notes.old notes.new result }
{
    let stage = notes::stage_shown(notes, wires, ops[1]);
    if ops[0] as usize != used {
        return Err(Spot::new(Rule::FirstRandom, 1));
    }
    let middle = 1 + d;
    let a = Wanted::at(stage);
    row_rule(&ops[1..middle], 2, a, wires, notes)?;
    let b = Wanted { ahead: 1, ..a };
    row_rule(&ops[middle..], 2 + d, b, wires, notes)?;
    put_gadget(count, d, stage, false, wires, notes)
}

// REF: the first random, then a row. Its outputs are registers.
pub(crate) fn refresh(
    count: usize,
    d: usize,
    used: usize,
    ops: &[u16],
    wires: usize,
    notes: &mut [u16],
) -> Result<(), Spot>
    requires { Room wires notes.old × (1 ≤ d) × (d ≤ 8) × (length ops.now ≡ 1 + d) }
    ensures { Judges (refresh_broken d used (noted notes.old wires) ops.now)
        (gadget_after (count - d) d (stage_found (noted notes.old wires (nth ops.now 1))) true) wires notes.old notes.new result }
{
    let stage = notes::stage_shown(notes, wires, ops[1]);
    if ops[0] as usize != used {
        return Err(Spot::new(Rule::FirstRandom, 1));
    }
    row_rule(&ops[1..], 2, Wanted::at(stage), wires, notes)?;
    put_gadget(count, d, stage, true, wires, notes)
}
