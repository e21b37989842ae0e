// The notes: two words for each wire, its label, plus 8 where it is registered, and its stage; or FFFF twice for an inner
// wire. Only this module knows it. The notes are read and written by index, as the scope document has it.
ghost use Rattle.std.specs.Prelude.{◌≡◌, ◌+◌, ◌*◌, ◌≤◌, ◌<◌, false, length};
ghost use Rattle.std.proofs.lemmas.List.Edits.{sets};
ghost use Rattle.circuit.specs.Limits.{most_shares};
ghost use Rattle.circuit.specs.Answer.{label_noted};
ghost use Rattle.checker.specs.Internal.Notes.{Room, noted, stage_found, wanted, wire_asked};
ghost use Rattle.checker.specs.Internal.Notes.{first_word, inner_words, named_words, made_words};

use circuit::Rule;

// Both words of an inner wire.
const INNER: u16 = 0xFFFF;

// What is added to the label of a registered wire.
const REGISTERED: u16 = 8;

// A wire that words may name, as the notes show it.
#[derive(Clone, Copy)]
pub(crate) struct Named {
    pub label: u16,
    pub stage: u16,
    pub registered: bool,
}

// What is asked of a named wire beside its label: to stand so many stages before another, and, if so told, to be registered.
#[derive(Clone, Copy)]
pub(crate) struct Wanted {
    pub stage: u16,
    pub ahead: u16,
    pub registered: bool,
}

impl Wanted {
    // At a stage, and no more.
    pub(crate) fn at(stage: u16) -> Self
        ensures { result ≡ wanted stage 0 false }
    {
        Wanted {
            stage,
            ahead: 0,
            registered: false,
        }
    }
}

// The wires that a frame makes, as the notes show them: inner ones, then named ones with labels in a row at one stage, all
// registered or none.
#[derive(Clone, Copy)]
pub struct Made {
    pub inner: usize,
    pub named: usize,
    pub label: usize,
    pub stage: usize,
    pub registered: bool,
}

// The wire of a number, of the first `wires` that are in the notes; or rule 8 where it is not made, 9 where it is an inner one.
pub(crate) fn look_up(notes: &[u16], wires: usize, wire: u16) -> Result<Named, Rule>
    requires { Room wires notes.now }
    ensures { result ≡ noted notes.now wires wire }
{
    let w = wire as usize;
    if wires <= w {
        return Err(Rule::MissingWire);
    }
    let first = notes[2 * w];
    if first == INNER {
        return Err(Rule::InnerWire);
    }
    Ok(Named {
        label: first % REGISTERED,
        stage: notes[2 * w + 1],
        registered: REGISTERED <= first,
    })
}

// The label that the notes give a wire, where it is a named one; 0 past their end, as the promise has it (`label_noted`).
pub fn label(notes: &[u16], wire: u16) -> u16
    ensures { result ≡ label_noted notes.now wire }
{
    let w = wire as usize;
    if notes.len() <= 2 * w {
        return 0;
    }
    notes[2 * w] % REGISTERED
}

// The stage that a wire shows; 0 where it shows none, and then the row that names the wire is refused for it.
pub(crate) fn stage_shown(notes: &[u16], wires: usize, wire: u16) -> u16
    requires { Room wires notes.now }
    ensures { result ≡ stage_found (noted notes.now wires wire) }
{
    match look_up(notes, wires, wire) {
        Ok(named) => named.stage,
        Err(_) => 0,
    }
}

// The first of rules 8 to 11 and 22 that a wire breaks of which a label is asked, and what is wanted of it.
#[tactic(auto, using(std::proofs::lemmas::Bool::Decides::nat_tests))]
pub(crate) fn wire_rule(
    notes: &[u16],
    wires: usize,
    wire: u16,
    label: u16,
    wanted: Wanted,
) -> Result<(), Rule>
    requires { Room wires notes.now }
    ensures { result ≡ wire_asked (noted notes.now wires wire) label wanted }
{
    let named = look_up(notes, wires, wire)?;
    if named.label != label {
        return Err(Rule::Label);
    }
    if named.stage as usize + wanted.ahead as usize != wanted.stage as usize {
        return Err(Rule::Stage);
    }
    if wanted.registered && !named.registered {
        return Err(Rule::Registered);
    }
    Ok(())
}

// The first word of a named wire.
fn first_word(label: usize, registered: bool) -> usize
    requires { label ≤ most_shares }
    ensures { (result ≡ first_word label registered) × (result ≤ label + 8) }
{
    if registered {
        label + REGISTERED as usize
    } else {
        label
    }
}

// Writes inner wires from the wire `from` on.
fn write_inner(notes: &mut [u16], from: usize, count: usize)
    requires { 2 * (from + count) ≤ length notes.old }
    ensures { notes.new ≡ sets notes.old (2 * from) (inner_words count) }
{
    for i in 2 * from..2 * (from + count) {
        notes[i] = INNER;
    }
}

// Writes named wires from the wire `from` on, with first words in a row and one stage.
fn write_named(notes: &mut [u16], from: usize, count: usize, first: usize, stage: usize)
    requires { (2 * (from + count) ≤ length notes.old) × (first + count ≤ 65536) × (stage < 65536) }
    ensures { notes.new ≡ sets notes.old (2 * from) (named_words first stage count) }
{
    let start = 2 * from;
    for i in 0..count {
        notes[start + 2 * i] = (first + i) as u16;
        notes[start + 2 * i + 1] = stage as u16;
    }
}

// Writes the wires that a frame makes, from the wire `from` on.
pub(crate) fn write(notes: &mut [u16], from: usize, made: Made)
    requires { (2 * (from + made.inner + made.named) ≤ length notes.old) × (made.label + made.named ≤ most_shares) × (made.stage < 65536) }
    ensures { notes.new ≡ sets notes.old (2 * from) (made_words made) }
{
    let first = first_word(made.label, made.registered);
    write_inner(notes, from, made.inner);
    write_named(notes, from + made.inner, made.named, first, made.stage);
}
