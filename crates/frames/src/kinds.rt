// What the kind word decides, once d is known: the one decision over kinds 0 to 8.
ghost use Rattle.std.specs.Prelude.{◌≡◌};
ghost use Rattle.circuit.specs.Kinds.{kind_of};
ghost use Rattle.frames.specs.Walk.{kind_line, shape_taking, Means};

#[derive(Clone, Copy)]
pub enum Kind {
    Head,
    In,
    Con,
    Xor,
    Not,
    Reg,
    And,
    Ref,
    Out,
}

// What the words after the kind have to be, and at which stage the new wires stand.
#[derive(Clone, Copy)]
pub enum Form {
    // the number of shares
    ShareCount,
    // a stage
    Stage,
    // a label, a value, a stage
    Constant,
    // two wires of one label and stage
    Sum,
    // one wire, so many stages before the one that is made: 0, or 1 for a register (a number, since it is added to a stage)
    Copy { after: u16 },
    // the first random, d wires a, and d wires b one stage before them
    Product,
    // the first random, and d wires
    Refresh,
    // d registered wires
    Row,
}

#[derive(Clone, Copy)]
pub struct Shape {
    pub kind: Kind,
    pub form: Form,
    // how many words follow the kind
    pub words: usize,
    // how many wires are made, random bits used, and secret bits brought in
    pub wires: usize,
    pub randoms: usize,
    pub inputs: usize,
}

// A line of the kind table.
fn kind_line(
    kind: Kind,
    form: Form,
    words: usize,
    wires: usize,
    randoms: usize,
    inputs: usize,
) -> Shape
    ensures { result ≡ kind_line kind form words wires randoms inputs }
{
    Shape {
        kind,
        form,
        words,
        wires,
        randoms,
        inputs,
    }
}

// The frame that a kind word begins, where a gadget of d shares takes so many random bits; how many words follow the kind does
// not depend on them. A word past 8 is no kind and is answered as HEAD (`shaped` says so): rule 5 is asked before, and an option would
// be asked again. The kinds stand in three groups, so that a processor
// foresees each by its own branches: one jump for all of them cost some tables of gates twice the time. Between NOT and REG, which
// have as many words, there is no branch, so that tables of gates in any order are not slowed by it.
pub fn decide(word: u16, d: u16, randoms: u16) -> Shape
    ensures shaped { result ≡ shape_taking randoms d (kind_of word) }
    ensures formed { Means d result.form (kind_of word) }
{
    let n = d as usize;
    let ordered = n * n - n;
    let pairs = randoms as usize;
    if word < 3 {
        return match word {
            1 => kind_line(Kind::In, Form::Stage, 1, n, 0, 1),
            2 => kind_line(Kind::Con, Form::Constant, 3, 1, 0, 0),
            _ => kind_line(Kind::Head, Form::ShareCount, 1, 0, 0, 0),
        };
    }
    if word < 6 {
        if word == 3 {
            return kind_line(Kind::Xor, Form::Sum, 2, 1, 0, 0);
        }
        let kind = if word == 4 { Kind::Not } else { Kind::Reg };
        return kind_line(kind, Form::Copy { after: word - 4 }, 1, 1, 0, 0);
    }
    match word {
        6 => kind_line(
            Kind::And,
            Form::Product,
            1 + n + n,
            7 * ordered + 4 * n,
            pairs,
            0,
        ),
        7 => kind_line(Kind::Ref, Form::Refresh, 1 + n, pairs + 2 * n, pairs, 0),
        8 => kind_line(Kind::Out, Form::Row, n, 0, 0, 0),
        _ => kind_line(Kind::Head, Form::ShareCount, 1, 0, 0, 0),
    }
}
