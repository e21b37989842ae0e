// The rules that a circuit, a text or a call has to keep, and where one is broken.
ghost use Rattle.std.specs.Prelude.{◌≡◌};
ghost use Rattle.circuit.specs.Refusals.{number_of, refusal};

// A rule by what it asks. `rule as usize` is its number in the answers.
#[derive(Clone, Copy, Debug, PartialEq, Eq)]
pub enum Rule {
    // of a table and the notes lent with it
    TableLength = 1,
    NotesLength = 2,
    Head = 3,
    ShareCount = 4,
    // of a frame and its words
    Kind = 5,
    WordCount = 6,
    Range = 7,
    MissingWire = 8,
    InnerWire = 9,
    Label = 10,
    Stage = 11,
    FirstRandom = 12,
    LastStage = 13,
    WireCount = 14,
    // of a call on an accepted table
    ShareLength = 15,
    TapeLength = 16,
    SheetLength = 17,
    Bit = 18,
    Probe = 19,
    // of a text and the table it is read into
    Line = 20,
    TableRoom = 21,
    // of an OUT
    Registered = 22,
    // of a call on an accepted table
    TextRoom = 23,
    FreeBits = 24,
    ReadWires = 25,
    Sharing = 26,
}

// The first rule broken, and where: the frame of the table, or the line of the text, and the word.
#[derive(Clone, Copy, Debug, PartialEq, Eq)]
pub struct Refusal {
    pub rule: Rule,
    pub frame: usize,
    pub word: usize,
}

impl Refusal {
    // A rule broken by a call itself, or by the first frame or line: told at frame 0, and at a word.
    pub fn of_call(rule: Rule, word: usize) -> Self
        ensures { result ≡ refusal rule 0 word }
    {
        Refusal {
            rule,
            frame: 0,
            word,
        }
    }

    // The rule's number.
    pub fn number(self) -> usize
        ensures { result ≡ number_of self.rule }
    {
        self.rule as usize
    }
}
