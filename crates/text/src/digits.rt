// Words of four hexadecimal digits.
ghost use Rattle.std.specs.Prelude.{◌≡◌, true, List, ℕ, ◌+◌, ◌*◌, ◌≤◌, length};
ghost use Rattle.text.specs.Internal.Scan.{digit_code, mark_code, code_table, pair_code, most_codes, Coded, is_word, value_in};

// What a byte counts that is not of the form: more than the codes of a word have together, so that one test of their sum finds it.
const NO_CODE: u16 = 4096;

// What stands at a place of the text, by codes: two digits, two more, and the byte behind them.
#[derive(Clone, Copy)]
pub(crate) struct Word {
    high: usize,
    low: usize,
    // 0 for a space, 1 for a line feed
    pub mark: usize,
    ghost small: { high + low + mark ≤ most_codes },
}

impl Word {
    // Whether these are codes of a word: four digits, and a space or a line feed behind them.
    #[tactic(auto, using(crate::proofs::Hex::coded_word))]
    pub(crate) fn is_whole(self) -> bool
        ensures { (bytes : List ℕ) → Coded bytes self.high self.low self.mark → result ≡ is_word bytes }
    {
        self.high + self.low + self.mark <= 511
    }

    // The value of a word.
    pub(crate) fn number(self) -> u16
        requires { (self.high ≤ 255) × (self.low ≤ 255) }
        ensures { result ≡ self.high * 256 + self.low }
    {
        (self.high * 256 + self.low) as u16
    }
}

// The code of each byte. A caller holds the table in a value of its own, so that it is written once.
#[derive(Drop)]
pub(crate) struct Codes {
    // by a byte, the value of a digit 0-9A-F; then, by a byte again, 0 for a space and 1 for a line feed
    table: [u16; 512],
    ghost right: { table ≡ code_table },
}

impl Codes {
    pub(crate) fn new() -> Self {
        let mut table = [NO_CODE; 512];
        for (value, digit) in b"0123456789ABCDEF".iter().enumerate() {
            table[*digit as usize] = value as u16;
        }
        table[256 + b' ' as usize] = 0;
        table[256 + b'\n' as usize] = 1;
        Codes { table }
    }

    #[tactic(auto, using(crate::proofs::Table::digit_entry))]
    fn digit(&self, b: u8) -> usize
        ensures { result ≡ digit_code b }
    {
        let n = b as usize;
        self.table[n] as usize
    }

    // 0 for a space, 1 for a line feed, more for another byte.
    #[tactic(auto, using(crate::proofs::Table::mark_entry))]
    fn mark(&self, b: u8) -> usize
        ensures { result ≡ mark_code b }
    {
        let n = b as usize;
        self.table[256 + n] as usize
    }

    // The value of two digits; more than two digits have where one is none.
    #[tactic(auto, using(crate::proofs::Hex::digit_most))]
    fn pair(&self, a: u8, b: u8) -> usize
        ensures { (result ≡ pair_code a b) × (result ≤ 69632) }
    {
        self.digit(a) * 16 + self.digit(b)
    }

    // The codes of the first five bytes, each looked up once, for the test and for the value.
    #[tactic(auto, using(crate::proofs::Hex::mark_most))]
    pub(crate) fn word(&self, bytes: &[u8]) -> Word
        requires { 5 ≤ length bytes.now }
        ensures { Coded bytes.now result.high result.low result.mark }
    {
        let high = self.pair(bytes[0], bytes[1]);
        let low = self.pair(bytes[2], bytes[3]);
        let mark = self.mark(bytes[4]);
        Word { high, low, mark }
    }

    // The value of the word that bytes begin with.
    #[tactic(auto, using(crate::proofs::Hex::coded_value))]
    pub(crate) fn value(&self, bytes: &[u8]) -> u16
        requires { is_word bytes.now ≡ true }
        ensures { result ≡ value_in bytes.now }
    {
        self.word(bytes).number()
    }
}
