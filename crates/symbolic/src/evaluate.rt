// The words of variables and of wires, for 256 sharings and tapes at once: four words of 64 bits for each.
ghost use Rattle.std.specs.Prelude.{◌≡◌, ◌+◌, ◌≤◌, ◌<◌, length};
ghost use Rattle.std.specs.Int.Bits.{bit_and, bit_xor};
ghost use Rattle.symbolic.specs.Internal.Terms.{Listed};
ghost use Rattle.symbolic.specs.Internal.Sums.{added, words_at, four_at, FourOf, Before, BoundedTerms, Runs, Shows};

// Four words.
#[derive(Clone, Copy)]
pub struct Four {
    pub a: u64,
    pub b: u64,
    pub c: u64,
    pub d: u64,
}

// The words of a variable.
#[inline(always)]
fn variable_words(words: &[u64; 256], variable: usize) -> Four
    requires { variable < 64 }
    ensures { FourOf result (λ w. words_at w words.now variable) }
{
    let at = 4 * variable;
    Four {
        a: words[at],
        b: words[at + 1],
        c: words[at + 2],
        d: words[at + 3],
    }
}

// Four words written from a place on.
pub fn write_four(words: &mut [u64], at: usize, four: Four)
    requires { at + 4 ≤ length words.old }
    ensures { words.new ≡ four_at words.old at four.a four.b four.c four.d }
{
    words[at] = four.a;
    words[at + 1] = four.b;
    words[at + 2] = four.c;
    words[at + 3] = four.d;
}

// Sums of words.
#[inline(always)]
fn add(one: Four, other: Four) -> Four
    ensures { (result.a ≡ bit_xor one.a other.a) × (result.b ≡ bit_xor one.b other.b) × (result.c ≡ bit_xor one.c other.c) × (result.d ≡ bit_xor one.d other.d) }
{
    Four {
        a: one.a ^ other.a,
        b: one.b ^ other.b,
        c: one.c ^ other.c,
        d: one.d ^ other.d,
    }
}

// Products of words, another operation than sums.
fn multiply(one: Four, other: Four) -> Four
    ensures { (result.a ≡ bit_and one.a other.a) × (result.b ≡ bit_and one.b other.b) × (result.c ≡ bit_and one.c other.c) × (result.d ≡ bit_and one.d other.d) }
{
    Four {
        a: one.a & other.a,
        b: one.b & other.b,
        c: one.c & other.c,
        d: one.d & other.d,
    }
}

// The sum of the words of some variables: those whose bits are set. (The loop goes from one set bit to the next.)
fn sum(words: &[u64; 256], variables: u64) -> Four
    ensures { FourOf result (λ w. added variables (words_at w words.now)) }
{
    let mut all = Four {
        a: 0,
        b: 0,
        c: 0,
        d: 0,
    };
    let mut rest = variables;
    while rest != 0 {
        let next = u64::trailing_zeros(rest) as usize;
        all = add(all, variable_words(words, next));
        // The lowest set bit goes, and not by way of `next`, for which the following turn would wait.
        rest &= rest - 1;
    }
    all
}

// The words of a variable that is a product of two sums.
fn write_product(terms: &[u64; 80], n: usize, words: &mut [u64; 256])
    requires { (n < 40) × Before terms.now n }
    ensures { Runs terms.now n (n + 1) words.old words.new }
{
    let one = sum(words, terms[2 * n]);
    let other = sum(words, terms[2 * n + 1]);
    write_four(words, 4 * (18 + n), multiply(one, other));
}

// Those of such variables from one to another.
pub fn run(terms: &[u64; 80], from: usize, to: usize, words: &mut [u64; 256])
    requires { (from ≤ to) × (to ≤ 40) × BoundedTerms terms.now from to }
    ensures { Runs terms.now from to words.old words.new }
{
    for n in from..to {
        write_product(terms, n, words);
    }
}

// The words of wires on a list, from the sums that they are.
pub fn show(sums: &[u64], read: &[u16], words: &[u64; 256], shown: &mut [u64; 32])
    requires { Listed read.now (length sums.now) }
    ensures { Shows sums.now read.now (length read.now) words.now shown.new }
{
    for (i, &wire) in read.iter().enumerate() {
        write_four(shown, 4 * i, sum(words, sums[wire as usize]));
    }
}
