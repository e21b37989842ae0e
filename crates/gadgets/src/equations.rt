// The gates inside AND, by document 01's letters: m, u and w are products of two factors, v is a sum. (AND's other wires are registers
// and sums.) They are taken of bits, or of sums of variables, a digit for each: both are added modulo 2 digit by digit.
ghost use Rattle.std.specs.Prelude.{◌≡◌};
ghost use Rattle.std.specs.Int.Bits.{bit_xor};
ghost use Rattle.gadgets.specs.Internal.Equations.{factors};

// What is multiplied.
#[derive(Clone, Copy)]
pub struct Factors {
    pub one: u64,
    pub other: u64,
}

// m = a·B (w multiplies alike: they are two gates of AND, by their names)
pub fn m(a: u64, b: u64) -> Factors
    ensures { result ≡ factors a b }
{
    Factors { one: a, other: b }
}

// u = (not a)·R, given what 1 is
pub fn u(one: u64, a: u64, r: u64) -> Factors
    ensures { result ≡ factors (bit_xor one a) r }
{
    Factors {
        one: one ^ a,
        other: r,
    }
}

// v = b + r
pub fn v(b: u64, r: u64) -> u64
    ensures { result ≡ bit_xor b r }
{
    b ^ r
}

// w = a·V
pub fn w(a: u64, v: u64) -> Factors
    ensures { result ≡ factors a v }
{
    Factors { one: a, other: v }
}
