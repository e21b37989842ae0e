// The gates inside AND of bits, each in a byte of its own: what `equations` says is multiplied, multiplied.
ghost use Rattle.std.specs.Prelude.{◌≡◌, ◌%◌};
ghost use Rattle.std.specs.Int.Bits.{bit_and, bit_xor};

use super::equations;
use super::equations::Factors;

// A product.
fn multiply(s: Factors) -> u8
    ensures { result ≡ bit_and s.one s.other % 256 }
{
    ((s.one & s.other) % 256) as u8
}

pub fn m(a: u8, b: u8) -> u8
    ensures { result ≡ bit_and a b }
{
    multiply(equations::m(a as u64, b as u64))
}

pub fn u(a: u8, r: u8) -> u8
    ensures { result ≡ bit_and (bit_xor 1 a) r }
{
    multiply(equations::u(1, a as u64, r as u64))
}

pub fn v(b: u8, r: u8) -> u8
    ensures { result ≡ bit_xor b r }
{
    (equations::v(b as u64, r as u64) % 256) as u8
}

pub fn w(a: u8, v: u8) -> u8
    ensures { result ≡ bit_and a v }
{
    multiply(equations::w(a as u64, v as u64))
}
