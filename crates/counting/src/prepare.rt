// A table expanded for its count: its shares and random bits are sums of free bits; both sets of secret bits share one expansion.
ghost use Rattle.std.specs.Prelude.{◌≡◌, ◌+◌, ◌*◌, ◌≤◌, ◌<◌, length, take, replicate};
ghost use Rattle.circuit.specs.Limits.{wire_limit};
ghost use Rattle.circuit.specs.Circuit.{size};
ghost use Rattle.gadgets.specs.Internal.Accepting.{circuit_in};
ghost use Rattle.symbolic.specs.Internal.Expanding.{Expanded};
ghost use Rattle.counting.specs.Internal.Preparing.{secret_sum, SecretSums, FreeSums, prepared_shares, prepared_tape};
ghost use Rattle.counting.specs.Internal.Tallying.{Countable, Planned, ReadIn};

use super::pairs;
use super::plan::Plan;
use symbolic::expand;
use symbolic::expand::ONE;

// Sums that are multiplied, two for each product that an expanded table may have.
pub(crate) const TERM_SUMS: usize = 80;

// The variable that is 1 under the second set of secret bits.
const SET: u64 = 0x1_0000;

// The products of an expanded table, and how many of them are in outputs of ANDs.
#[derive(Drop)]
pub struct Terms {
    pub sums: [u64; TERM_SUMS],
    pub outputs: usize,
    ghost sized: { length sums ≡ 80 },
}

// A secret bit as a sum, from its values in both sets.
fn secret_sum(one: u8, other: u8) -> u64
    ensures { result ≡ secret_sum one other }
{
    match (one, other) {
        (0, 0) => 0,
        (0, _) => SET,
        (_, 0) => SET + ONE,
        _ => ONE,
    }
}

// All secret bits.
fn secret_sums(secrets: &[u8], inputs: usize) -> [u64; 16]
    requires { (length secrets.now ≡ inputs + inputs) × (inputs ≤ 16) }
    ensures { SecretSums secrets.now inputs result }
{
    let mut sums = [0u64; 16];
    for j in 0..inputs {
        sums[j] = secret_sum(secrets[j], secrets[inputs + j]);
    }
    sums
}

// The free bits, each a variable.
fn free_sums() -> [u64; 16]
    ensures { FreeSums result }
{
    [
        0x1, 0x2, 0x4, 0x8, 0x10, 0x20, 0x40, 0x80, 0x100, 0x200, 0x400, 0x800, 0x1000, 0x2000,
        0x4000, 0x8000,
    ]
}

// Expands an accepted table for the wires that are read.
pub(crate) fn prepare(
    table: &[u16],
    secrets: &[u8],
    inputs: usize,
    plan: Plan,
    read: &[u16],
    sums: &mut [u64],
) -> Terms
    requires { Countable table.now (take inputs secrets.now) × Planned table.now plan × ReadIn table.now read.now × (inputs ≡ (circuit_in table.now).inputs) × (length secrets.now ≡ inputs + inputs) × (size (circuit_in table.now) ≤ length sums.old) × (length sums.old ≤ wire_limit) }
    ensures { Expanded table.now (prepared_shares plan inputs secrets.now) (prepared_tape plan) read.now (length read.now) sums.new result.sums result.outputs }
{
    let free = free_sums();
    let lasts = secret_sums(secrets, inputs);
    let mut shares = [0u64; 32];
    pairs::complete(&free, &lasts[..inputs], plan.others, &mut shares);
    let sharing = &shares[..(plan.others + 1) * inputs];
    let tape = &free[plan.start..plan.free];
    let mut terms = [0u64; TERM_SUMS];
    let outputs = expand::expand(table, sharing, tape, read, sums, &mut terms);
    Terms {
        sums: terms,
        outputs,
    }
}
