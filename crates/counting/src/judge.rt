// Rules 15 to 24, behind the checker's.
ghost use Rattle.counting.specs.Internal.Judging.{Judged};

use checker::Accepted;
use circuit::{Refusal, Rule};
use evaluation::rules;

// Numbers that the sheet of counts has: four for each combination of eight wires.
const SHEET: usize = 1024;

// Free bits of a sharing and a tape that may be gone through.
const FREE_BITS: usize = 16;

// A call judged, but for rule 25: by the checker, then by rules 15, 17, 18, 19 and 24, the sheet of counts having so many numbers.
pub(crate) fn judge(
    table: &[u16],
    notes: &mut [u16],
    secrets: &[u8],
    probes: &[u16],
    room: usize,
) -> Result<Accepted, Refusal>
    ensures { Judged table.now notes.old secrets.now probes.now room notes.new result }
{
    let accepted = checker::check(table, notes)?;
    let inputs = accepted.inputs;
    if secrets.len() != 2 * inputs {
        return rules::refusal(Rule::ShareLength, 0);
    }
    if room < SHEET {
        return rules::refusal(Rule::SheetLength, 0);
    }
    if let Some(byte) = rules::first_over(secrets) {
        return rules::refusal(Rule::Bit, byte);
    }
    if let Some(probe) = rules::first_missing(probes, accepted.wires) {
        return rules::refusal(Rule::Probe, probe);
    }
    if FREE_BITS < (table[1] as usize - 1) * inputs + accepted.randoms {
        return rules::refusal(Rule::FreeBits, 0);
    }
    Ok(accepted)
}
