// The rules of a line, by its count of words and its first ones.
ghost use Rattle.std.specs.Prelude.{◌≡◌, ℕ, suc, ◌≤◌, ◌<◌, length, get_or, drop, IfOk};
ghost use Rattle.circuit.specs.Limits.{table_limit};
ghost use Rattle.circuit.specs.Kinds.{kind_of, words as words_of};
ghost use Rattle.text.specs.Internal.Scan.{judged, count_from, value_in, head_by_count, line_rule, frame_rule};

use super::digits::Codes;
use super::line;
use circuit::{Refusal, Rule};
use frames::kinds;

// The d of the first line, or the rule that it breaks: 3 where there is none; 20; 3, two words and kind 0; 4, its d; 21.
pub(crate) fn head(codes: &Codes, text: &[u8], room: usize) -> Result<u16, Refusal>
    requires { room ≤ table_limit }
    ensures ruled { judged result ≡ head_by_count room (length text.now) (count_from 1 text.now) (value_in text.now) (value_in (drop 5 text.now)) }
    ensures shares { IfOk result (λ d. d ≡ value_in (drop 5 text.now)) }
{
    if text.is_empty() {
        return Err(Refusal::of_call(Rule::Head, 0));
    }
    let Some(count) = line::count(codes, text) else {
        return Err(Refusal::of_call(Rule::Line, 0));
    };
    if count != 2 || codes.value(text) != 0 {
        return Err(Refusal::of_call(Rule::Head, 0));
    }
    let d = codes.value(&text[5..]);
    if d < 2 || 8 < d {
        return Err(Refusal::of_call(Rule::ShareCount, 1));
    }
    if room < 2 {
        return Err(Refusal::of_call(Rule::TableRoom, 0));
    }
    Ok(d)
}

// How many words a line has, by its kind, where a gadget has d shares.
#[derive(Drop)]
pub(crate) struct Lengths {
    pub d: u16,
    by_kind: [usize; 9],
    ghost right: { (k : ℕ) → k < 9 → get_or by_kind k 0 ≡ suc (words_of d (kind_of k)) },
}

impl Lengths {
    pub(crate) fn new(d: u16) -> Self
        ensures { result.d ≡ d }
    {
        let mut by_kind = [0; 9];
        for (kind, length) in by_kind.iter_mut().enumerate() {
            *length = 1 + kinds::decide(kind as u16, d, 0).words;
        }
        Lengths { d, by_kind }
    }

    // A line of so many words that begins with a kind, with so much room: 5, its kind; 6, the kind's number of words; 21.
    pub(crate) fn rule(&self, kind: u16, count: usize, room: usize) -> Result<(), Rule>
        ensures { result ≡ line_rule self.now.d kind count room }
    {
        if kind < 1 || 8 < kind {
            return Err(Rule::Kind);
        }
        let k = kind as usize;
        if self.by_kind[k] != count {
            return Err(Rule::WordCount);
        }
        if count <= room {
            Ok(())
        } else {
            Err(Rule::TableRoom)
        }
    }

    // The first line of a text, with so much room: 20; then its kind, its number of words and the room.
    pub(crate) fn first(&self, codes: &Codes, text: &[u8], room: usize) -> Result<(), Rule>
        ensures { result ≡ frame_rule self.now.d room (value_in text.now) (count_from 1 text.now) }
    {
        let Some(count) = line::count(codes, text) else {
            return Err(Rule::Line);
        };
        self.rule(codes.value(text), count, room)
    }
}
