// 64 pairs of a sharing and a tape at once: words of their free bits, and the shares of given secret bits.
ghost use Rattle.std.specs.Prelude.{◌≡◌, ◌+◌, ◌*◌, ◌≤◌, ◌<◌, length};
ghost use Rattle.std.proofs.lemmas.List.Edits.{sets};
ghost use Rattle.counting.specs.Internal.Words.{free_word, shares_of, all_shares};

// The word of a bit that all 64 pairs have.
pub(crate) const ONES: u64 = 0xFFFF_FFFF_FFFF_FFFF;

// The word of a free bit of 64 pairs, whose numbers follow each other: of the lowest six each pair has its own, the others are the same.
pub(crate) fn free_word(i: usize, number: usize) -> u64
    requires { i < 16 }
    ensures { result ≡ free_word i number }
{
    if 5 < i {
        return ONES * ((number >> (i - 6)) % 2) as u64;
    }
    match i {
        0 => 0xAAAA_AAAA_AAAA_AAAA,
        1 => 0xCCCC_CCCC_CCCC_CCCC,
        2 => 0xF0F0_F0F0_F0F0_F0F0,
        3 => 0xFF00_FF00_FF00_FF00,
        4 => 0xFFFF_0000_FFFF_0000,
        _ => 0xFFFF_FFFF_0000_0000,
    }
}

// The shares of a secret bit: free words, and the one that completes them to a given word.
fn complete_one(words: &[u64], whole: u64, shares: &mut [u64])
    requires { length shares.old ≡ length words.now + 1 }
    ensures { shares.new ≡ shares_of whole words.now }
{
    let mut last = whole;
    for (i, word) in words.iter().enumerate() {
        shares[i] = *word;
        last ^= *word;
    }
    shares[words.len()] = last;
}

// The shares of all secret bits, from the words that they complete to.
pub(crate) fn complete(words: &[u64; 16], lasts: &[u64], others: usize, shares: &mut [u64; 32])
    requires { (1 ≤ others) × (others * length lasts.now ≤ 16) }
    ensures { shares.new ≡ sets shares.old 0 (all_shares others lasts.now words.now) }
{
    for (j, last) in lasts.iter().enumerate() {
        let from = others * j;
        let at = from + j;
        complete_one(
            &words[from..from + others],
            *last,
            &mut shares[at..at + others + 1],
        );
    }
}
