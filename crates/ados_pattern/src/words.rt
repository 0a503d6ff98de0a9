//! Words of bits, each an end of a start: in a group of 64 ends the bit `b` is the end `64 * group + b`.

ghost use Rattle.std.specs.Prelude.{◌≡◌, ◌==◌, ◌+◌, ◌*◌, ◌<◌, ◌^◌, ◌&&◌, ℕ, true, nat_le, nat_lt, not};
ghost use Rattle.ados_pattern.specs.Table.{is_set, leads, table_word};

/// The ends in the words of the rest to which the middles of one group lead.
pub fn led_to(middles: u64, group: usize, rest: &[u64]) -> u64
    requires { group * 64 < 2 ^ 63 + 1 }
    ensures { (b : ℕ) → b < 64 → is_set result b ≡ leads middles group rest.now b }
{
    let mut left = middles;
    let mut word = 0;
    while left != 0 {
        let middle = lowest(left);
        word |= word_at(rest, group * 64 + middle);
        left = without(left, middle);
    }
    word
}

/// The word at a place, or 0.
pub fn word_at(words: &[u64], place: usize) -> u64
    ensures { result ≡ table_word words.now place }
{
    match words.get(place) {
        Some(word) => *word,
        None => 0,
    }
}

/// Whether a bit of the word is set.
pub fn has_bit(word: u64, bit: usize) -> bool
    requires { bit < 64 }
    ensures { result ≡ is_set word bit }
{
    (word >> bit) & 1 == 1
}

/// The word of a column with only the bit of one end.
pub fn single(group: usize, end: usize) -> u64
    ensures { (b : ℕ) → b < 64 → is_set result b ≡ (end == group * 64 + b) }
{
    if end / 64 == group {
        1 << (end % 64)
    } else {
        0
    }
}

/// The word with the bit of the end right after a start, if `holds`.
pub fn before(group: usize, start: usize, holds: bool) -> u64
    ensures { (b : ℕ) → b < 64 → is_set result b ≡ (start == group * 64 + b + 1) && holds }
{
    if holds && start > 0 {
        single(group, start - 1)
    } else {
        0
    }
}

/// The word with the bits of all ends that do not come before a start.
pub fn up_to(group: usize, start: usize) -> u64
    ensures { (b : ℕ) → b < 64 → is_set result b ≡ nat_le (group * 64 + b) start }
{
    if start / 64 < group {
        0
    } else if start / 64 == group {
        u64::MAX >> (63 - start % 64)
    } else {
        u64::MAX
    }
}

/// The word with the bits of all ends below a limit.
pub fn below(group: usize, limit: usize) -> u64
    ensures { (b : ℕ) → b < 64 → is_set result b ≡ nat_lt (group * 64 + b) limit }
{
    if limit == 0 {
        0
    } else {
        up_to(group, limit - 1)
    }
}

// The lowest bit that is set.
fn lowest(word: u64) -> usize
    requires { 0 < word }
    ensures bit { result < 64 }
    ensures set { is_set word result ≡ true }
{
    word.trailing_zeros() as usize
}

// The word without one bit.
fn without(word: u64, bit: usize) -> u64
    requires { bit < 64 }
    ensures bits { (b : ℕ) → b < 64 → is_set result b ≡ (is_set word b && not (b == bit)) }
    ensures less { is_set word bit ≡ true → result < word }
{
    word & !(1 << bit)
}
