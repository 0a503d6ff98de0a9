// Parts of a text.
ghost use Rattle.std.specs.{Prelude.{◌≡◌, ◌≤◌, length}, List.{prefix_len, suffix_len}};
ghost use Rattle.ados_text.specs.Text.{IsText};
ghost use Rattle.ados_items.specs.{Items.{bytes_between, is_blank}, Parts.{first_word, not_blank, rest_of, trimmed_text}};

/// A space or a tab.
pub fn is_blank(byte: u8) -> bool
    ensures { result ≡ is_blank byte }
{
    byte == b' ' || byte == b'\t'
}

/// How many blanks a text begins with.
pub fn blanks(text: &[u8]) -> usize
    ensures value { result ≡ prefix_len is_blank text.now }
    ensures within { result ≤ length text.now }
{
    text.iter().take_while(|byte| is_blank(**byte)).count()
}

// How many blanks a text ends with.
fn last_blanks(text: &[u8]) -> usize
    ensures value { result ≡ suffix_len is_blank text.now }
    ensures within { result ≤ length text.now }
{
    text.iter()
        .rev()
        .take_while(|byte| is_blank(**byte))
        .count()
}

// How many bytes the first word has.
fn word_len(text: &[u8]) -> usize
    ensures value { result ≡ prefix_len not_blank text.now }
    ensures within { result ≤ length text.now }
{
    text.iter().take_while(|byte| !is_blank(**byte)).count()
}

/// The bytes of a text from one place up to another; none if the second comes first. A part of an ASCII text is one.
#[tactic(auto, using(ados_text::proofs::TextLemmas::parts))]
pub fn between(text: &[u8], from: usize, to: usize) -> &[u8]
    ensures value { result.now ≡ bytes_between text.now from to }
    ensures ascii { IsText text.now → IsText result.now }
{
    let to = to.min(text.len());
    if from >= to { &[] } else { &text[from..to] }
}

/// A text without the blanks before and after it.
#[tactic(auto, using(ados_text::proofs::TextLemmas::parts))]
pub fn trimmed(text: &[u8]) -> &[u8]
    ensures value { result.now ≡ trimmed_text text.now }
    ensures ascii { IsText text.now → IsText result.now }
{
    let rest = &text[blanks(text)..];
    &rest[..rest.len() - last_blanks(rest)]
}

/// The bytes up to the first blank.
#[tactic(auto, using(ados_text::proofs::TextLemmas::parts))]
pub fn first_word(text: &[u8]) -> &[u8]
    ensures value { result.now ≡ first_word text.now }
    ensures ascii { IsText text.now → IsText result.now }
{
    &text[..word_len(text)]
}

/// What follows the first word, without the blanks around it.
#[tactic(auto, using(ados_text::proofs::TextLemmas::parts))]
pub fn rest_of(text: &[u8]) -> &[u8]
    ensures value { result.now ≡ rest_of text.now }
    ensures ascii { IsText text.now → IsText result.now }
{
    trimmed(&text[word_len(text)..])
}
