// The letters of options and flags.
ghost use Rattle.std.specs.{Prelude.{◌≡◌}, Option.{option_map}};
ghost use Rattle.ados_files.specs.{Letters.{are_letters_of, has_letter}, Texts.{text_or_empty}};

use ados_text::fold;

/// The given text, or the empty one.
pub fn text_or_empty(text: Option<&[u8]>) -> &[u8]
    ensures { result.now ≡ text_or_empty (option_map (λ t. t.now) text.entry) }
{
    match text {
        None => &[],
        Some(text) => text,
    }
}

/// Whether the letter is among others, with case ignored.
pub fn has_letter(letter: u8, letters: &[u8]) -> bool
    ensures { result ≡ has_letter letter letters.now }
{
    letters.iter().any(|other| fold(*other) == letter)
}

/// Whether each is one of the known letters, with case ignored.
pub fn are_letters_of(known: &[u8], letters: &[u8]) -> bool
    ensures { result ≡ are_letters_of known.now letters.now }
{
    letters
        .iter()
        .all(|letter| has_letter(fold(*letter), known))
}
