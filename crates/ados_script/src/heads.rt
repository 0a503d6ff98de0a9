// The kinds of lines of a script, as a search tells them apart.
ghost use Rattle.std.specs.Prelude.{◌≡◌};
ghost use Rattle.ados_script.specs.Heads.{head_of, head_of_word};

use ados_items::{Item, next_item};

/// The kind of a line of a script, as a search sees it.
#[derive(Clone, Copy)]
pub enum Head {
    /// It begins a block.
    If,
    /// It ends what is executed if the If of its block holds.
    Else,
    /// It ends a block.
    EndIf,
    /// It stops each Skip.
    EndSkip,
    /// It has a label.
    Lab,
    /// Any other line; a search passes over it.
    Other,
}

/// The kind of a line, by its first item, if that is an unquoted word.
pub fn read_head(line: &[u8]) -> Head
    ensures { result ≡ head_of line.now }
{
    match next_item(line, 0) {
        Item::Word { from, to } => head_of_word(&line[from..to]),
        _ => Head::Other,
    }
}

// The kind of a line with this first word. Words of other lengths are told apart without reading them.
fn head_of_word(word: &[u8]) -> Head
    ensures { result ≡ head_of_word word.now }
{
    if word.eq_ignore_ascii_case(b"If") {
        Head::If
    } else if word.eq_ignore_ascii_case(b"Else") {
        Head::Else
    } else if word.eq_ignore_ascii_case(b"EndIf") {
        Head::EndIf
    } else if word.eq_ignore_ascii_case(b"EndSkip") {
        Head::EndSkip
    } else if word.eq_ignore_ascii_case(b"Lab") {
        Head::Lab
    } else {
        Head::Other
    }
}
