// Words of lines.
use crate::wrong::{Wrong, expect};
use ados_items::words;
use ados_text::{NoMemory, Texts};
use std::alloc::Global;

fn are_texts(texts: &Texts, want: &[&str]) -> bool {
    if texts.len() != want.len() {
        return false;
    }
    for (text, want) in texts.as_slice().iter().zip(want) {
        if text.as_bytes() != want.as_bytes() {
            return false;
        }
    }
    true
}

fn has_words(alloc: Global, line: &[u8], want: &[&str]) -> Result<bool, NoMemory> {
    match words(alloc, line)? {
        Some(texts) => Ok(are_texts(&texts, want)),
        None => Ok(false),
    }
}

#[test]
fn words_take_equal_signs_and_stop_at_a_comment(rt: HostRuntime) -> Result<(), Wrong> {
    let line = b"a=b = \"c d\"e \"\" ;x \"";
    let want = &["a=b", "=", "c d", "e", ""];
    expect(has_words(rt.alloc(), line, want)?, "words")
}

fn has_open_quote(alloc: Global, line: &[u8]) -> Result<bool, NoMemory> {
    Ok(words(alloc, line)?.is_none())
}

#[test]
fn an_open_quote_has_no_words(rt: HostRuntime) -> Result<(), Wrong> {
    expect(has_open_quote(rt.alloc(), b"a \"b")?, "an open quote")
}
