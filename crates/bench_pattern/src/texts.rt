//! Lists of texts.

use ados_text::{NoMemory, Text};
use std::alloc::Global;

/// The texts with these bytes.
pub fn texts_of(alloc: Global, written: &[&str]) -> Result<Vec<Text>, NoMemory> {
    let mut texts = Vec::new(alloc);
    for text in written {
        texts.push(Text::from_bytes(alloc, text.as_bytes())?)?;
    }
    Ok(texts)
}
