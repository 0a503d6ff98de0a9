// Which path the cache does not have.
use crate::shared::Shared;
use ados_ram::Place;
use ados_text::Text;
use std::alloc::Global;

/// A path that was looked up in the cache and not found: as it was written, and from which directory.
#[derive(Drop)]
pub struct Question {
    pub directory: Place,
    pub path: Text,
}

impl Shared {
    /// The path to cache next, so that looking up a word in a directory, and then after these bytes, becomes faster: the
    /// first of these two paths that the cache does not have. `None` if it has both, if the path may not be cached, or if an
    /// allocation fails. No contract sees the cache.
    pub fn question(
        &self,
        alloc: Global,
        directory: &Place,
        front: &[u8],
        word: &Text,
    ) -> Option<Box<Question>> {
        let path = self.unknown_path(alloc, directory, front, word)?;
        if !self.goes_from_one(&path) {
            return None;
        }
        let directory = directory.copy().ok()?;
        Box::new(alloc, Question { directory, path }).ok()
    }

    // The first of the two paths that the cache does not have.
    fn unknown_path(
        &self,
        alloc: Global,
        directory: &Place,
        front: &[u8],
        word: &Text,
    ) -> Option<Text> {
        if !self.knows(word, directory) {
            return word.copy().ok();
        }
        if self.known(directory, front, word).is_some() {
            return None;
        }
        Text::from_bytes(alloc, front).ok()?.join(word).ok()
    }
}
