// How far the search for a word went, which decides the devices that the search uses.
use crate::search::Found;

/// How far the search for a word went.
#[derive(Clone, Copy)]
pub enum Route {
    /// The search ended before C:, on the resident list or at a file of the path; it uses no device.
    BeforeC,
    /// The word is a path, whose device is used.
    ByPath,
    /// The search reached C:.
    ToC,
}

/// The result of a search.
#[derive(Drop)]
pub struct Search {
    /// What the word stands for.
    pub found: Found,
    /// How far the search went.
    pub route: Route,
}
