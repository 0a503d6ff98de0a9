// The steps of a path.
use ados_text::Text;

/// How many steps are kept in the value of a path itself: most paths have no more.
pub const SHORT: usize = 4;

/// A step of a path.
#[derive(Clone, Default, Drop)]
pub enum Step {
    /// To the directory above.
    #[default]
    Up,
    /// To an object of this name.
    Name(Text),
}
