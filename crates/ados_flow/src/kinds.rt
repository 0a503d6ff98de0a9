// The kinds of frames: a script, the commands of a Run, a command substitution.
use ados_text::Text;

/// What a frame is.
#[derive(Drop)]
pub enum FrameKind {
    /// A script.
    Script {
        /// The full path of its file.
        name: Text,
        /// The word of the command that called it.
        command: Text,
    },
    /// The commands of a Run: the lines of its shell.
    RunCommands,
    /// The command of a command substitution, between two back-ticks.
    Tick {
        /// What is before them in the line that waits for it.
        before: Text,
        /// What is after them there.
        after: Text,
    },
}
