// What a line is after its reading.
ghost use Rattle.std.specs.{Prelude.{◌≡◌, false, Ok, IfOk}, List.{list_any}};
ghost use Rattle.ados_text.specs.Text.{IsText};
ghost use Rattle.ados_line.specs.{Answers.{Gives}, Cut.{cut_of, expanded_of_cut}, Pieces.{IsOfPieces}, Signs.{is_special}};

use crate::cuts::Cut;
use crate::faults::LineFault;
use crate::line_cuts::{cut_line, cut_plain};
use ados_text::{NoMemory, Text};
use std::alloc::Global;

/// Where a command's output goes instead of the console.
#[derive(Clone, Drop)]
pub struct Redirection {
    /// The name of a file, without its quotes, and with its star escapes read.
    pub name: Text,
    /// `>>`: the file is kept, and the output is appended to it.
    pub append: bool,
}

/// A line that was cut into its parts.
#[derive(Clone, Drop)]
pub struct Line {
    /// The first item's text.
    pub command: Text,
    /// The text after the command, without the redirections.
    pub args: Text,
    /// The name of the file that the input comes from, without its quotes, and with its star escapes read.
    pub input: Option<Text>,
    /// Where the output goes.
    pub output: Option<Redirection>,
}

impl Line {
    /// An equal line.
    pub fn copy(&self) -> Result<Line, NoMemory>
        ensures { IfOk result (λ line. line ≡ self.now) }
    {
        Ok(self.clone()?)
    }

    /// The same line with other arguments.
    pub fn with_args(&self, args: Text) -> Result<Line, NoMemory>
        ensures { IfOk result (λ line. line ≡ record self.now { args = args }) }
    {
        let mut line = self.copy()?;
        line.args = args;
        Ok(line)
    }
}

/// A line at its first command substitution: the command between the two back-ticks is to be run first, and its output
/// replaces them and the command.
#[derive(Drop)]
pub struct Tick {
    /// The text before the first back-tick.
    pub before: Text,
    /// The text between the two, which is run as a raw line.
    pub command: Text,
    /// The text after the second, unchanged.
    pub after: Text,
}

/// What a raw line was read as.
#[derive(Drop)]
pub enum Expanded {
    /// A blank line or a comment: there is nothing to do.
    Nothing,
    /// A line that was cut.
    Ready(Line),
    /// A line with a pair of back-ticks, which is a command substitution.
    Tick(Tick),
}

/// What a line without comment, alias, variables and back-ticks is read as: its command, arguments and redirections. It
/// is `Nothing` for a line of blanks, and never a `Tick`.
///
/// If a line has several faults, the first one in it is reported. At one place a second input or output comes before a
/// missing name, and that before an open quote; `<>` is neither an input nor an output, and is not implemented. The line
/// is its pieces, in order: the items that are kept, none of which begins with the sign of a redirection, the blanks
/// between them, and the redirections, each of which is a sign with the item after it, whose text is the name. The first
/// item that is kept is the command, and what is kept after it is the arguments, unchanged. After the command Run only
/// the redirections that directly follow it are read: the rest of the line is one piece, the arguments, and no fault in
/// it is reported.
pub fn cut(alloc: Global, line: &Text) -> Result<Expanded, LineFault>
    ensures value { Gives result (expanded_of_cut (cut_of line.now)) }
    ensures pieces { IfOk result (IsOfPieces line.now) }
{
    cut_text(alloc, line.as_bytes())
}

// The cut of a text's bytes.
pub fn cut_text(alloc: Global, line: &[u8]) -> Result<Expanded, LineFault>
    requires { IsText line.now }
    ensures value { Gives result (expanded_of_cut (cut_of line.now)) }
    ensures pieces { IfOk result (IsOfPieces line.now) }
{
    let read = cut_line(alloc, line)?;
    Ok(read.into_expanded())
}

// The cut of a text's bytes in which no byte is special.
#[inline(always)]
#[tactic(auto, using(crate::proofs::UnmarkedLemmas::plain_bytes))]
pub fn cut_plain_text(alloc: Global, line: &[u8]) -> Result<Expanded, LineFault>
    requires ascii { IsText line.now }
    requires plain { list_any is_special line.now ≡ false }
    ensures { Gives result (expanded_of_cut (cut_of line.now)) }
{
    Ok(cut_plain(alloc, line)?.into_expanded())
}

impl Cut {
    // What a line is that was read whole.
    #[inline(always)]
    fn into_expanded(self) -> Expanded
        ensures { Ok result ≡ expanded_of_cut (Ok self) }
    {
        let Cut {
            command,
            args,
            input,
            output,
        } = self;
        match command {
            None => Expanded::Nothing,
            Some(command) => Expanded::Ready(Line {
                command,
                args,
                input,
                output,
            }),
        }
    }
}
