//! What is found in a line of a script: its number and the problem, as texts.

ghost use Rattle.std.specs.Prelude.{◌≡◌};
ghost use Rattle.ados_check.specs.Problems.{command_left_out, is_error, is_harmless, is_idle, is_refused, refused, speaks_of_return};

use crate::left_out::LeftOut;
use ados_line::LineFault;
use ados_readargs::ArgFault;
use ados_text::Text;
use std::fmt;

// What mends the bytes of a script: its letters, its ends of lines, its beginning.
const LETTERS: &str = "(iconv -f LATIN1 -t ASCII//TRANSLIT)";

const RETURNS: &str = "(tr -d '\\r')";

const ORDER_MARK: &str = "(sed '1s/^\\xEF\\xBB\\xBF//')";

// What becomes of a byte that Echo or Ask prints.
const PRINTED: &str = ", and is printed as _ or ?";

// Why a line is no directive that looks like one.
const IDLE: &str = "no directive, since the first line does not begin with a dot";

// What becomes of the directories that a pattern finds, and how each keeps its own.
const FLAT: &str =
    "Copy with a pattern and ALL puts the files of all directories into one (Copy DIR TO b ALL keeps them apart)";

// Where a path leads that begins with a colon.
const TOP: &str =
    "a path that begins with a colon leads to the top of RAM:, and not of a disk (write its name before the colon)";

/// A problem of a line.
#[derive(Drop)]
pub struct Finding {
    /// The line's number, from 1.
    pub line: usize,
    /// What is wrong with it.
    pub problem: Problem,
}

/// What is wrong with a line.
#[derive(Drop)]
pub enum Problem {
    /// A byte above 127 outside of a comment: the Shell reads it as `?`, which is a pattern.
    NotAscii(u8),
    /// A byte above 127 in the words of Echo or Ask, which print another sign in its place.
    PrintedByte(u8),
    /// A carriage return at the end, outside of a comment: the Shell takes it for a byte of the last word. So many other lines have one.
    EndReturn(usize),
    /// The same after the words of Echo or Ask, which print it.
    PrintedReturn(usize),
    /// A UTF-8 byte order mark stands before the first line.
    ByteOrderMark,
    /// A command has options of Release 2 that the Shell leaves out, and takes for names.
    LeftOut(LeftOut),
    /// It has this many bytes, more than a line may have.
    LongLine(usize),
    /// It cannot be read.
    Line(LineFault),
    /// The arguments of a command, which has this template, do not fill it.
    Arguments {
        command: Text,
        template: Text,
        fault: ArgFault,
    },
    /// A directive is unknown, or cannot stand there, or its template is none.
    BadDirective,
    /// A Skip finds neither this Lab nor an EndSkip.
    NoLab(Text),
    /// An Else has no EndIf below it.
    ElseWithoutEndIf,
    /// An If has neither an Else nor an EndIf below it.
    IfWithoutEndIf,
    /// An EndIf has no If above it.
    EndIfWithoutIf,
    /// A directive in a script that has none, since its first line does not begin with a dot.
    IdleDirective,
    /// Neither the Shell nor, as far as is known, anybody else has a command of this name.
    UnknownCommand(Text),
    /// There is no file of this name for Execute.
    NoScript(Text),
    /// A Copy with ALL puts what is in the directories that a pattern finds into one.
    FlatCopy,
    /// As far as is known nobody has a device of this name. Without a name a path begins with its colon.
    NoDevice(Text),
}

impl Problem {
    /// The line may be run all the same.
    pub fn is_harmless(&self) -> bool
        ensures { result ≡ is_harmless self.now }
    {
        matches!(self, Problem::PrintedByte(_) | Problem::PrintedReturn(_))
    }

    /// The line must not be run after all, since Echo or Ask is another command there.
    pub fn refuse(&mut self)
        ensures { self.new ≡ refused self.old }
    {
        match self {
            Problem::PrintedByte(byte) => *self = Problem::NotAscii(*byte),
            Problem::PrintedReturn(others) => *self = Problem::EndReturn(*others),
            _ => {}
        }
    }

    /// It speaks of a carriage return at the end of its line.
    pub fn is_return(&self) -> bool
        ensures { result ≡ speaks_of_return self.now }
    {
        matches!(self, Problem::EndReturn(_) | Problem::PrintedReturn(_))
    }

    /// Because of it a run does not run the script, unless it is to be lenient.
    pub fn is_refused(&self) -> bool
        ensures { result ≡ is_refused self.now }
    {
        matches!(
            self,
            Problem::NotAscii(_)
                | Problem::EndReturn(_)
                | Problem::ByteOrderMark
                | Problem::LeftOut(_)
        )
    }

    /// It is of options alone that have no effect which matters here, and that can be struck out of the script.
    pub fn is_idle(&self) -> bool
        ensures { result ≡ is_idle self.now }
    {
        match self {
            Problem::LeftOut(options) => options.is_idle(),
            _ => false,
        }
    }

    /// The command that is given options which the Shell leaves out, if it is of that.
    pub fn command_left_out(&self) -> Option<&'static str>
        ensures { result ≡ command_left_out self.now }
    {
        match self {
            Problem::LeftOut(options) => Some(options.command()),
            _ => None,
        }
    }

    /// Whenever the line is taken, it fails; otherwise it may be meant as it is.
    pub fn is_error(&self) -> bool
        ensures { result ≡ is_error self.now }
    {
        matches!(
            self,
            Problem::NotAscii(_)
                | Problem::EndReturn(_)
                | Problem::ByteOrderMark
                | Problem::LongLine(_)
                | Problem::Line(_)
                | Problem::Arguments { .. }
                | Problem::BadDirective
                | Problem::NoLab(_)
                | Problem::ElseWithoutEndIf
        )
    }
}

impl fmt::Display for Problem {
    fn fmt<W: fmt::Write>(&self, f: &mut fmt::Formatter<W>) -> Result<(), fmt::Error> {
        match self {
            Problem::NotAscii(byte) => write!(f, "byte 0x{byte:02x} is not ASCII {}", LETTERS),
            Problem::PrintedByte(byte) => write!(f, "byte 0x{byte:02x} is not ASCII{}", PRINTED),
            Problem::EndReturn(0) => write!(f, "byte 0x0d (CR) at its end {}", RETURNS),
            Problem::EndReturn(others) => {
                write!(
                    f,
                    "byte 0x0d (CR) at its end, and {others} more {}",
                    RETURNS
                )
            }
            Problem::PrintedReturn(_) => {
                write!(f, "byte 0x0d (CR) at its end is printed {}", RETURNS)
            }
            Problem::ByteOrderMark => write!(f, "a UTF-8 byte order mark {}", ORDER_MARK),
            Problem::LeftOut(options) => write!(f, "{options}"),
            Problem::LongLine(bytes) => write!(f, "{bytes} bytes (at most 512)"),
            Problem::Line(fault) => write!(f, "{fault}"),
            Problem::Arguments {
                command,
                template,
                fault,
            } => write!(f, "{}: {fault} ({})", shown(command), shown(template)),
            Problem::BadDirective => write!(f, "bad directive"),
            Problem::NoLab(label) if label.as_bytes().is_empty() => write!(f, "no Lab"),
            Problem::NoLab(label) => write!(f, "no Lab {}", shown(label)),
            Problem::ElseWithoutEndIf => write!(f, "Else without EndIf"),
            Problem::IfWithoutEndIf => write!(f, "If without EndIf"),
            Problem::EndIfWithoutIf => write!(f, "EndIf without If"),
            Problem::IdleDirective => f.write_str(IDLE),
            Problem::UnknownCommand(name) => write!(f, "{}: unknown command", shown(name)),
            Problem::NoScript(name) => write!(f, "{}: no such script", shown(name)),
            Problem::FlatCopy => f.write_str(FLAT),
            Problem::NoDevice(name) if name.as_bytes().is_empty() => f.write_str(TOP),
            Problem::NoDevice(name) => {
                let name = shown(name);
                write!(
                    f,
                    "{name}: is no device here: --share FOLDER={name}:, or Assign it (device not mounted)"
                )
            }
        }
    }
}

// A text as it is shown.
fn shown(text: &Text) -> &str {
    std::str::from_utf8(text.as_bytes()).unwrap_or("")
}

impl fmt::Display for Finding {
    fn fmt<W: fmt::Write>(&self, f: &mut fmt::Formatter<W>) -> Result<(), fmt::Error> {
        write!(f, "line {}: {}", self.line, self.problem)
    }
}
