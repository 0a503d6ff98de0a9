//! What a command line asks for.

use ados_resident::Dialect;
use ados_text::Text;
use ados_transfer::MirrorOptions;

/// What the program is to do.
#[derive(Drop)]
pub struct Options<'a> {
    /// The dialect of the world.
    pub dialect: Dialect,
    /// The file of the programs of the host that are commands.
    pub hosts: Option<&'a str>,
    /// More commands, each as `NAME` or `NAME=PROGRAM`.
    pub host: Vec<&'a str>,
    /// The stand-ins are commands too.
    pub common: bool,
    /// What is brought in, each as `PATH` or `PATH=NAME`.
    pub bring: Vec<&'a str>,
    /// What is taken out, each as `NAME` or `NAME=PATH`.
    pub take: Vec<&'a str>,
    /// The lines that are typed before the script.
    pub typed: Vec<&'a str>,
    /// The folders that are shared, each as `FOLDER` or `FOLDER=PATH`.
    pub share: Vec<&'a str>,
    /// What of them is shared, and whether anything is written.
    pub mirror: MirrorOptions,
    /// Each argument is quoted.
    pub quote: bool,
    /// Options that the Shell leaves out, and that have no effect which matters here, are struck out of the script.
    pub strike: bool,
    /// The script and its arguments are scripts that are only looked at.
    pub check: bool,
    /// Bytes of the script above 127 become `_`.
    pub ascii_marks: bool,
    /// What is found in the lines of scripts is reported, and they run all the same.
    pub lenient: bool,
    /// What is answered at the end of standard input.
    pub at_end: AtEnd,
    /// The most events and long lines that are taken.
    pub turns: u64,
    /// The most seconds that the run takes.
    pub seconds: Option<u64>,
    /// The codes that commands of the host have at least where they fail, each as `NAME=CODE`.
    pub errors: Vec<&'a str>,
    /// A code of the script below this one is success.
    pub least: u8,
    /// Nothing is told of where scripts end.
    pub quiet: bool,
    /// Each command that a script takes is told.
    pub trace: bool,
    /// The script's file.
    pub script: &'a str,
    /// Its arguments.
    pub args: Vec<&'a str>,
}

/// What is answered at the end of standard input.
#[derive(Clone, Copy, PartialEq, Eq)]
pub enum AtEnd {
    /// Nothing: the run ends.
    Nothing,
    /// No, for ever.
    No,
}

/// Why the words ask for nothing.
#[derive(Drop)]
pub enum Refused {
    /// They are not a command line of the program, for this reason.
    BadLine(String),
    /// They ask for help or for the version, which is this text.
    Help(Text),
    /// There was no memory to read them.
    NoMemory,
}
