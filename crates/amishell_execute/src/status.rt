//! What the program exits with.
ghost use Rattle.std.specs.Prelude.{◌≡◌};
ghost use Rattle.amishell_execute.specs.Status.{number_of, status_of};

use ados_text::Code;

/// How the program ended, as its caller learns it.
#[derive(Clone, Copy)]
pub enum Status {
    /// All that was asked for is done.
    Done,
    /// The script ended with this code.
    Ended(u8),
    /// A script that was looked at has an error.
    Wrong,
    /// The words are not a command line of the program.
    BadLine,
    /// As many events, or seconds, as may be have passed.
    Limit,
    /// The program itself failed, or the script's code is no status.
    Failed,
    /// The script or a program of this machine can't be read or run.
    Unreadable,
}

impl Status {
    /// That of a script that ended with a code; one below `least` is success.
    pub fn of_code(code: Code, least: u8) -> Status
        ensures { result ≡ status_of least code.0 }
    {
        match u8::try_from(code.0) {
            Ok(number) if number < least => Status::Done,
            Ok(number) => Status::Ended(number),
            Err(_) => Status::Failed,
        }
    }

    /// Its number.
    pub fn number(self) -> u8
        ensures { result ≡ number_of self }
    {
        match self {
            Status::Done => 0,
            Status::Ended(number) => number,
            Status::Wrong => 1,
            Status::BadLine => 2,
            Status::Limit => 124,
            Status::Failed => 125,
            Status::Unreadable => 126,
        }
    }
}
