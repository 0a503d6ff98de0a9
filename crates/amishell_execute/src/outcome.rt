//! What of a run comes to this machine, and the exit status by that.
ghost use Rattle.std.specs.Prelude.{◌≡◌, ◌&&◌, if◌then◌else◌};
ghost use Rattle.amishell_execute.specs.Status.{exit_status, number_of};

use crate::faults::{Fault, report};
use crate::share::Share;
use crate::status::Status;
use ados_launch::End;
use ados_text::{Code, NoMemory};
use ados_transfer::Taker;
use ados_world::World;
use execute_options::Options;
use std::fmt::Write;
use std::io::Eprint;
use std::rt::Files;
use std::time::{Clock, SystemTime};

/// What is taken after a run.
#[derive(Clone, Copy)]
pub enum Taking {
    /// Nothing, since nothing ran.
    Nothing,
    /// What is asked for, but in place of no file that was changed since this moment, at which the run began; each one was if it is not
    /// known.
    Asked(Option<SystemTime>),
}

impl Taking {
    /// What is taken after a run that began at this moment and ended like this.
    pub fn after(ended: &Result<End, Fault>, begun: Option<SystemTime>) -> Taking {
        match ended {
            Err(Fault::NothingRun(..)) => Taking::Nothing,
            _ => Taking::Asked(begun),
        }
    }
}

/// What of a run came to this machine.
#[derive(Clone, Copy)]
pub struct Outcome {
    /// The shared folders have what the Shell's files have.
    pub is_alike: bool,
    /// All that is asked for was taken.
    pub is_taken: bool,
}

impl Outcome {
    /// The exit status after a run with this one, whose script ended with this code, if it ended: `Failed` in its place if not all is on
    /// this machine. A line says so if that is a shared folder.
    pub fn status<R: AllocGlobal + Eprint>(
        self,
        rt: &R,
        code: Option<Code>,
        status: Status,
    ) -> Result<Status, Fault>
        ensures { exit_status result ≡ (if self.is_alike && self.is_taken then number_of status else 125) }
    {
        if !self.is_alike {
            // A code that is no status was told.
            let code = if matches!(status, Status::Failed) {
                None
            } else {
                code
            };
            report_lacking(rt, code)?;
            return Ok(Status::Failed);
        }
        if self.is_taken {
            Ok(status)
        } else {
            Ok(Status::Failed)
        }
    }
}

/// Brings the shared folders up to date, if there are any, and takes what is to be taken: even if they could not be brought up to date,
/// but not if they did not come in.
pub fn hand_out<R: AllocGlobal + Files + Eprint + Clone + Drop + Clock>(
    rt: &R,
    options: &Options<'_>,
    world: &World,
    share: Option<&mut Share>,
    taking: Taking,
) -> Result<Outcome, Fault> {
    let Some(share) = share else {
        return Ok(Outcome {
            is_alike: true,
            is_taken: take_all(rt, options, world, taking),
        });
    };
    let closed = share.close(rt, world);
    let is_taken = share.is_filled() && take_all(rt, options, world, taking);
    Ok(Outcome {
        is_alike: closed?,
        is_taken,
    })
}

// Takes what is to be taken; gives whether that is all that is asked for.
fn take_all<R: AllocGlobal + Files + Eprint>(
    rt: &R,
    options: &Options<'_>,
    world: &World,
    taking: Taking,
) -> bool {
    let Taking::Asked(begun) = taking else {
        return false;
    };
    let mut taker = Taker::new(rt, world.files(), world.assigns(), begun);
    let mut is_taken = true;
    for words in &options.take {
        if let Err(fault) = taker.take(words) {
            report(rt, &fault);
            is_taken = false;
        }
    }
    is_taken
}

// Reports that a shared folder is not as the script left it, and with which code the script ended, if it did.
fn report_lacking<R: AllocGlobal + Eprint>(rt: &R, code: Option<Code>) -> Result<(), NoMemory> {
    let mut line = String::from_str(rt.alloc(), "the shared folder and the Shell's files differ")?;
    if let Some(Code(number)) = code {
        write!(line, "; the script's code was {number}")?;
    }
    report(rt, &line);
    Ok(())
}
