//! What follows when the script has ended: its files come to this machine, and what is to be said of it is said.

use crate::faults::Fault;
use crate::losses::{Kept, tell_losses};
use crate::origins::Origins;
use crate::outcome::{Taking, hand_out};
use crate::settle;
use crate::share::Share;
use crate::stands::status_after;
use crate::status::Status;
use ados_launch::End;
use ados_text::Code;
use ados_transfer::taken_place;
use ados_world::World;
use execute_options::Options;
use std::io::Eprint;
use std::rt::Files;
use std::time::{Clock, SystemTime};

/// What a run leaves to its end.
#[derive(Drop)]
pub struct Ending<'a> {
    /// What is asked for.
    pub options: &'a Options<'a>,
    /// When the run began, if that is known.
    pub begun: Option<SystemTime>,
    /// By which paths the scripts are named.
    pub origins: &'a Origins<'a>,
    /// The files that are not gone with the Shell's.
    pub kept: Kept<'a>,
}

impl Ending<'_> {
    /// Brings the shared folders up to date, takes what is asked for, says how the script ended and which files are gone, and gives the
    /// exit status of the run.
    pub fn finish<R: AllocGlobal + Files + Eprint + Clone + Drop + Clock>(
        mut self,
        rt: &R,
        world: &World,
        share: &mut Option<Share>,
        ended: Result<End, Fault>,
    ) -> Result<Status, Fault> {
        let taking = Taking::after(&ended, self.begun);
        let outcome = hand_out(rt, self.options, world, share.as_mut(), taking)?;
        let code = ended.as_ref().ok().map(|end| end.code);
        let status = settle(
            rt,
            status_after(rt, self.options, world, self.origins, ended),
        );
        if !self.options.quiet {
            self.tell_gone(rt, world, share.as_ref(), code)?;
        }
        outcome.status(rt, code, status)
    }

    // Tells which files are gone: none that is shared or taken, and none in T: after a script that went well.
    fn tell_gone<R: AllocGlobal + Eprint>(
        &mut self,
        rt: &R,
        world: &World,
        share: Option<&Share>,
        code: Option<Code>,
    ) -> Result<(), Fault> {
        if code.is_some_and(|code| code.0 < Code::ERROR.0) {
            self.kept.add_temporary(rt.alloc())?;
        }
        if let Some(share) = share {
            for volume in share.volumes() {
                self.kept.add(&volume.place)?;
            }
        }
        for words in &self.options.take {
            if let Some(place) = taken_place(rt.alloc(), world.files(), world.assigns(), words)? {
                self.kept.add(&place)?;
            }
        }
        tell_losses(rt, world.files(), &self.kept)
    }
}
