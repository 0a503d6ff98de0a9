//! Where the scripts that a run would call are on this machine.

use crate::beginning::{Beginning, if_possible};
use crate::faults::Fault;
use crate::origins_of;
use crate::script_places::script_places;
use ados_find::{Lookup, Refusal, find_file, place_of};
use ados_ram::{Limits, Place, Ram};
use ados_text::{NoMemory, Text};
use ados_trace::ScriptNames;
use ados_transfer::{Plan, TransferFault, bring_script, contents_of, is_shell_script, read_script};
use execute_options::Options;
use std::alloc::Global;
use std::rt::{Env, Files};
use std::time::Clock;

/// What a name in a script leads to.
#[derive(Drop)]
pub enum Found {
    /// A script, which is the file at this path of this machine.
    Script(String),
    /// Anything else, or what is not known before the script runs.
    Other,
    /// Nothing.
    Nothing,
}

/// What the scripts of the command line find at the beginning.
#[derive(Drop)]
pub struct Called<'a> {
    options: &'a Options<'a>,
    beginning: Beginning,
    // The scripts of the command line, each by its path and its place in S:.
    scripts: Vec<(&'a str, Place)>,
}

impl<'a> Called<'a> {
    /// What those of a run with these options find.
    pub fn of<R: Env + AllocGlobal + Files + Clone + Drop + Clock>(
        rt: &R,
        options: &'a Options<'a>,
    ) -> Result<Called<'a>, Fault> {
        let mut called = Called {
            options,
            beginning: Beginning::of(rt, options)?,
            scripts: Vec::new(rt.alloc()),
        };
        called.add_script(rt, options.script)?;
        for path in &options.args {
            called.add_script(rt, path)?;
        }
        Ok(called)
    }

    // Adds a script of the command line: each is brought in alone, as if it were the only one.
    fn add_script<R: AllocGlobal + Files>(&mut self, rt: &R, path: &'a str) -> Result<(), Fault> {
        let files = Ram::new(rt.alloc())?;
        let mut plan = Plan::new(rt.alloc(), self.options.mirror.limits, &files)?;
        if let Some(place) = if_possible(bring_script(rt, &files, path, &[], &mut plan))? {
            self.scripts.push((path, place))?;
        }
        Ok(())
    }

    /// What Execute finds under a name. `caller` is the path of the script in which it stands, if that is one of the command line.
    pub fn find_script<R: AllocGlobal + Files>(
        &self,
        rt: &R,
        name: &Text,
        caller: Option<&str>,
    ) -> Result<Found, Fault> {
        let beginning = &self.beginning;
        let (state, directory) = (&beginning.state, &beginning.directory);
        for place in script_places(rt.alloc(), &state.assigns, &state.ram, directory, name)? {
            if let Some(found) = self.look(rt, &place, caller)? {
                return Ok(found);
            }
        }
        Ok(self.missing(name))
    }

    /// What is found under the word of a command, which is none of the Shell's own.
    pub fn find_command<R: AllocGlobal + Files>(
        &self,
        rt: &R,
        word: &Text,
    ) -> Result<Found, Fault> {
        let beginning = &self.beginning;
        let directory = &beginning.directory;
        match find_file(rt.alloc(), word, &beginning.state, directory, &[])? {
            ados_find::Found::Script(place) => self.command_at(rt, &place),
            ados_find::Found::Unknown if self.is_in_c(rt.alloc(), word)? => Ok(Found::Nothing),
            ados_find::Found::Unknown => Ok(self.missing(word)),
            _ => Ok(Found::Other),
        }
    }

    // What Execute finds at a place, if an object is there.
    fn look<R: AllocGlobal + Files>(
        &self,
        rt: &R,
        place: &Place,
        caller: Option<&str>,
    ) -> Result<Option<Found>, Fault> {
        if self.is_own(place, caller) {
            return Ok(Some(Found::Other));
        }
        match self.beginning.state.ram.look(place) {
            None => Ok(None),
            Some(entry) if entry.is_directory() => Ok(Some(Found::Nothing)),
            Some(_) => Ok(Some(self.file_at(rt, place)?)),
        }
    }

    // The place to which a path leads, if it leads to one.
    fn place(&self, alloc: Global, path: &Text) -> Result<Option<Place>, NoMemory> {
        let beginning = &self.beginning;
        found_place(place_of(alloc, &beginning.state, &beginning.directory, path))
    }

    // The place is that of a script of the command line: of the caller, if that is one.
    fn is_own(&self, place: &Place, caller: Option<&str>) -> bool {
        self.scripts.iter().any(|(path, own)| *own == *place
            && caller.is_none_or(|caller| caller == *path))
    }

    // The file at a place, by the path that a run gives it; the Shell's own ones are on no machine.
    fn file_at<R: AllocGlobal + Files>(&self, rt: &R, place: &Place) -> Result<Found, Fault> {
        let beginning = &self.beginning;
        let planned = beginning.plan.planned();
        if !self.is_shared(place) && !planned.iter().any(|one| one.place == *place) {
            return Ok(Found::Other);
        }
        let origins = origins_of(rt, self.options, &beginning.plan, beginning.share.as_ref())?;
        let path = beginning.state.ram.full_path(place)?;
        Ok(Found::Script(origins.name(&path)?))
    }

    // The same of a file with bit s, which one of a shared folder has only if its bytes are those of a script too.
    fn command_at<R: AllocGlobal + Files>(&self, rt: &R, place: &Place) -> Result<Found, Fault> {
        let found = self.file_at(rt, place)?;
        if let Found::Script(path) = &found
            && self.is_shared(place)
            && !is_script(rt, self.options.mirror.limits, path.as_str())?
        {
            return Ok(Found::Other);
        }
        Ok(found)
    }

    // A path leads into C:.
    fn is_in_c(&self, alloc: Global, path: &Text) -> Result<bool, NoMemory> {
        let Some(place) = self.place(alloc, path)? else {
            return Ok(false);
        };
        Ok(match place.names() {
            [first, _, ..] => first.text().is("C"),
            _ => false,
        })
    }

    // The place is that of a shared folder, or below it.
    fn is_shared(&self, place: &Place) -> bool {
        match &self.beginning.share {
            Some(share) => share.volumes().iter().any(|volume| volume.has(place)),
            None => false,
        }
    }

    // What is said of a name under which nothing is: what is on another device, or above a shared folder, may be made first.
    fn missing(&self, name: &Text) -> Found {
        let bytes = name.as_bytes();
        let is_above = bytes.starts_with(b"/") && self.beginning.share.is_some();
        if is_above || bytes.contains(&b':') {
            Found::Other
        } else {
            Found::Nothing
        }
    }
}

/// A place that was looked up, if there is one.
pub fn found_place(found: Lookup<Place>) -> Result<Option<Place>, NoMemory> {
    match found {
        Ok(place) => Ok(Some(place)),
        Err(Refusal::NoMemory) => Err(NoMemory),
        Err(Refusal::Stopped(_)) => Ok(None),
    }
}

/// The bytes of a script that is called, as they are in its file. The fault of one that is too large, or can't be read, is that of a script
/// of the command line.
pub fn called_bytes<R: AllocGlobal + Files>(
    rt: &R,
    limits: Limits,
    path: &str,
) -> Result<Vec<u8>, TransferFault> {
    match contents_of(rt, path, limits.file()) {
        Ok(bytes) if bytes.len() <= limits.file() => Ok(bytes.to_vec(rt.alloc())?),
        _ => read_script(rt, limits, path),
    }
}

// The bytes of a file of a shared folder are those of a script.
fn is_script<R: AllocGlobal + Files>(rt: &R, limits: Limits, path: &str) -> Result<bool, Fault> {
    match if_possible(called_bytes(rt, limits, path))? {
        Some(bytes) => Ok(is_shell_script(&bytes)),
        None => Ok(false),
    }
}
