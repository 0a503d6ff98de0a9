//! The devices that the scripts of `--check` find: those that the Shell has at its start, and those that options and lines give.

use crate::called::found_place;
use ados_check::{Finding, Problem, assigned_devices};
use ados_find::{Shared, place_of};
use ados_ram::Place;
use ados_resident::{Dialect, Hosts};
use ados_text::{NoMemory, Text, same_name};
use ados_transfer::parted;
use execute_options::Options;
use std::alloc::Global;
use std::rt::Files;

/// The devices that are known, apart from what a script itself does before a line.
#[derive(Drop)]
pub struct Devices {
    alloc: Global,
    dialect: Dialect,
    // The Shell as it starts.
    start: Shared,
    // Those that options and lines give.
    given: Vec<Given>,
    // Folders are shared.
    has_shares: bool,
}

// A device that is given.
#[derive(Drop)]
struct Given {
    name: Text,
    // It is only known in scripts that are called: a script of the command line gives it, which may call them.
    is_of_caller: bool,
}

impl Given {
    // It is the device of this name, and is known in a script, which is one of the command line or called.
    fn is_for(&self, name: &Text, is_given: bool) -> bool {
        !(is_given && self.is_of_caller) && same_name(self.name.as_bytes(), name.as_bytes())
    }
}

impl Devices {
    /// Those of a run with these options, before a line of these scripts is taken.
    pub fn of<R: AllocGlobal + Files>(
        rt: &R,
        options: &Options<'_>,
        typed: &[Text],
    ) -> Result<Devices, NoMemory> {
        let alloc = rt.alloc();
        let mut devices = Devices {
            alloc,
            dialect: options.dialect,
            start: Shared::first(alloc, options.dialect, Hosts::of(alloc, &[])?)?,
            given: Vec::new(alloc),
            has_shares: !options.share.is_empty(),
        };
        for words in &options.share {
            devices.add_share(rt, words)?;
        }
        devices.add(typed, false)?;
        Ok(devices)
    }

    // Adds that of a share, if it has one of its own.
    fn add_share<R: AllocGlobal + Files>(&mut self, rt: &R, words: &str) -> Result<(), NoMemory> {
        if let Some(path) = parted(rt, words).1
            && let Some((name, _)) = path.split_once(':')
        {
            let name = Text::from_bytes(self.alloc, name.as_bytes())?;
            self.given.push(Given {
                name,
                is_of_caller: false,
            })?;
        }
        Ok(())
    }

    /// Adds those that lines assign or ask for; if `is_of_caller` only for scripts that are called.
    pub fn add(&mut self, lines: &[Text], is_of_caller: bool) -> Result<(), NoMemory> {
        for name in assigned_devices(self.alloc, self.dialect, lines)? {
            self.given.push(Given { name, is_of_caller })?;
        }
        Ok(())
    }

    /// Only devices that nobody has are missed by these findings in a script, which is one of the command line or called.
    pub fn has(&self, finding: &Finding, is_given: bool) -> Result<bool, NoMemory> {
        let Problem::NoDevice(name) = &finding.problem else {
            return Ok(false);
        };
        if name.as_bytes().is_empty() {
            // The top of `RAM:` is there, but may not be what is meant.
            return Ok(!self.has_shares);
        }
        if self.given.iter().any(|one| one.is_for(name, is_given)) {
            return Ok(true);
        }
        self.is_at_start(name)
    }

    // The Shell has the device at its start.
    fn is_at_start(&self, name: &Text) -> Result<bool, NoMemory> {
        if name.is("NIL") {
            return Ok(true);
        }
        let mut path = name.copy()?;
        path.push(b':')?;
        let root = Place::root(self.alloc);
        Ok(found_place(place_of(self.alloc, &self.start, &root, &path))?.is_some())
    }
}
