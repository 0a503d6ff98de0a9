//! The Shell's files as the first line of a script finds them, for `--check`: nothing runs, and nothing is written to a shared folder.

use crate::faults::Fault;
use crate::hosts::{hosts_for, world_with};
use crate::opened;
use crate::share::Share;
use ados_find::Shared;
use ados_ram::{Bits, Busy, Limits, Place, Ram};
use ados_resident::Hosts;
use ados_text::{NoMemory, Stop};
use ados_transfer::{
    Below, Content, Kind, Look, Plan, Planned, Records, TransferFault, Volumes, bring, volumes_of,
};
use ados_world::World;
use execute_options::Options;
use std::alloc::Global;
use std::collections::BTreeMap;
use std::rt::{Env, Files};
use std::time::Clock;

/// The Shell's files and assigns before the first line of a script, and where they come from.
#[derive(Drop)]
pub struct Beginning {
    /// The files and the assigns. Those of a shared folder have no bytes, and bit s if they may be executed.
    pub state: Shared,
    /// The current directory.
    pub directory: Place,
    /// What is brought in.
    pub plan: Plan,
    /// The folders that are shared, if any are.
    pub share: Option<Share>,
}

impl Beginning {
    /// The files of a run with these options, but for those of the command line. Folders that can't be shared, and what can't be brought
    /// in, are left out.
    #[tactic(auto, using(ados_launch::proofs::NewPair::new_pair))]
    pub fn of<R: Env + AllocGlobal + Files + Clone + Drop + Clock>(
        rt: &R,
        options: &Options<'_>,
    ) -> Result<Beginning, Fault> {
        let alloc = rt.alloc();
        let hosts = hosts_for(rt, options)?;
        let mut world = world_with(alloc, options.dialect, hosts.as_slice())?;
        let words = options.share.as_slice();
        let volumes = if_possible(volumes_of(rt, words, world.files(), world.assigns()))?;
        let share = shared_folders(opened(rt, options, &mut world))?;
        let plan = brought(rt, options, &world)?;
        let files = world.files().copy()?;
        let mut files = with_planned(alloc, plan.limits(), files, plan.planned())?;
        if let Some(volumes) = &volumes {
            files = with_folders(rt, options, files, volumes)?;
        }
        let first = Shared::first(alloc, options.dialect, Hosts::of(alloc, hosts.as_slice())?)?;
        Ok(Beginning {
            state: first
                .with_files(files)?
                .with_assigns(world.assigns().copy()?)?,
            directory: first_directory(alloc, share.as_ref())?,
            plan,
            share,
        })
    }
}

/// What was done, if it is possible.
pub fn if_possible<T: Drop>(done: Result<T, TransferFault>) -> Result<Option<T>, Fault> {
    match done {
        Ok(value) => Ok(Some(value)),
        Err(TransferFault::NoMemory) => Err(Fault::Memory),
        Err(_) => Ok(None),
    }
}

// The folders that are shared; none if they can't be.
fn shared_folders(opened: Result<Option<Share>, Fault>) -> Result<Option<Share>, Fault> {
    match opened {
        Ok(share) => Ok(share),
        Err(fault) if is_want_of_memory(&fault) => Err(fault),
        Err(_) => Ok(None),
    }
}

// There was no memory.
fn is_want_of_memory(fault: &Fault) -> bool {
    matches!(
        fault,
        Fault::Memory | Fault::Transfer(TransferFault::NoMemory)
    )
}

// What is brought in.
fn brought<R: AllocGlobal + Files + Clone + Drop>(
    rt: &R,
    options: &Options<'_>,
    world: &World,
) -> Result<Plan, Fault> {
    let mut plan = Plan::new(rt.alloc(), options.mirror.limits, world.files())?;
    for words in &options.bring {
        if_possible(bring(rt, world.files(), words, &mut plan))?;
    }
    Ok(plan)
}

// The directory in which the script begins.
fn first_directory(alloc: Global, share: Option<&Share>) -> Result<Place, NoMemory> {
    match share.and_then(|share| share.volumes().first()) {
        Some(volume) => volume.place.copy(),
        None => Ok(Place::root(alloc)),
    }
}

// The files with what is brought in.
fn with_planned(
    alloc: Global,
    limits: Limits,
    files: Ram,
    planned: &[Planned],
) -> Result<Ram, NoMemory> {
    let busy = Busy::none(alloc);
    let mut files = files;
    for one in planned {
        let changed = match &one.content {
            Content::Directory => files.make_dir(limits, &one.place),
            Content::File { bytes, is_script } => {
                files.write_shared(limits, &busy, &one.place, bytes, bits(*is_script))
            }
        };
        files = later(files, changed)?;
    }
    Ok(files)
}

// The files with what is in the folders that are shared.
fn with_folders<R: AllocGlobal + Files + Clone + Drop>(
    rt: &R,
    options: &Options<'_>,
    files: Ram,
    volumes: &Volumes,
) -> Result<Ram, Fault> {
    let alloc = rt.alloc();
    let limits = options.mirror.limits;
    let records: Records = BTreeMap::new(alloc);
    let below = Below::new(rt, volumes);
    let Some(look) = if_possible(Look::new(&below, options.mirror.all, &records))? else {
        return Ok(files);
    };
    let busy = Busy::none(alloc);
    let mut files = files;
    for seen in look.seen.values() {
        let place = volumes.place_of(seen.path.as_str())?;
        let changed = match seen.kind {
            Kind::Directory => files.make_dir(limits, &place),
            Kind::File { is_executable } => {
                files.write_as(limits, &busy, &place, &[], bits(is_executable))
            }
            Kind::Foreign => continue,
        };
        files = later(files, changed)?;
    }
    Ok(files)
}

// The bits of a file, with s or without.
fn bits(script: bool) -> Bits {
    Bits {
        script,
        ..Bits::FRESH
    }
}

// The files after a change, which may be refused.
fn later(files: Ram, changed: Result<Ram, Stop>) -> Result<Ram, NoMemory> {
    match changed {
        Ok(changed) => Ok(changed),
        Err(Stop::NoMemory) => Err(NoMemory),
        Err(Stop::Refused(_)) => Ok(files),
    }
}
