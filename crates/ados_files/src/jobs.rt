// What FROM of Copy, Rename and Search names; the files that Copy copies of that, with their paths below TO.
ghost use Rattle.std.specs.Prelude.{◌≡◌, ◌++◌, ◌∷◌, [], drop, length, IfOk, OnOk};
ghost use Rattle.std.specs.FinMap as map;
ghost use Rattle.ados_ram.specs.{Place.{key_of}, Written.{written_place}};
ghost use Rattle.ados_find.specs.Paths.{Gives};

use ados_find::{Lookup, Shared};
use ados_objects::{NamedObjects, named};
use ados_ram::{Entry, Place, Ram, push_places};
use ados_text::{NoMemory, Text};
use std::alloc::Global;
use std::slice;

/// A file to be copied, and the names of its copy below TO.
#[derive(Drop)]
pub struct Job {
    pub source: Place,
    pub names: Place,
}

impl Job {
    fn new(source: &Place, names: Place) -> Result<Job, NoMemory>
        ensures { IfOk result (λ job. job ≡ record { source = source.now; names = names }) }
    {
        Ok(Job {
            source: source.copy()?,
            names,
        })
    }
}

ghost use Rattle.ados_files.specs.Jobs.{gathered_places, sources_of, directory_job, source_jobs, all_jobs, target_jobs};

/// The objects that the arguments of FROM name.
pub fn sources_of(
    alloc: Global,
    shared: &Shared,
    directory: &Place,
    texts: &[Text],
) -> Lookup<NamedObjects>
    ensures { Gives result (sources_of shared.now directory.now texts.now) }
{
    match texts {
        [text] => named(alloc, shared, directory, text),
        _ => gathered(alloc, shared, directory, texts),
    }
}

fn gathered(
    alloc: Global,
    shared: &Shared,
    directory: &Place,
    texts: &[Text],
) -> Lookup<NamedObjects>
    ensures { Gives result (gathered_places shared.now directory.now texts.now) }
{
    let mut places = Vec::new(alloc);
    for text in texts {
        let found = named(alloc, shared, directory, text)?;
        push_places(&mut places, found.places())?;
    }
    Ok(NamedObjects::several(places))
}

/// The files that sources stand for.
pub fn all_jobs(alloc: Global, all: bool, ram: &Ram, places: &[Place]) -> Result<Vec<Job>, NoMemory>
    ensures { IfOk result (λ jobs. jobs.items ≡ all_jobs all ram.now places.now) }
{
    let mut jobs = Vec::new(alloc);
    for place in places {
        push_jobs(&mut jobs, all, ram, place)?;
    }
    Ok(jobs)
}

// Appends the files that a source stands for.
fn push_jobs(jobs: &mut Vec<Job>, all: bool, ram: &Ram, place: &Place) -> Result<(), NoMemory>
    ensures { OnOk result (jobs.new.items ≡ jobs.old.items ++ source_jobs all ram.now place.now (map.get ram.now (key_of place.now))) }
{
    match ram.look(place) {
        None => Ok(()),
        Some(entry) if entry.is_directory() => {
            let files = ram.directory_files(place, all)?;
            for file in files.as_slice() {
                jobs.push(job_below(*jobs.allocator(), ram, place, file)?)?;
            }
            Ok(())
        }
        Some(entry) => push_named(jobs, place, entry),
    }
}

// A file below a directory keeps its path below it.
fn job_below(alloc: Global, ram: &Ram, directory: &Place, place: &Place) -> Result<Job, NoMemory>
    ensures { IfOk result (λ job. job ≡ directory_job ram.now directory.now place.now) }
{
    Job::new(place, names_below(alloc, ram, directory, place)?)
}

// The path of a file from a directory above it, with its names as they are written.
fn names_below(
    alloc: Global,
    ram: &Ram,
    directory: &Place,
    place: &Place,
) -> Result<Place, NoMemory>
    ensures { IfOk result (λ names. names ≡ drop (length directory.now) (written_place ram.now place.now)) }
{
    let written = ram.written(place)?;
    Place::root(alloc).joined(written.relative_names(directory))
}

// A file keeps its name.
fn push_named(jobs: &mut Vec<Job>, place: &Place, entry: &Entry) -> Result<(), NoMemory>
    ensures { OnOk result (jobs.new.items ≡ jobs.old.items ++ record { source = place.now; names = entry.now.name ∷ [] } ∷ []) }
{
    let names = Place::root(*jobs.allocator()).joined(slice::from_ref(&entry.name))?;
    jobs.push(Job::new(place, names)?)?;
    Ok(())
}

/// Files that are copied to TO itself.
pub fn jobs_onto(alloc: Global, places: &[Place]) -> Result<Vec<Job>, NoMemory>
    ensures { IfOk result (λ jobs. jobs.items ≡ target_jobs places.now) }
{
    let mut jobs = Vec::new(alloc);
    for place in places {
        jobs.push(Job::new(place, Place::root(alloc))?)?;
    }
    Ok(jobs)
}
