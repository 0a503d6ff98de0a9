// The copying of one file.
ghost use Rattle.std.specs.Prelude.{◌≡◌, ◌++◌, Option, IfOk, OnOk};
ghost use Rattle.std.specs.FinMap as map;
ghost use Rattle.ados_ram.specs.{Place.{key_of}, Files.{Files}};
ghost use Rattle.ados_text.specs.{Stop.{Answers}, declared.codes.Result2.{Result2}};
ghost use Rattle.ados_find.specs.{Done.{done_of, act_on_each}, Shared.{limits_of, version}};
ghost use Rattle.ados_files.specs.Copy.{middle_directories, make_missing, copy_fault, files_unless, new_bits, noted_files, cloned_files, copied_files, copied_fault, written_files, copy_unless, copy_entry, copy_one};

use crate::jobs::Job;
use crate::make_dir::Making;
use ados_find::{Act, Codes, Shared, ShellView, Work, current, each};
use ados_objects::go_on_saying;
use ados_ram::{Bits, Busy, Entry, Place, Ram};
use ados_text::{Name, NoMemory, Result2, Stop};
use std::slice;

/// How files are copied.
#[derive(Clone, Copy)]
pub struct Manner {
    /// Nothing is reported.
    pub quiet: bool,
    /// The target takes the source's comment.
    pub comment: bool,
    /// The target takes the source's bits, bit a included.
    pub bits: bool,
    /// A new file has the bits of a new object.
    pub fresh: bool,
}

/// The copying of a file to a place below another.
#[derive(Drop)]
pub struct Copying<'a> {
    pub view: &'a ShellView<'a>,
    pub manner: Manner,
    pub to: &'a Place,
}

impl<'a> Act<Job> for Copying<'a> {
    ghost act = { λ s. copy_one s.view.now s.manner s.to.now };

    fn act(&self, shared: &Shared, work: &mut Work, job: &Job) -> Result<(), NoMemory> {
        let view = self.view;
        let target = self.to.joined(job.names.names())?;
        let ram = &current(shared, &work.shared).ram;
        match copy_fault(&view.busy, ram, &job.source, &target) {
            Some(fault) => {
                work.stopped = Some(Codes::erred(fault));
                Ok(())
            }
            None => copy_entry(self, shared, work, job, &target),
        }
    }
}

// A file copied onto itself is refused, and then one that cannot be read.
fn copy_fault(busy: &Busy, ram: &Ram, source: &Place, target: &Place) -> Option<Result2>
    ensures { result ≡ copy_fault busy.now ram.now source.now target.now }
{
    if *source == *target {
        return Some(Result2::OBJECT_IN_USE);
    }
    ram.read(busy, source).err()
}

// Copies the source, if it exists.
fn copy_entry(
    copying: &Copying,
    shared: &Shared,
    work: &mut Work,
    job: &Job,
    target: &Place,
) -> Result<(), NoMemory>
    requires { target.now ≡ copying.now.to.now ++ job.now.names }
    ensures { OnOk result (done_of shared.now work.new ≡
        copy_entry copying.now.view.now copying.now.manner copying.now.to.now (done_of shared.now work.old) job.now
        (map.get (version shared.now work.old.shared).files (key_of job.now.source))) }
{
    match current(shared, &work.shared).ram.look(&job.source) {
        None => Ok(()),
        Some(entry) => {
            let entry = entry.copy()?;
            copy_below(copying, shared, work, job, target, &entry)
        }
    }
}

// Creates the missing directories, writes a copy and reports it, unless the work stopped.
fn copy_below(
    copying: &Copying,
    shared: &Shared,
    work: &mut Work,
    job: &Job,
    target: &Place,
    entry: &Entry,
) -> Result<(), NoMemory>
    ensures { OnOk result (done_of shared.now work.new ≡
        copy_unless copying.now.view.now copying.now.manner job.now.source target.now entry.now
        (act_on_each make_missing (done_of shared.now work.old) (middle_directories copying.now.to.now job.now.names))) }
{
    make_between(copying.to, shared, work, job)?;
    match work.stopped {
        Some(_) => Ok(()),
        None => {
            let change = copied(copying, current(shared, &work.shared), target, entry);
            let quiet = copying.manner.quiet;
            go_on_saying(shared, work, change, quiet, &job.source, b"..copied\n")
        }
    }
}

// Creates the missing directories between TO and a file.
fn make_between(to: &Place, shared: &Shared, work: &mut Work, job: &Job) -> Result<(), NoMemory>
    ensures { OnOk result (done_of shared.now work.new ≡ act_on_each make_missing (done_of shared.now work.old) (middle_directories to.now job.now.names)) }
{
    let mut places = Vec::new(*work.output.allocator());
    push_between(&mut places, to, job.names.names())?;
    each(&MakingMissing, shared, work, &places)
}

// Appends the directories between a place and one below it.
fn push_between(places: &mut Vec<Place>, above: &Place, names: &[Name]) -> Result<(), NoMemory>
    ensures { OnOk result (places.new.items ≡ places.old.items ++ middle_directories above.now names.now) }
{
    let Some((name, rest)) = names.split_first() else {
        return Ok(());
    };
    if rest.is_empty() {
        return Ok(());
    }
    let next = above.joined(slice::from_ref(name))?;
    places.push(next.copy()?)?;
    push_between(places, &next, rest)
}

/// The creation of a directory that is missing.
#[derive(Drop)]
pub struct MakingMissing;

impl Act<Place> for MakingMissing {
    ghost act = { λ s. make_missing };

    fn act(&self, shared: &Shared, work: &mut Work, place: &Place) -> Result<(), NoMemory> {
        match current(shared, &work.shared).ram.look(place) {
            None => Making.act(shared, work, place),
            Some(entry) => {
                if !entry.is_directory() {
                    work.stopped = Some(Codes::erred(Result2::WRONG_TYPE));
                }
                Ok(())
            }
        }
    }
}

// The files with a copy of an entry.
fn copied(copying: &Copying, now: &Shared, target: &Place, entry: &Entry) -> Result<Ram, Stop>
    ensures ok { IfOk result (λ new. new ≡ copied_files copying.now.manner now.now.files target.now entry.now) }
    ensures fault { Answers result (copied_fault (limits_of now.now.dialect) copying.now.view.now.busy now.now.files target.now entry.now) }
{
    match written(copying, now, target, entry) {
        Err(stop) => Err(stop),
        Ok(written) => Ok(changed(copying.manner, written, target, entry)?),
    }
}

// The files with the bytes of an entry at another place too: both share them.
fn written(copying: &Copying, now: &Shared, target: &Place, entry: &Entry) -> Result<Ram, Stop>
    ensures ok { IfOk result (λ new. new ≡ written_files copying.now.manner now.now.files target.now entry.now) }
    ensures fault { Answers result (copied_fault (limits_of now.now.dialect) copying.now.view.now.busy now.now.files target.now entry.now) }
{
    let limits = now.limits();
    let view = copying.view;
    let bits = new_bits(copying.manner, entry);
    match entry.bytes() {
        None => now.ram.write_as(limits, &view.busy, target, &[], bits),
        Some(bytes) => {
            now.ram
                .write_shared(limits, &view.busy, target, bytes, bits)
        }
    }
}

// The target takes of the source what the manner says.
fn changed(manner: Manner, ram: Ram, target: &Place, entry: &Entry) -> Result<Ram, NoMemory>
    ensures { IfOk result (λ new. new ≡ cloned_files manner.bits (noted_files manner.comment ram target.now entry.now) target.now entry.now) }
{
    let noted = noted(manner.comment, ram, target, entry)?;
    cloned(manner.bits, noted, target, entry)
}

// The bits of a new file.
fn new_bits(manner: Manner, entry: &Entry) -> Bits
    ensures { result ≡ new_bits manner entry.now }
{
    if manner.fresh {
        Bits::FRESH
    } else {
        entry.bits
    }
}

// The target takes the source's comment, or not.
fn noted(comment: bool, ram: Ram, target: &Place, entry: &Entry) -> Result<Ram, NoMemory>
    ensures { IfOk result (λ new. new ≡ noted_files comment ram target.now entry.now) }
{
    if !comment {
        return Ok(ram);
    }
    let change = ram.comment(target, &entry.comment);
    unless_refused(ram, change)
}

// The target takes the source's bits, or not.
fn cloned(bits: bool, ram: Ram, target: &Place, entry: &Entry) -> Result<Ram, NoMemory>
    ensures { IfOk result (λ new. new ≡ cloned_files bits ram target.now entry.now) }
{
    if !bits {
        return Ok(ram);
    }
    let change = ram.protect(target, entry.bits);
    unless_refused(ram, change)
}

// The changed files, or the same if the change is refused.
fn unless_refused(ram: Ram, change: Result<Ram, Stop>) -> Result<Ram, NoMemory>
    ensures { (fault : Option Result2) → (files : Files) → Answers change fault → IfOk change (λ new. new ≡ files) →
        IfOk result (λ new. new ≡ files_unless fault ram files) }
{
    match change {
        Ok(changed) => Ok(changed),
        Err(Stop::Refused(_)) => Ok(ram),
        Err(Stop::NoMemory) => Err(NoMemory),
    }
}
