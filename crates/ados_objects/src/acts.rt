// What is done with the objects that arguments name.
ghost use Rattle.std.specs.Prelude.{◌≡◌, Option, Err, IfOk, OnOk};
ghost use Rattle.ados_text.specs.{declared.codes.Result2.{Result2}, Stop.{Answers}};
ghost use Rattle.ados_ram.specs.Files.{Files};
ghost use Rattle.ados_find.specs.{Done.{Done, done_of, fresh_work, refused_or, act_on_each, end_effect}, Shared.{SharedState}, Effects.{effect_of}};
ghost use Rattle.ados_objects.specs.Acts.{at_path, at_names, in_files, in_files_saying};

use crate::lines::say_path;
use crate::names::named;
use ados_find::{Act, Codes, CommandResult, Shared, ShellView, Work, current, each, place_of};
use ados_ram::{Place, Ram};
use ados_text::{NoMemory, Stop, Text};
use std::alloc::Global;

/// The outcome of a command that performs an action on each item of a list.
pub fn done_with<X, A: Act<X>>(
    alloc: Global,
    shared: &Shared,
    act: &A,
    items: &[X],
) -> CommandResult
    ensures { IfOk result (λ outcome. effect_of shared.now outcome ≡ end_effect (act_on_each (A.act act.now) (fresh_work shared.now) items.now)) }
{
    let mut work = Work::new(alloc);
    each(act, shared, &mut work, items)?;
    Ok(work.end())
}

/// The outcome of a command that performs an action on each of the objects that its arguments name.
pub fn done_with_named<A: Act<Place>>(
    alloc: Global,
    shared: &Shared,
    view: &ShellView,
    act: &A,
    texts: &[Text],
) -> CommandResult
    ensures { IfOk result (λ outcome. effect_of shared.now outcome ≡ end_effect (act_on_each (at_names (A.act act.now) view.now) (fresh_work shared.now) texts.now)) }
{
    done_with(alloc, shared, &Names { act, view }, texts)
}

/// Continues with the changed files, or stops if the change is refused.
pub fn go_on(shared: &Shared, work: &mut Work, change: Result<Ram, Stop>) -> Result<(), NoMemory>
    ensures { (fault : Option Result2) → (files : Files) → Answers change fault → IfOk change (λ new. new ≡ files) →
        OnOk result (done_of shared.now work.new ≡ in_files fault files (done_of shared.now work.old)) }
{
    match change {
        Err(refusal) => stop(work, refusal),
        Ok(ram) => {
            work.shared = Some(current(shared, &work.shared).with_files(ram)?);
            Ok(())
        }
    }
}

/// As `go_on`, and reports it with the path as it was, unless QUIET.
pub fn go_on_saying(
    shared: &Shared,
    work: &mut Work,
    change: Result<Ram, Stop>,
    quiet: bool,
    place: &Place,
    words: &[u8],
) -> Result<(), NoMemory>
    ensures { (fault : Option Result2) → (files : Files) → Answers change fault → IfOk change (λ new. new ≡ files) →
        OnOk result (done_of shared.now work.new ≡ in_files_saying fault files quiet place.now words.now (done_of shared.now work.old)) }
{
    match change {
        Err(refusal) => stop(work, refusal),
        Ok(ram) => {
            let old = current(shared, &work.shared);
            say_path(quiet, &mut work.output, &old.ram, place, words)?;
            work.shared = Some(old.with_files(ram)?);
            Ok(())
        }
    }
}

// Stops because a change is refused.
fn stop(work: &mut Work, refusal: Stop) -> Result<(), NoMemory>
    ensures { (shared : SharedState) → (fault : Option Result2) → (done : Done) → Answers {X = Files} (Err refusal) fault →
        OnOk result (done_of shared work.new ≡ refused_or fault (done_of shared work.old) done) }
{
    match refusal {
        Stop::NoMemory => Err(NoMemory),
        Stop::Refused(fault) => {
            work.stopped = Some(Codes::erred(fault));
            Ok(())
        }
    }
}

/// An action on the place of each path.
#[derive(Drop)]
pub struct Paths<'a, A> {
    pub act: &'a A,
    pub view: &'a ShellView<'a>,
}

impl<'a, A: Act<Place>> Act<Text> for Paths<'a, A> {
    ghost act = { λ s. at_path (A.act s.act.now) s.view.now };

    fn act(&self, shared: &Shared, work: &mut Work, item: &Text) -> Result<(), NoMemory> {
        at_path(self.act, self.view, shared, work, item)
    }
}

/// Performs an action on the place to which a path leads.
pub fn at_path<A: Act<Place>>(
    act: &A,
    view: &ShellView,
    shared: &Shared,
    work: &mut Work,
    text: &Text,
) -> Result<(), NoMemory>
    ensures { OnOk result (done_of shared.now work.new ≡ at_path (A.act act.now) view.now (done_of shared.now work.old) text.now) }
{
    let alloc = *work.output.allocator();
    match place_of(alloc, current(shared, &work.shared), view.directory, text) {
        Err(refusal) => {
            work.stopped = Some(refusal.codes()?);
            Ok(())
        }
        Ok(place) => act.act(shared, work, &place),
    }
}

/// An action on each of the objects that each argument names.
#[derive(Drop)]
pub struct Names<'a, A> {
    pub act: &'a A,
    pub view: &'a ShellView<'a>,
}

impl<'a, A: Act<Place>> Act<Text> for Names<'a, A> {
    ghost act = { λ s. at_names (A.act s.act.now) s.view.now };

    fn act(&self, shared: &Shared, work: &mut Work, text: &Text) -> Result<(), NoMemory> {
        let view = self.view;
        let alloc = *work.output.allocator();
        match named(alloc, current(shared, &work.shared), view.directory, text) {
            Err(refusal) => {
                work.stopped = Some(refusal.codes()?);
                Ok(())
            }
            Ok(found) => each(self.act, shared, work, found.places()),
        }
    }
}
