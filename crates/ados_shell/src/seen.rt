// What a turn knows of all shells.
ghost use Rattle.std.specs.{Prelude.{◌≡◌, ◌≤◌, ◌+◌, length, ◌++◌, ◌-◌, [], Some, map, reverse, IfOk, OnOk}, List.{slice_set}, Option.{option_copied}};
ghost use Rattle.ados_assign.specs.InUse.{busy_of};
ghost use Rattle.ados_machine.specs.{Course.{current_directories, outputs_of, uses_of, with_use}, Shells.{seen_of}, Sinks.{held_while, frame_outputs}, Lines.{name_seen}, Names.{innermost_name, waiting_word}, Numbers.{first_free_number, free_number}, World.{seen_shells}};
ghost use Rattle.ados_find.specs.Targets.{open_places};

use crate::shells::Shell;
use crate::suspensions::Suspension;
use ados_assign::Assigns;
use ados_find::{ShellNames, Target};
use ados_flow::{Frame, FrameKind};
use ados_machine::{Asking, Wait};
use ados_ram::{Busy, Place};
use ados_text::{NoMemory, Text, Texts};
use std::alloc::Global;

/// What a command reads of the shells that run.
#[derive(Drop)]
pub struct Others {
    /// What is in use.
    pub busy: Busy,
    /// The name in Status of each number's shell.
    pub names: ShellNames,
    /// The resident entries, by their names, of the shells that run from one.
    pub uses: Texts,
}

/// The open outputs of the shells that run, in order of their numbers; nothing else is in use.
pub fn open_outputs(alloc: Global, shells: &[Option<Shell>; 20]) -> Result<Busy, NoMemory>
    ensures { IfOk result (λ busy. busy ≡ record { dirs = []; outputs = outputs_of (seen_shells shells.now) }) }
{
    Ok(Busy {
        dirs: Vec::new(alloc),
        outputs: outputs(alloc, shells, None)?,
    })
}

/// What is in use while a command runs whose output leads there: that output, the current directories and the open
/// outputs of the shells that run, and the directories of assigns.
pub fn in_use(
    alloc: Global,
    shells: &[Option<Shell>; 20],
    target: Option<&Target>,
    assigns: &Assigns,
) -> Result<Busy, NoMemory>
    ensures { IfOk result (λ busy. busy ≡ busy_of (current_directories (seen_shells shells.now)) (open_places (option_copied target.entry) ++ outputs_of (seen_shells shells.now)) assigns.now) }
{
    assigns.busy(directories(alloc, shells)?, outputs(alloc, shells, target)?)
}

/// The current directories of the shells that run, in order of their numbers.
fn directories(alloc: Global, shells: &[Option<Shell>; 20]) -> Result<Vec<Place>, NoMemory>
    ensures { IfOk result (λ places. places.items ≡ current_directories (seen_shells shells.now)) }
{
    let mut places = Vec::new(alloc);
    for shell in shells {
        match shell {
            None => {}
            Some(shell) => places.push(shell.directory().copy()?)?,
        }
    }
    Ok(places)
}

/// The file that a target keeps open, and after it the open outputs of the shells that run, in order of their numbers.
fn outputs(
    alloc: Global,
    shells: &[Option<Shell>; 20],
    target: Option<&Target>,
) -> Result<Vec<Place>, NoMemory>
    ensures { IfOk result (λ places. places.items ≡ open_places (option_copied target.entry) ++ outputs_of (seen_shells shells.now)) }
{
    let mut places = Vec::new(alloc);
    push_output(&mut places, target)?;
    for shell in shells {
        match shell {
            None => {}
            Some(shell) => push_open(&mut places, shell)?,
        }
    }
    Ok(places)
}

/// The open outputs of a shell, after other places.
fn push_open(places: &mut Vec<Place>, shell: &Shell) -> Result<(), NoMemory>
    ensures { OnOk result (places.new.items ≡ places.old.items ++ (seen_of shell.now).outputs) }
{
    push_outputs(places, shell.frames.as_slice())?;
    match shell.phase.as_deref() {
        Some(Suspension::Waiting(wait)) => push_held(places, wait),
        _ => Ok(()),
    }
}

/// The file that a waiting shell keeps open, after other places.
fn push_held(places: &mut Vec<Place>, wait: &Wait) -> Result<(), NoMemory>
    ensures { OnOk result (places.new.items ≡ places.old.items ++ held_while wait.now) }
{
    match wait {
        Wait::ForAnswer(Asking::Arguments { .. }) => Ok(()),
        Wait::ForAnswer(Asking::Reply(question)) => push_output(places, question.output.as_ref()),
        Wait::ForLines(gathering) => push_output(places, gathering.output.as_ref()),
        Wait::ForStart(_) => Ok(()),
        Wait::ForPiece(child) | Wait::ForEnd(child) => push_output(places, child.output.as_ref()),
    }
}

/// The open outputs of frames, of which the newest is the last, after other places.
fn push_outputs(places: &mut Vec<Place>, frames: &[Frame]) -> Result<(), NoMemory>
    ensures { OnOk result (places.new.items ≡ places.old.items ++ frame_outputs (reverse frames.now)) }
{
    let Some((frame, below)) = frames.split_last() else {
        return Ok(());
    };
    push_output(places, frame.output())?;
    push_outputs(places, below)
}

/// The file that a target keeps open, after other places.
fn push_output(places: &mut Vec<Place>, target: Option<&Target>) -> Result<(), NoMemory>
    ensures { OnOk result (places.new.items ≡ places.old.items ++ open_places (option_copied target.entry)) }
{
    match target {
        None | Some(Target::Nil) => Ok(()),
        Some(Target::At(place)) => {
            places.push(place.copy()?)?;
            Ok(())
        }
    }
}

/// The resident entries, by their names, of the shells that run from one, in order of their numbers.
pub fn uses(alloc: Global, shells: &[Option<Shell>; 20]) -> Result<Texts, NoMemory>
    ensures { IfOk result (λ uses. uses ≡ uses_of (seen_shells shells.now)) }
{
    let mut uses = Texts::new(alloc);
    for shell in shells {
        match shell {
            None => {}
            Some(shell) => push_use(&mut uses, shell)?,
        }
    }
    Ok(uses)
}

/// The resident entry from which a shell runs, if it runs from one, after others.
fn push_use(uses: &mut Texts, shell: &Shell) -> Result<(), NoMemory>
    ensures { OnOk result (uses.new ≡ uses.old ++ with_use (seen_of shell.now).entry []) }
{
    match shell.entry() {
        None => Ok(()),
        Some(entry) => uses.push(entry.copy()?),
    }
}

/// The names in Status of the shells that run, from number 1, while the shell of this number runs the command with this word,
/// which is its name then.
pub fn names_while(
    alloc: Global,
    shells: &[Option<Shell>; 20],
    number: u8,
    word: &Text,
) -> Result<ShellNames, NoMemory>
    ensures { IfOk result (λ names. names ≡ slice_set (map name_seen (seen_shells shells.now)) (number - 1) (Some word.now)) }
{
    let mut names = names(alloc, shells)?;
    if let Some(own) = names.get_mut((number as usize).saturating_sub(1)) {
        *own = Some(word.copy()?);
    }
    Ok(ShellNames::from_vec(names))
}

/// The names in Status of the shells that run, from number 1.
fn names(alloc: Global, shells: &[Option<Shell>; 20]) -> Result<Vec<Option<Text>>, NoMemory>
    ensures { IfOk result (λ names. names.items ≡ map name_seen (seen_shells shells.now)) }
{
    let mut names = Vec::with_capacity(alloc, 20)?;
    for shell in shells {
        match shell {
            None => names.push(None)?,
            Some(shell) => names.push(Some(name(alloc, shell)?))?,
        }
    }
    Ok(names)
}

/// The name of a shell in Status: the word of its command that waits, otherwise its innermost script.
fn name(alloc: Global, shell: &Shell) -> Result<Text, NoMemory>
    ensures { IfOk result (λ name. name ≡ (seen_of shell.now).name) }
{
    match shell.phase.as_deref() {
        Some(Suspension::Waiting(wait)) => word(wait).copy(),
        _ => script_name(alloc, shell.frames.as_slice()),
    }
}

/// The word of the command that waits.
fn word(wait: &Wait) -> &Text
    ensures { result.now ≡ waiting_word wait.now }
{
    match wait {
        Wait::ForAnswer(Asking::Arguments { line, .. }) => &line.command,
        Wait::ForAnswer(Asking::Reply(question)) => &question.word,
        Wait::ForLines(gathering) => &gathering.word,
        Wait::ForStart(starting) => &starting.word,
        Wait::ForPiece(child) | Wait::ForEnd(child) => &child.word,
    }
}

/// The full path of the innermost script of frames, of which the newest is the last.
fn script_name(alloc: Global, frames: &[Frame]) -> Result<Text, NoMemory>
    ensures { IfOk result (λ name. name ≡ innermost_name (reverse frames.now)) }
{
    let Some((frame, below)) = frames.split_last() else {
        return Text::from_bytes(alloc, b"No command");
    };
    match frame.kind() {
        FrameKind::Script { name, .. } => name.copy(),
        FrameKind::RunCommands | FrameKind::Tick { .. } => script_name(alloc, below),
    }
}

/// The lowest free number of a shell, from 2 to 20.
#[tactic(auto, using(crate::proofs::NumberLemmas::free_seen))]
pub fn free_number(shells: &[Option<Shell>; 20]) -> Option<u8>
    ensures shells { result ≡ free_number shells.now }
    ensures seen { result ≡ free_number (seen_shells shells.now) }
{
    free_place(shells)
}

fn free_place(shells: &[Option<Shell>]) -> Option<u8>
    requires { length shells.now ≤ 20 }
    ensures { result ≡ free_number shells.now }
{
    match shells.split_first() {
        None => None,
        Some((_, further)) => first_free_number(2, further),
    }
}

/// The first number without a shell, from a number upwards.
fn first_free_number(number: u8, shells: &[Option<Shell>]) -> Option<u8>
    requires { number + length shells.now ≤ 21 }
    ensures { result ≡ first_free_number number shells.now }
{
    match shells.split_first() {
        None => None,
        Some((None, _)) => Some(number),
        Some((Some(_), further)) => first_free_number(number + 1, further),
    }
}
