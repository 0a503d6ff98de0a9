// A launcher for a world in which children may be open.
ghost use Rattle.std.specs.Prelude.{◌≡◌, ◌≢◌, ◌<◌, ℕ, IfOk, OnOk};
ghost use Rattle.ados_launcher.specs.Lifecycles.{Between, InReads, AfterReads, lifecycle_for_state, lifecycle_of};
ghost use Rattle.ados_launch.specs.Agreement.{Agrees};

use crate::lines::answer_of;
use ados_launcher::{Launcher, Listed};
use ados_text::{NoMemory, Text, Texts};
use ados_world::{Answer, ChildState, Job, World};
use std::alloc::Global;

/// A launcher that has its answers from these texts, and whose open children are those that the world reads or waits for.
///
/// Each such child has a start in the list of calls, and the end of its reads if the world waits for it, unless a break
/// came before that end.
pub fn launcher_of(alloc: Global, world: &World, texts: &[&str]) -> Result<Listed, NoMemory>
    ensures { IfOk result (λ launcher. Agrees world.now launcher.calls) }
{
    let mut launcher = Listed::new(answers(alloc, world, texts)?);
    for number in 0..21u8 {
        reopen(alloc, &mut launcher, world.child(number), number)?;
    }
    // This shows that no shell has a number above 20.
    let _running = world.shells();
    Ok(launcher)
}

// The answers by which the children are opened, and after them those of the texts.
fn answers(alloc: Global, world: &World, texts: &[&str]) -> Result<Vec<Answer>, NoMemory> {
    let mut answers = Vec::new(alloc);
    for number in 0..21u8 {
        match world.child(number) {
            ChildState::Closed => {}
            ChildState::Reading | ChildState::Cut => answers.push(Answer::Started)?,
            ChildState::Waiting => {
                answers.push(Answer::Started)?;
                answers.push(Answer::End)?;
            }
        }
    }
    for text in texts {
        if let Some(answer) = answer_of(alloc, text)? {
            answers.push(answer)?;
        }
    }
    Ok(answers)
}

// Opens the child with this number, and brings it into its state.
fn reopen(
    alloc: Global,
    launcher: &mut Listed,
    child: ChildState,
    number: u8,
) -> Result<(), NoMemory>
    requires number { number < 21 }
    requires none { lifecycle_of number launcher.old.calls ≡ Between }
    ensures own { OnOk result (lifecycle_of number launcher.new.calls ≡ lifecycle_for_state child) }
    ensures others { OnOk result ((k : ℕ) → k ≢ number → lifecycle_of k launcher.new.calls ≡ lifecycle_of k launcher.old.calls) }
{
    match child {
        ChildState::Closed => Ok(()),
        ChildState::Reading | ChildState::Cut => start(alloc, launcher, number),
        ChildState::Waiting => {
            start(alloc, launcher, number)?;
            end_reads(launcher, number)
        }
    }
}

// Starts the child with this number.
fn start(alloc: Global, launcher: &mut Listed, number: u8) -> Result<(), NoMemory>
    requires number { number < 21 }
    requires none { lifecycle_of number launcher.old.calls ≡ Between }
    ensures own { OnOk result (lifecycle_of number launcher.new.calls ≡ InReads) }
    ensures others { OnOk result ((k : ℕ) → k ≢ number → lifecycle_of k launcher.new.calls ≡ lifecycle_of k launcher.old.calls) }
{
    let job = Job {
        shell: number,
        program: Text::new(alloc),
        args: Texts::new(alloc),
    };
    match launcher.start(&job) {
        Answer::Started => Ok(()),
        _ => Err(NoMemory),
    }
}

// Ends the reads of the child with this number.
fn end_reads(launcher: &mut Listed, number: u8) -> Result<(), NoMemory>
    requires number { number < 21 }
    requires reading { lifecycle_of number launcher.old.calls ≡ InReads }
    ensures own { OnOk result (lifecycle_of number launcher.new.calls ≡ AfterReads) }
    ensures others { OnOk result ((k : ℕ) → k ≢ number → lifecycle_of k launcher.new.calls ≡ lifecycle_of k launcher.old.calls) }
{
    match launcher.read(number) {
        Answer::End | Answer::PipeFault => Ok(()),
        _ => Err(NoMemory),
    }
}
