// Asks a launcher for what a shell waits for, and gives the world its answer.
ghost use Rattle.std.specs.Prelude.{◌≡◌, ◌≢◌, ◌<◌, false, None};
ghost use Rattle.ados_machine.specs.{FrameEnds.{IsSane}, World.{pending_of}, Children.{child_after_answer, shell_named}};
ghost use Rattle.ados_shell.specs.Drafts.{out_of};
ghost use Rattle.ados_launcher.specs.Lifecycles.{is_open, lifecycle_for_state, state_of};
ghost use Rattle.ados_launch.specs.{Agreement.{Agrees, IsOpenTable}, Asked.{LauncherAnswers, Asks, MayAsk, TakesAnswer}};

use crate::events::give;
use ados_launcher::Launcher;
use ados_machine::{Answer, Request};
use ados_text::NoMemory;
use ados_world::{Draft, Event, World};

// Lets a launcher answer what the shell with this number asks for, and updates the table of open children.
pub fn answer<L: Launcher>(
    world: &mut World,
    launcher: &mut L,
    children: &mut [bool; 21],
    number: u8,
    draft: &mut Draft,
) -> Result<(), NoMemory>
    requires number { number < 21 }
    requires asked { pending_of world.old number ≢ None }
    requires agrees { Agrees world.old (L.calls launcher.old) }
    requires children { IsOpenTable children.old (L.calls launcher.old) }
    ensures answers { LauncherAnswers world.old number (L.is_full launcher.old) (L.is_full launcher.new) (L.calls launcher.old) (L.calls launcher.new)
        (TakesAnswer world.old number result world.new (out_of draft.new)) }
    ensures children { IsOpenTable children.new (L.calls launcher.new) }
    ensures sane { IsSane world.old }
{
    let Some(request) = world.pending(number) else {
        unreachable!();
    };
    let answer = ask(launcher, request);
    children[usize::from(number)] = runs_after(request, &answer);
    give(world, &Event::Answer(number, answer), draft)
}

// The launcher's answer to a request.
pub fn ask<L: Launcher>(launcher: &mut L, request: &Request) -> Answer
    requires number { shell_named request.now < 21 }
    requires state { MayAsk request.now (state_of (shell_named request.now) (L.calls launcher.old)) }
    ensures { Asks request.now result (L.is_full launcher.old) (L.is_full launcher.new) (L.calls launcher.old) (L.calls launcher.new) }
{
    match request {
        Request::Start(job) => launcher.start(job),
        Request::Read(child) => launcher.read(*child),
        Request::Wait(child) => launcher.wait(*child),
    }
}

// The child is open after this answer to the request.
fn runs_after(request: &Request, answer: &Answer) -> bool
    ensures { result ≡ is_open (lifecycle_for_state (child_after_answer false request.now answer.now)) }
{
    match request {
        Request::Start(_) => matches!(answer, Answer::Started),
        Request::Read(_) => true,
        Request::Wait(_) => false,
    }
}
