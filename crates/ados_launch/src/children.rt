// The open children of a launcher.
ghost use Rattle.std.specs.Prelude.{◌≡◌, ◌≢◌, ◌<◌, ℕ, List, true, false, get_or, MatchBool};
ghost use Rattle.ados_machine.specs.{FrameEnds.{IsSane}, World.{pending_of}, declared.children.ChildState.TheVariants.{Closed}};
ghost use Rattle.ados_launcher.specs.{declared.calls.Call.{Call}, Lifecycles.{state_of}};
ghost use Rattle.ados_launch.specs.{Agreement.{AddsWait, AreOver, IsOpenTable, WaitsForOpen}, Alone.{AgreesAfterLine, is_open_after_line, keeps_open}, Rounds.{asks_read_or_wait}};

use crate::alone::{SystemEnd, SystemFault};
use crate::rounds::asks_further;
use ados_launcher::Launcher;
use ados_world::{Answer, World};

// Which children are open, according to what the shells of a world ask for.
pub fn open_children(world: &World) -> [bool; 21]
    ensures asked { (k : ℕ) → get_or result k false ≡ asks_read_or_wait (pending_of world.now k) }
    ensures sane { IsSane world.now }
{
    let mut children = [false; 21];
    // This shows that no shell has a number above 20, and that the world is sane.
    let _running = world.shells();
    let _asked = world.pending(1);
    for number in 0..21u8 {
        children[usize::from(number)] = asks_further(world, number);
    }
    children
}

// Which children are open after a line ran alone in a world, however that ended.
pub fn children_after_line(world: &World, ran: &Result<SystemEnd, SystemFault>) -> [bool; 21]
    ensures { (calls : List Call) → AgreesAfterLine world.now ran.now calls → IsOpenTable result calls }
{
    let mut children = [false; 21];
    // This shows that no shell has a number above 20, and that the world is sane.
    let _running = world.shells();
    let _asked = world.pending(1);
    for number in 0..21u8 {
        children[usize::from(number)] = is_open_after_line(world, ran, number);
    }
    children
}

// The child of this number is open after a line ran alone: an answer that was not taken tells it of the line's own.
fn is_open_after_line(world: &World, ran: &Result<SystemEnd, SystemFault>, number: u8) -> bool
    ensures { result ≡ is_open_after_line world.now ran.now number }
{
    match ran {
        Err(
            SystemFault {
                shell: Some(shell),
                answer: Some(answer),
                ..
            },
        ) if *shell == number => keeps_open(answer),
        _ => asks_further(world, number),
    }
}

// After this answer its child is open.
fn keeps_open(answer: &Answer) -> bool
    ensures { result ≡ keeps_open answer.now }
{
    matches!(
        answer,
        Answer::Started | Answer::Bytes(_) | Answer::End | Answer::PipeFault
    )
}

// Waits once for each open child, in ascending order of number.
pub fn wait_for_open<L: Launcher>(launcher: &mut L, children: &[bool; 21])
    requires children { IsOpenTable children.now (L.calls launcher.old) }
    ensures over { AreOver (L.calls launcher.new) }
    ensures waits { WaitsForOpen (L.calls launcher.old) (L.calls launcher.new) }
    ensures room { L.is_full launcher.new ≡ L.is_full launcher.old }
{
    for number in 0..21u8 {
        wait_if(launcher, children[usize::from(number)], number);
    }
}

// Waits for a child, if it is open.
fn wait_if<L: Launcher>(launcher: &mut L, is_open: bool, number: u8)
    requires number { number < 21 }
    requires children { is_open ≡ true → state_of number (L.calls launcher.old) ≢ Closed }
    ensures asked { MatchBool is_open (AddsWait number (L.calls launcher.old) (L.calls launcher.new)) (L.calls launcher.new ≡ L.calls launcher.old) }
    ensures room { L.is_full launcher.new ≡ L.is_full launcher.old }
{
    if is_open {
        launcher.wait(number);
    }
}
