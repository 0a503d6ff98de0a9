// Giving an event to the world.
ghost use Rattle.std.specs.Prelude.{◌≡◌, ◌<◌, ◌≤◌, ◌-◌, [], true, nat_lt, if◌then◌else◌, OnOk, OnErr, Ok};
ghost use Rattle.ados_machine.specs.{Step.{event_out, is_accepted, step_of}, Runs.{IsResponse, resulting_world}};
ghost use Rattle.ados_shell.specs.Drafts.{out_of};

use ados_text::{NoMemory, Text};
use ados_world::{Draft, Event, Refusal, World};

// The shell whose start, read or wait is answered at this place.
pub fn shell_answered(place: u8) -> u8
    requires late { 21 ≤ place }
    requires place { place < 61 }
    ensures { result ≡ (if nat_lt place 41 then place - 20 else place - 40) }
{
    if place < 41 { place - 20 } else { place - 40 }
}

// Gives the world an event that it accepts, unless an allocation fails.
pub fn give(world: &mut World, event: &Event, draft: &mut Draft) -> Result<(), NoMemory>
    requires { is_accepted (step_of world.old event.now) ≡ true }
    ensures response { OnOk result (IsResponse event.now (Ok (out_of draft.new)) (step_of world.old event.now)) }
    ensures world { OnOk result (world.new ≡ resulting_world world.old (Ok (out_of draft.new)) (step_of world.old event.now)) }
    ensures err { OnErr result (world.new ≡ world.old) }
{
    match world.step_into(event, draft) {
        Ok(()) => Ok(()),
        // An event that is accepted is refused only if an allocation fails.
        Err(_) => Err(NoMemory),
    }
}

// Gives the world a line that it accepts, unless an allocation fails.
#[inline(always)]
pub fn give_line(world: &mut World, line: Text) -> Result<(), NoMemory>
    requires { is_accepted (step_of world.old (Event.Typed line)) ≡ true }
    ensures response { OnOk result (IsResponse (Event.Typed line) (Ok (event_out [] None [])) (step_of world.old (Event.Typed line))) }
    ensures world { OnOk result (world.new ≡ resulting_world world.old (Ok (event_out [] None [])) (step_of world.old (Event.Typed line))) }
    ensures err { OnErr result (world.new ≡ world.old) }
{
    match world.type_line(line) {
        Ok(()) => Ok(()),
        Err(Refusal::NoMemory) => Err(NoMemory),
        Err(_) => unreachable!(),
    }
}
