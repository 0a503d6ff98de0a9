// Carrying: a shell's current directory moves with the objects that were moved.
ghost use Rattle.std.specs.Prelude.{◌≡◌, IfOk};
ghost use Rattle.ados_machine.specs.Carrying.{carried_directory, in_directory, place_after_moves};

use crate::drafts::ShellDraft;
use crate::shells::Shell;
use ados_find::Renamed;
use ados_ram::Place;
use ados_text::NoMemory;

impl Shell {
    /// Its current directory, moved along with what was moved.
    pub fn carried_directory(&self, moved: &[Renamed]) -> Result<Place, NoMemory>
        ensures { IfOk result (λ place. place ≡ carried_directory moved.now self.now) }
    {
        carried_by_all(&self.directory, moved)
    }

    /// From now on this is its current directory.
    pub fn move_to(&mut self, directory: Place)
        ensures { self.new ≡ in_directory directory self.old }
    {
        self.directory = directory;
    }
}

impl ShellDraft {
    ghost use Rattle.ados_shell.specs.Drafts.{drafted_shell};

    /// The current directory of the shell after its turn, moved along with what was moved.
    pub fn carried_directory(&self, shell: &Shell, moved: &[Renamed]) -> Result<Place, NoMemory>
        ensures { IfOk result (λ place. place ≡ carried_directory moved.now (drafted_shell self.now shell.now)) }
    {
        carried_by_all(self.directory(shell), moved)
    }
}

// A place, moved along with one object after the other.
fn carried_by_all(place: &Place, moved: &[Renamed]) -> Result<Place, NoMemory>
    ensures { IfOk result (λ carried. carried ≡ place_after_moves moved.now place.now) }
{
    let mut carried = place.copy()?;
    for renamed in moved {
        carried = carried.carried(&renamed.from, &renamed.to)?;
    }
    Ok(carried)
}
