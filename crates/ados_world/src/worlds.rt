// A world, and what it shows.
ghost use Rattle.std.specs.{Prelude.{◌≡◌, ◌≤◌, Some, IfOk, IfSome, OnSome}, Option.{option_copied}};
ghost use Rattle.ados_world.specs.{Due.{first_number}, Hosts.{IsMadeUnless, hosts_fault}, Scenes.{Shows}, Shells.{IsShellNumber}};
ghost use Rattle.ados_resident.specs.declared.dialects.Dialect.TheVariants.{Core};
ghost use Rattle.ados_machine.specs.{Children.{child_in}, InUse.{has_request}, FrameEnds.{IsSane}, Starts.{use_count}, World.{fresh_world, numbered_shell, is_over, is_ready, wants_line, codes_at, left_codes, running_numbers, pending_of}};

use crate::hosts::{NewFault, hosts_fault};
use crate::shells::{any_runs, count_uses, find_shell, taken};
use crate::table::ShellTable;
use ados_assign::Assigns;
use ados_find::{Codes, Shared};
use ados_machine::{ChildState, Request};
use ados_ram::Ram;
use ados_resident::{Dialect, HostEntry, Hosts, Residents};
use ados_shell::{Commands, Scene, Shell};
use ados_text::{NoMemory, Text};
use std::alloc::Global;
use std::collections::VecDeque;
use std::marker::Model;

/// The shells that run, and what they share.
#[derive(Drop)]
pub struct World {
    pub(crate) alloc: Global,
    pub(crate) commands: Commands,
    pub(crate) shells: ShellTable,
    pub(crate) ended: [Codes; 20],
    pub(crate) queue: VecDeque<Text>,
    pub(crate) input_ended: bool,
    pub(crate) shared: Shared,
}

impl Model for World {
    ghost use Rattle.ados_machine.specs.{World.{WorldState}, FrameEnds.{IsSane}};
    ghost use Rattle.std.specs.Coded.{codes};
    ghost use Rattle.ados_ram.specs.Files.{coded_files};
    ghost use Rattle.ados_assign.specs.Assigns.{coded_assigns};

    ghost Value = { WorldState };

    ghost coded = { Prim.hlevel (codes, coded_files, coded_assigns) };

    ghost view = { λ w. record { shells = w.shells; ended = w.ended; queue = w.queue.items; input_ended = w.input_ended; shared = w.shared } };

    // A frame whose last command reached the limit has ended, each background shell runs a frame, and each shell has the
    // number of its place.
    ghost invariant = { λ w. IsSane (record { shells = w.shells; ended = w.ended; queue = w.queue.items; input_ended = w.input_ended; shared = w.shared }) };
}

impl World {
    /// As [`with_dialect`](World::with_dialect), in Core.
    pub fn new(alloc: Global, hosts: &[HostEntry]) -> Result<World, NewFault>
        ensures world { IfOk result (λ world. world ≡ fresh_world Core hosts.now) }
        ensures fault { IsMadeUnless result (hosts_fault Core hosts.now) }
    {
        World::with_dialect(alloc, hosts, Dialect::Core)
    }

    /// A world of a dialect with shell 1 alone, in which nothing was typed, with these commands that are programs of the host,
    /// and the initial files.
    ///
    /// `TooMany` for more than 64 commands; otherwise, for the first of them that is refused, `BadName` if its name is not one,
    /// and `Double` if a command has it, or an earlier one of these; `NoMemory`, if nothing is refused and an allocation
    /// fails.
    #[inline(always)]
    pub fn with_dialect(
        alloc: Global,
        hosts: &[HostEntry],
        dialect: Dialect,
    ) -> Result<World, NewFault>
        ensures world { IfOk result (λ world. world ≡ fresh_world dialect hosts.now) }
        ensures fault { IsMadeUnless result (hosts_fault dialect hosts.now) }
    {
        if let Some(fault) = hosts_fault(dialect, hosts) {
            return Err(fault);
        }
        match World::fresh(alloc, hosts, dialect) {
            Ok(world) => Ok(world),
            Err(NoMemory) => Err(NewFault::NoMemory),
        }
    }

    // A world that begins.
    #[inline(always)]
    fn fresh(alloc: Global, hosts: &[HostEntry], dialect: Dialect) -> Result<World, NoMemory>
        ensures { IfOk result (λ world. world ≡ fresh_world dialect hosts.now) }
    {
        let commands = Commands::new(alloc, dialect)?;
        let shared = Shared::first(alloc, dialect, Hosts::of(alloc, hosts)?)?;
        let first = Shell::new(alloc, 1)?;
        Ok(World {
            alloc,
            commands,
            shells: ShellTable::of_first(first),
            ended: [Codes::NONE; 20],
            queue: VecDeque::new(alloc),
            input_ended: false,
            shared,
        })
    }

    /// Its dialect, which never changes.
    pub fn dialect(&self) -> Dialect
        ensures { result ≡ self.now.shared.dialect }
    {
        self.shared.dialect
    }

    /// The shell of this number, whose methods show each part of it. `None` if none runs: of one that has ended only its
    /// last [`codes`](World::codes) are left.
    pub fn shell(&self, number: u8) -> Option<&Shell>
        ensures shell { option_copied result ≡ numbered_shell self.now number }
        ensures number { OnSome result (IsShellNumber number) }
    {
        find_shell(self.shells.places(), number)
    }

    /// Which numbers from 1 to 20 have a shell.
    pub fn shells(&self) -> [bool; 20]
        ensures { result ≡ running_numbers self.now }
    {
        taken(self.shells.places())
    }

    /// The last codes of a number: an ended shell's are kept until its number is given again; 0 and 0
    /// for a number that was never given.
    pub fn codes(&self, number: u8) -> Codes
        ensures { result ≡ codes_at self.now number }
    {
        match self.shell(number) {
            Some(shell) => shell.codes(),
            None => self.ended_codes(number),
        }
    }

    /// Whether the shell of this number can take a turn: it waits for nothing and runs a frame; or a command substitution of its
    /// line has ended; or it reads its input, and a line waits there or the input has ended. A shell reads its input if it waits
    /// for nothing and runs no frame, if it waits for the answer to a prompt, or if its Run reads further lines, since its last
    /// one ends in `+`. A shell that waits for a launcher can take none. The input of a background shell is at its end.
    pub fn ready(&self, number: u8) -> bool
        ensures { result ≡ is_ready self.now number }
    {
        match self.shell(number) {
            None => false,
            Some(shell) => shell.can_take(self.has_input(number)),
        }
    }

    /// The first number from this one on, up to 20, whose shell can take a turn, as [`ready`](World::ready) says.
    #[inline(always)]
    pub fn first_ready(&self, from: u8) -> Option<u8>
        requires { from ≤ 21 }
        ensures number { result ≡ first_number from (is_ready self.now) }
        ensures low { IfSome result (λ number. from ≤ number) }
        ensures high { IfSome result (λ number. number ≤ 20) }
    {
        let number = self.shells.first_turning(from)?;
        if self.ready(number) {
            Some(number)
        } else {
            self.first_ready(number + 1)
        }
    }

    /// The first number from this one on, up to 20, whose shell asked a launcher for something and waits for it, as
    /// [`pending`](World::pending) says.
    pub fn first_pending(&self, from: u8) -> Option<u8>
        requires { from ≤ 21 }
        ensures number { result ≡ first_number from (has_request self.now) }
        ensures low { IfSome result (λ number. from ≤ number) }
        ensures high { IfSome result (λ number. number ≤ 20) }
    {
        self.shells.first_pending(from)
    }

    /// What the shell of this number asked a launcher for, and waits for. By the invariant of a world a request names its
    /// shell.
    pub fn pending(&self, number: u8) -> Option<&Request>
        ensures request { option_copied result ≡ pending_of self.now number }
        ensures sane { IsSane self.now }
    {
        // This makes use of the invariant of a world.
        let _ = &self.alloc;
        match self.shell(number) {
            None => None,
            Some(shell) => shell.request(),
        }
    }

    /// The state of the program of the host that the shell of this number started.
    pub fn child(&self, number: u8) -> ChildState
        ensures { result ≡ child_in self.now number }
    {
        match self.shell(number) {
            None => ChildState::Closed,
            Some(shell) => shell.child(),
        }
    }

    /// Shell 1 reads its input next, and nothing is there, and a line can still be typed.
    pub fn wants_line(&self) -> bool
        ensures { result ≡ wants_line self.now }
    {
        match self.shell(1) {
            None => false,
            Some(shell) => shell.takes_input() && !self.has_input(1),
        }
    }

    /// The files as they are now.
    pub fn files(&self) -> &Ram
        ensures { result.now ≡ self.now.shared.files }
    {
        &self.shared.ram
    }

    /// The assigns as they are now.
    pub fn assigns(&self) -> &Assigns
        ensures { result.now ≡ self.now.shared.assigns }
    {
        &self.shared.assigns
    }

    /// The resident list as it is now.
    pub fn residents(&self) -> &Residents
        ensures { result.now ≡ self.now.shared.residents }
    {
        &self.shared.residents
    }

    /// How many shells run from the resident entry of this name, upper and lower case alike: its use count.
    pub fn uses(&self, name: &Text) -> usize
        ensures { result ≡ use_count self.now name.now }
    {
        count_uses(self.shells.places(), name)
    }

    /// What a turn of the shell of a number sees.
    pub(crate) fn scene<'a>(&'a self, number: u8, shell: &'a Shell) -> Scene<'a>
        requires { numbered_shell self.now number ≡ Some shell.now }
        ensures { Shows self.now number shell.now result }
    {
        Scene {
            alloc: self.alloc,
            commands: &self.commands,
            number,
            shell,
            shells: self.shells.places(),
            shared: &self.shared,
        }
    }

    pub(crate) fn is_over(&self) -> bool
        ensures { result ≡ is_over self.now }
    {
        !any_runs(self.shells.places())
    }

    fn ended_codes(&self, number: u8) -> Codes
        ensures { result ≡ left_codes self.now number }
    {
        match number {
            0 => Codes::NONE,
            _ => match self.ended.get(number as usize - 1) {
                Some(codes) => *codes,
                None => Codes::NONE,
            },
        }
    }
}
