// The table of the shells, and the machine words that say which of them are due.
ghost use Rattle.std.specs.{Prelude.{◌≡◌, ◌∷◌, ◌-◌, ◌≤◌, None, Some, replicate, IfSome, OnErr, OnOk}, List.{slice_set}};
ghost use Rattle.ados_machine.specs.{Breaks.{broken_number}, World.{at_number, option_flatten}};
ghost use Rattle.ados_world.specs.{Due.{asks_now, first_number, takes_turns}, Shells.{IsShellNumber, placed_shells, updated_shells}};

use crate::breaks::break_number;
use crate::carrying::place_all;
use crate::due::{DueShells, first_set};
use crate::shells::no_shells;
use ados_find::Breaks;
use ados_ram::Place;
use ados_shell::{Shell, ShellDraft};
use ados_text::NoMemory;
use std::marker::Model;

/// The shells that run, by their numbers, and which of them are due.
#[derive(Drop)]
pub struct ShellTable {
    places: [Option<Shell>; 20],
    due: DueShells,
}

impl Model for ShellTable {
    ghost use Rattle.std.specs.Prelude.{List, Option};
    ghost use Rattle.ados_machine.specs.Shells.{ShellState};

    ghost Value = { List (Option ShellState) };

    ghost use Rattle.ados_world.specs.Due.{Tells};

    ghost view = { λ t. t.places };

    // The words say what the shells say.
    ghost invariant = { λ t. Tells t.due t.places };
}

impl ShellTable {
    /// Shell 1 alone.
    #[inline(always)]
    pub fn of_first(shell: Shell) -> ShellTable
        ensures { result ≡ Some shell ∷ replicate 19 None }
    {
        let mut table = ShellTable {
            places: no_shells(),
            due: DueShells::none(),
        };
        table.put(1, Some(shell));
        table
    }

    /// A place for each number, with its shell if one runs.
    pub fn places(&self) -> &[Option<Shell>; 20]
        ensures { result.now ≡ self.now }
    {
        &self.places
    }

    /// The first shell from a number on that takes a turn once it has input.
    pub fn first_turning(&self, from: u8) -> Option<u8>
        requires { from ≤ 21 }
        ensures number { result ≡ first_number from (λ k. takes_turns (option_flatten (at_number self.now k))) }
        ensures low { IfSome result (λ number. from ≤ number) }
        ensures high { IfSome result (λ number. number ≤ 20) }
    {
        first_set(self.due.turning, from)
    }

    /// The first shell from a number on that asked a launcher for something, and waits for it.
    pub fn first_pending(&self, from: u8) -> Option<u8>
        requires { from ≤ 21 }
        ensures number { result ≡ first_number from (λ k. asks_now (option_flatten (at_number self.now k))) }
        ensures low { IfSome result (λ number. from ≤ number) }
        ensures high { IfSome result (λ number. number ≤ 20) }
    {
        first_set(self.due.pending, from)
    }

    /// From now on this shell has the number, or none has.
    pub fn put(&mut self, number: u8, shell: Option<Shell>)
        requires { IsShellNumber number }
        ensures { self.new ≡ slice_set self.old (number - 1) shell }
    {
        self.places[number as usize - 1] = shell;
        self.due.renew(number, &self.places);
    }

    /// Commits what a turn makes of the shell with this number; if there is no such shell, nothing is done.
    ///
    /// `NoMemory` if there is no room for its frames; the shells are then as they were.
    pub fn commit(&mut self, number: u8, draft: &mut ShellDraft) -> Result<(), NoMemory>
        requires { IsShellNumber number }
        ensures ok { OnOk result (self.new ≡ updated_shells number draft.old self.old) }
        ensures err { OnErr result (self.new ≡ self.old) }
    {
        commit(&mut self.places, number, draft)?;
        self.due.renew(number, &self.places);
        Ok(())
    }

    /// The shell with this number is broken, if one runs.
    pub fn break_shell(&mut self, number: usize, breaks: Breaks)
        ensures { self.new ≡ broken_number breaks number self.old }
    {
        break_number(&mut self.places, number, breaks);
        if let 1..=20 = number {
            self.due.renew(number as u8, &self.places);
        }
    }

    /// From now on these are the current directories of the shells.
    pub fn carry(&mut self, directories: [Option<Place>; 20])
        ensures { self.new ≡ placed_shells directories self.old }
    {
        place_all(&mut self.places, directories);
    }
}

// Commits what a turn makes of the shell with this number, if there is one.
fn commit(
    shells: &mut [Option<Shell>; 20],
    number: u8,
    draft: &mut ShellDraft,
) -> Result<(), NoMemory>
    requires { IsShellNumber number }
    ensures ok { OnOk result (shells.new ≡ updated_shells number draft.old shells.old) }
    ensures err { OnErr result (shells.new ≡ shells.old) }
{
    match &mut shells[number as usize - 1] {
        None => Ok(()),
        Some(shell) => draft.commit(shell),
    }
}
