// The rounds in which events come.
ghost use Rattle.std.specs.Prelude.{◌≡◌, ◌<◌, ◌≤◌, ◌&&◌, get_or, false, true, nat_lt, option_map, IfSome, if◌then◌else◌};
ghost use Rattle.ados_machine.specs.World.{pending_of, wants_line};
ghost use Rattle.ados_world.specs.Due.{first_number};
ghost use Rattle.ados_launch.specs.Rounds.{asks_start, asks_read_or_wait, is_further_due, due_place, in_next_round, in_this_round, answered_shells, first_round, marked_answers, no_answers, passed_round, following_place};

use ados_machine::Request;
use ados_world::World;

/// The state of a round.
#[derive(Clone, Copy)]
pub struct Round {
    /// The place from which it goes on.
    pub place: u8,
    /// Which shells had an answer in it, by their numbers.
    pub answered: [bool; 21],
}

/// What is due in the rounds.
#[derive(Clone, Copy)]
pub struct Due {
    /// Its place.
    pub place: u8,
    /// A round begins with it.
    pub begins: bool,
}

impl Round {
    // A round begins.
    pub fn first() -> Round
        ensures { result ≡ first_round }
    {
        Round {
            place: 0,
            answered: [false; 21],
        }
    }

    // What is due next: at the first place of this round at which something may come, otherwise of the next round, in which no
    // shell had an answer yet. To ask for it changes nothing.
    pub fn next(&self, world: &World) -> Option<Due>
        requires { self.now.place ≤ 61 }
        ensures place { option_map (λ found. found.place) result ≡ due_place self.now world.now }
        ensures answered { IfSome result (λ found. (if found.begins then no_answers else self.now.answered) ≡ answered_shells self.now world.now) }
    {
        match self.next_here(world) {
            Some(place) => Some(Due {
                place,
                begins: false,
            }),
            None => first_due(world),
        }
    }

    // The round goes on after what was due.
    pub fn pass(&mut self, found: Due)
        requires { found.place < 61 }
        ensures { self.new ≡ passed_round self.old found }
    {
        if found.begins {
            self.answered = [false; 21];
        }
        self.place = following_place(found.place);
        self.mark(found.place);
    }

    // The first place of this round at which an event is due.
    #[inline(always)]
    fn next_here(&self, world: &World) -> Option<u8>
        requires { self.now.place ≤ 61 }
        ensures { result ≡ in_this_round self.now world.now }
    {
        if self.is_line_due(world) {
            return Some(0);
        }
        if let Some(number) = world.first_ready(self.place.clamp(1, 21)) {
            return Some(number);
        }
        if let Some(number) = first_start(world, self.place.clamp(21, 41) - 20) {
            return Some(number + 20);
        }
        let number = self.first_further(world, self.place.clamp(41, 61) - 40)?;
        Some(number + 40)
    }

    // Lines are still read in this round, and one is wanted.
    fn is_line_due(&self, world: &World) -> bool
        ensures { result ≡ (nat_lt self.now.place 1 && wants_line world.now) }
    {
        self.place < 1 && world.wants_line()
    }

    // The first shell from a number on that asks for a piece of its program's output, or for its end, and had no answer in this
    // round.
    #[inline(always)]
    fn first_further(&self, world: &World, from: u8) -> Option<u8>
        requires { from ≤ 21 }
        ensures number { result ≡ first_number from (is_further_due world.now self.now.answered) }
        ensures high { IfSome result (λ number. number ≤ 20) }
    {
        let number = world.first_pending(from)?;
        if self.is_further_due(world, number) {
            Some(number)
        } else {
            self.first_further(world, number + 1)
        }
    }

    // The shell of this number asks for one of these, and had no answer in this round.
    fn is_further_due(&self, world: &World, number: u8) -> bool
        ensures { result ≡ is_further_due world.now self.now.answered number }
    {
        asks_further(world, number) && !self.had_answer(number)
    }

    fn had_answer(&self, number: u8) -> bool
        ensures { result ≡ get_or self.now.answered number false }
    {
        self.answered
            .get(usize::from(number))
            .copied()
            .unwrap_or(false)
    }

    // The shell whose start, read or wait is at this place had an answer in this round.
    fn mark(&mut self, place: u8)
        requires { place < 61 }
        ensures { self.new ≡ record self.old { answered = marked_answers place self.old.answered } }
    {
        if place < 21 {
            return;
        }
        if place < 41 {
            self.answered[usize::from(place - 20)] = true;
        } else {
            self.answered[usize::from(place - 40)] = true;
        }
    }
}

// What is due first in a round that begins.
fn first_due(world: &World) -> Option<Due>
    ensures place { option_map (λ found. found.place) result ≡ in_next_round world.now }
    ensures begins { IfSome result (λ found. found.begins ≡ true) }
{
    match Round::first().next_here(world) {
        Some(place) => Some(Due {
            place,
            begins: true,
        }),
        None => None,
    }
}

// The first shell from a number on that asks for a program's start.
#[inline(always)]
fn first_start(world: &World, from: u8) -> Option<u8>
    requires { from ≤ 21 }
    ensures number { result ≡ first_number from (λ k. asks_start (pending_of world.now k)) }
    ensures high { IfSome result (λ number. number ≤ 20) }
{
    let number = world.first_pending(from)?;
    if asks_start(world, number) {
        Some(number)
    } else {
        first_start(world, number + 1)
    }
}

// The shell of this number asks for a program's start.
fn asks_start(world: &World, number: u8) -> bool
    ensures { result ≡ asks_start (pending_of world.now number) }
{
    matches!(world.pending(number), Some(Request::Start(_)))
}

// The shell of this number asks for a piece of its program's output, or for its end.
pub fn asks_further(world: &World, number: u8) -> bool
    ensures { result ≡ asks_read_or_wait (pending_of world.now number) }
{
    matches!(
        world.pending(number),
        Some(Request::Read(_) | Request::Wait(_))
    )
}

// The place after an event: lines are read for as long as they are wanted.
fn following_place(place: u8) -> u8
    requires { place < 61 }
    ensures { result ≡ following_place place }
{
    if place == 0 { 0 } else { place + 1 }
}
