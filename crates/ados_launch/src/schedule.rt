// The order in which events come.
ghost use Rattle.std.specs.{Prelude.{◌≡◌, ◌<◌, ◌≤◌, ◌+◌, ◌-◌, ◌^◌, drop, length, option_map, IfSome, is_none}, List.{prefix_len}};
ghost use Rattle.ados_launch.specs.{Rounds.{due_place}, Schedule.{breaks_left, first_due_break, first_schedule_state, is_passed, found_next, scheduled_next, passed_schedule_state, place_due, following_schedule_state, IsInRound, MayCome}};

use crate::rounds::{Due, Round};
use ados_machine::BreakAt;
use ados_world::World;
use std::marker::Model;

/// What comes next.
#[derive(Clone, Copy)]
pub enum Next {
    /// A break.
    Break(BreakAt),
    /// What is due in the rounds.
    Due(Due),
}

/// The state of a schedule.
#[derive(Drop)]
pub struct Schedule<'a> {
    round: Round,
    // Those that were neither given nor passed over.
    breaks: &'a [BreakAt],
    // How many events and long lines were taken.
    taken: u64,
}

impl<'a> Model for Schedule<'a> {
    ghost use Rattle.ados_launch.specs.Schedule.{ScheduleState};

    ghost Value = { ScheduleState };

    ghost view = { λ s. record { round = s.round; breaks = s.breaks.now; taken = s.taken } };
}

impl<'a> Schedule<'a> {
    // A schedule begins, with these breaks.
    pub fn new(breaks: &'a [BreakAt]) -> Schedule<'a>
        ensures { result ≡ first_schedule_state breaks.now }
    {
        Schedule {
            round: Round::first(),
            breaks,
            taken: 0,
        }
    }

    // What comes next, if anything does: a break that comes before what is due, or what is due. Breaks before it whose shells do
    // not run are passed over.
    pub fn next(&mut self, world: &World) -> Option<Next>
        requires round { self.old.round.place ≤ 61 }
        requires count { self.old.taken < 2 ^ 64 - 1 }
        ensures next { option_map found_next result ≡ scheduled_next self.old world.now }
        ensures round { self.new.round ≡ self.old.round }
        ensures taken { self.new.taken ≡ self.old.taken }
        ensures may_come { IfSome result (λ next. MayCome world.now next) }
        ensures passed { IfSome result (λ next. passed_schedule_state self.new next ≡ following_schedule_state self.old world.now (found_next next)) }
    {
        let found = self.round.next(world)?;
        self.pass_over(world);
        match self.first_before() {
            Some(at) => Some(Next::Break(at)),
            None => Some(Next::Due(found)),
        }
    }

    // The schedule goes on after what came.
    pub fn pass(&mut self, next: Next)
        requires place { IsInRound next }
        requires count { self.old.taken < 2 ^ 64 - 1 }
        ensures { self.new ≡ passed_schedule_state self.old next }
    {
        match next {
            Next::Break(_) => self.drop_break(),
            Next::Due(found) => self.round.pass(found),
        }
        self.taken += 1;
    }

    // The place that is due, if no break comes before it.
    pub fn place(&self, world: &World) -> Option<u8>
        requires round { self.now.round.place ≤ 61 }
        requires count { self.now.taken < 2 ^ 64 - 1 }
        ensures place { result ≡ place_due self.now world.now }
        ensures below { IfSome result (λ place. place < 61) }
    {
        let found = self.round.next(world)?;
        let number = self.taken + 1;
        let passed = count_passed(self.breaks, number, world);
        match &self.breaks[passed..] {
            [at, ..] if at.event <= number => None,
            _ => Some(found.place),
        }
    }

    // How many events and long lines were taken.
    pub fn taken(&self) -> u64
        ensures { result ≡ self.now.taken }
    {
        self.taken
    }

    // Nothing is due.
    pub fn is_over(&self, world: &World) -> bool
        requires { self.now.round.place ≤ 61 }
        ensures { result ≡ is_none (due_place self.now.round world.now) }
    {
        self.round.next(world).is_none()
    }

    // Passes over the breaks that come before the next event and whose shells do not run.
    fn pass_over(&mut self, world: &World)
        requires { self.old.taken < 2 ^ 64 - 1 }
        ensures { self.new ≡ record self.old { breaks = breaks_left self.old world.now } }
    {
        let count = count_passed(self.breaks, self.taken + 1, world);
        self.breaks = &self.breaks[count..];
    }

    // The first of the breaks, if it comes before the next event.
    fn first_before(&self) -> Option<BreakAt>
        requires { self.now.taken < 2 ^ 64 - 1 }
        ensures { result ≡ first_due_break (self.now.taken + 1) self.now.breaks }
    {
        match self.breaks {
            [at, ..] if at.event <= self.taken + 1 => Some(*at),
            _ => None,
        }
    }

    // The first of the breaks was given.
    fn drop_break(&mut self)
        ensures { self.new ≡ record self.old { breaks = drop 1 self.old.breaks } }
    {
        if let [_, later @ ..] = self.breaks {
            self.breaks = later;
        }
    }
}

// How many breaks are passed over before the event of this number.
fn count_passed(breaks: &[BreakAt], number: u64, world: &World) -> usize
    ensures value { result ≡ prefix_len (is_passed number world.now) breaks.now }
    ensures within { result ≤ length breaks.now }
{
    breaks
        .iter()
        .take_while(|at| is_passed(at, number, world))
        .count()
}

// A break that comes before the event of this number is passed over.
fn is_passed(at: &BreakAt, number: u64, world: &World) -> bool
    ensures { result ≡ is_passed number world.now at.now }
{
    at.event <= number && world.shell(at.shell).is_none()
}
