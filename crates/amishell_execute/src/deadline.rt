//! `--seconds`: after them no further event is taken.
ghost use Rattle.std.specs.Prelude.{◌≡◌, IfErr, IfSome, None, Some, nat_le};
ghost use Rattle.amishell_execute.specs.{Deadline.{seconds_between, seconds_of}, Playing.{drive_fault_of}, declared.faults.Fault.TheVariants.{Seconds}};

use crate::faults::Fault;
use std::time::{Clock, Instant};

/// The time that a run may take.
#[derive(Clone, Copy)]
pub struct Deadline {
    begun: Instant,
    seconds: u64,
}

impl Deadline {
    /// This many seconds from now on; none if the clock cannot be read.
    pub fn after<R: Clock>(rt: &R, seconds: Option<u64>) -> Option<Deadline>
        ensures { IfSome result (λ deadline. seconds ≡ Some (seconds_of deadline)) }
    {
        match (Instant::now(rt), seconds) {
            (Ok(begun), Some(seconds)) => Some(Deadline { begun, seconds }),
            _ => None,
        }
    }

    /// `Seconds` if they have passed. While the clock cannot be read they have not.
    pub fn check<R: Clock>(&self, rt: &R) -> Result<(), Fault>
        ensures fault { IfErr result (λ why. why ≡ Seconds (seconds_of self.now)) }
        ensures drive { IfErr result (λ why. drive_fault_of why ≡ None) }
    {
        match Instant::now(rt) {
            Ok(now) if self.is_over(now) => Err(Fault::Seconds(self.seconds)),
            _ => Ok(()),
        }
    }

    // The seconds have passed at a moment.
    fn is_over(&self, now: Instant) -> bool
        ensures { result ≡ nat_le (seconds_of self.now) (seconds_between self.now.begun now) }
    {
        now.duration_since(self.begun).as_secs() >= self.seconds
    }
}
