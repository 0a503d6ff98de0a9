// The laws of the machine, for what a driver takes.
ghost use Rattle.ados_launch.specs.Laws.{NewPairsAgree, SessionsAreUnique, SessionsObeyLimits, SessionsReportEnds, SessionsEndFramesOnce, ActsObeyTheRule, DeedsObeyTheRule};

use ados_machine::{
    each_end_is_reported_once, each_frame_ends_once, scripts_end_where_the_rule_says,
};

/// In every session, however it ends, of a world in which no script runs on after a failure: in every shell each
/// script ends at its first command whose code reaches the limit in force after it, and is early exactly then. The reports of every
/// session are the ends of its scripts, one each and in order. Each frame ends once, by the name under which it began.
pub fn sessions_obey_the_laws()
    ensures limits { SessionsObeyLimits }
    ensures reports { SessionsReportEnds }
    ensures frames { SessionsEndFramesOnce }
{
    scripts_end_where_the_rule_says();
    each_end_is_reported_once();
    each_frame_ends_once();
}

/// A fresh world and a launcher without a call agree, as [`Drive::run`](crate::Drive::run) and [`system`](crate::system) need it.
pub fn new_pairs_agree()
    ensures { NewPairsAgree }
{}

/// The world, the reader's bytes, the breaks and the launcher's list of calls determine what is taken: of two sessions that begin
/// alike, if the one's list may go on after the other's, what the one took is a prefix of what the other took.
pub fn sessions_are_unique()
    ensures { SessionsAreUnique }
{}

/// In all that leads from one world to another, events of which the machine accepts each and shells that are opened for lines,
/// from a world in which no script runs on after a failure: in every shell each script ends early exactly at its first command
/// whose code reaches the limit in force after it; the reports are the ends of scripts, one each and in order; and each frame
/// ends once, by the name under which it began. So it is of the deeds of a session between whose events lines run alone
/// ([`Session`](crate::Session), [`system`](crate::system)).
pub fn acts_obey_the_rule()
    ensures acts { ActsObeyTheRule }
    ensures deeds { DeedsObeyTheRule }
{}
