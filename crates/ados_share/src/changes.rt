//! What is planned for one object of the folder of a share.
ghost use Rattle.std.specs.{Prelude.{◌≡◌, true}, Option.{is_none, option_copied}};
ghost use Rattle.ados_share.specs.Changes.{comes_in, has_made_anew, is_made_anew, is_of_kind};

use crate::arrival_plan::ArrivalPlan;
use crate::arrivals::{Arrival, Coming};
use crate::mirror::Mirror;
use ados_ram::{Body, Entry, Place};
use ados_transfer::{
    Decision, Here, Kind, Last, Obstacle, Record, Seen, Stamp, State, TransferFault, decide,
    is_stand_in,
};
use std::rt::Files;

// An object that is gone on this machine, or is of another kind there, and what the Shell has in its place.
#[derive(Drop)]
struct Disappearance<'a> {
    // By this the Shell's is deleted.
    arrival: Arrival,
    place: Place,
    entry: Option<&'a Entry>,
    decision: Decision,
    // A link or the like is there now.
    is_foreign: bool,
}

impl Mirror {
    /// Plans the removal from the Shell's files of an object that is gone on this machine, or is of another kind there.
    pub(crate) fn plan_gone<R: AllocGlobal + Files>(
        &mut self,
        rt: &R,
        plan: &mut ArrivalPlan<'_>,
        key: &str,
        seen: Option<&Seen>,
    ) -> Result<(), TransferFault> {
        let record = match self.records.get(key) {
            Some(record) if !seen.is_some_and(|seen| is_of_kind(record, seen.kind)) => record,
            _ => return Ok(()),
        };
        let here = self.look_at(rt, seen)?;
        let place = record.place.copy()?;
        let is_renamed = matches!(record.last, Last::StandIn(_)) && place != self.place_of(key)?;
        let entry = plan.look(key, &place);
        let state = here.state(Some(record));
        let is_absent = state.is_absent();
        let gone = (key, record.path.as_str());
        let disappearance = Disappearance {
            arrival: Arrival::new(self.alloc, gone, Coming::Nothing, Stamp::NONE)?,
            place,
            entry,
            decision: decide(&record.state(), &state, &record.state_there(entry), false),
            is_foreign: matches!(state, State::Foreign),
        };
        self.note_vanished(key, &here, entry)?;
        if is_renamed && !here.is_unread() {
            self.reports
                .report_gone(disappearance.arrival.path.as_str())?;
        }
        let is_over = self.plan_deletion(plan, key, disappearance)?;
        if is_absent && is_over {
            self.forget(key);
        }
        Ok(())
    }

    // Plans the deletion of what the Shell has in place of what is gone; whether the record says nothing any longer, if nothing is here.
    fn plan_deletion(
        &mut self,
        plan: &mut ArrivalPlan<'_>,
        key: &str,
        disappearance: Disappearance<'_>,
    ) -> Result<bool, TransferFault> {
        let Disappearance {
            arrival,
            place,
            entry,
            decision,
            is_foreign,
        } = disappearance;
        if decision == Decision::Conflict {
            let path = arrival.path.as_str();
            if is_foreign {
                self.reports.report_foreign(key, path)?;
            } else {
                self.reports.report_kept(key, path, false)?;
            }
            self.overrule(plan.files(), key, path, entry.is_some() && !is_foreign)?;
        }
        match (decision, entry) {
            (Decision::Conflict, _) if is_foreign => Ok(false),
            (Decision::Conflict | Decision::Bring, Some(entry)) => {
                plan.add_deletion(self, arrival, &place, entry)?;
                Ok(!plan.deletes(key))
            }
            (Decision::Keep, _) => Ok(true),
            // What the Shell changed is new there: it is written again.
            (Decision::Write, Some(_)) => Ok(!self.reports.is_failing(key)),
            _ => Ok(false),
        }
    }

    // What this machine has at the place of an object that may have changed.
    fn look_at<R: AllocGlobal + Files>(
        &self,
        rt: &R,
        seen: Option<&Seen>,
    ) -> Result<Here, TransferFault> {
        match seen {
            Some(seen) => Here::look(rt, self.options.limits, seen.path.as_str()),
            None => Ok(Here::Absent),
        }
    }

    /// Plans the arrival of an object that is new on this machine, or that changed there.
    pub(crate) fn plan_come<R: AllocGlobal + Files>(
        &mut self,
        rt: &R,
        plan: &mut ArrivalPlan<'_>,
        key: &str,
        seen: &Seen,
    ) -> Result<(), TransferFault> {
        let place = self.place_of(seen.path.as_str())?;
        let entry = plan.look(key, &place);
        if entry.is_none() && plan.is_full() && !self.records.contains_key(key) {
            return self.reports.report_full(plan.limits(), seen.path.as_str());
        }
        let here = Here::look(rt, self.options.limits, seen.path.as_str())?;
        if here.is_unread() {
            plan.leave_out(Obstacle::Unread, seen.path.as_str())?;
            return self.reports.report_unread(key, seen.path.as_str());
        }
        self.note_vanished(key, &here, entry)?;
        let is_over = self.waiting.has(key) || self.reports.is_failing(key);
        let record = self.records.get(key).filter(|_| !plan.deletes(key));
        if entry.is_some() && record.is_some_and(|record| !is_of_kind(record, seen.kind)) {
            return Ok(());
        }
        let is_stand_in = record.is_some_and(Record::is_stand_in);
        if record.is_some_and(|record| record.place != place && is_replaced(record, &here)) {
            self.reports.report_replaced(seen.path.as_str())?;
        }
        match decision_for(record, &here, entry, is_over) {
            Decision::Keep => return self.keep_alike(plan, key, seen, &here, entry),
            Decision::Write => return self.keep_stamp(plan, key, seen, &here),
            Decision::Conflict => {
                self.reports
                    .report_kept(key, seen.path.as_str(), is_stand_in)?;
                self.overrule(plan.files(), key, seen.path.as_str(), entry.is_some())?;
            }
            Decision::Bring => {}
        }
        self.release(rt, key, seen.path.as_str(), &place)?;
        plan.add_object(self, key, seen, here, &place)
    }

    // Keeps the path and the stamp of an object in whose place the Shell's is to be written.
    fn keep_stamp(
        &mut self,
        plan: &ArrivalPlan<'_>,
        key: &str,
        seen: &Seen,
        here: &Here,
    ) -> Result<(), TransferFault> {
        let Some(stamp) = here.stamp() else {
            return Ok(());
        };
        let path = seen.path.clone()?;
        if let Some(record) = self.records.get_mut(key) {
            record.path = path;
            record.stamp = stamp;
            record.is_fresh = stamp.is_fresh(plan.now());
        }
        Ok(())
    }

    // Both sides are alike: that is kept.
    fn keep_alike(
        &mut self,
        plan: &ArrivalPlan<'_>,
        key: &str,
        seen: &Seen,
        here: &Here,
        entry: Option<&Entry>,
    ) -> Result<(), TransferFault> {
        let (Some(stamp), Some(entry)) = (here.stamp(), entry) else {
            return Ok(());
        };
        let last = match (here, &entry.body) {
            (Here::Directory(_), Body::Directory) => Last::Directory,
            (Here::File { .. }, Body::File(bytes)) if !is_stand_in(entry) => {
                Last::File(bytes.clone()?)
            }
            (_, Body::File(_)) if is_stand_in(entry) => Last::StandIn(entry.comment.copy()?),
            _ => return Ok(()),
        };
        self.keep_as(key, seen.path.as_str(), last, stamp, plan.now())
    }
}

// The object on this machine is of the kind that it was at the last comparison.
fn is_of_kind(record: &Record, kind: Kind) -> bool
    ensures { result ≡ is_of_kind «record».now.last kind }
{
    match (&record.last, kind) {
        (Last::Directory, Kind::Directory) => true,
        (Last::File(_) | Last::StandIn(_), Kind::File { .. }) => true,
        _ => false,
    }
}

// What is done with an object that may have changed. A file that another program made anew, where the Shell has none any longer, comes in,
// whatever its bytes are. If the Shell's deletion of the old one waited, or was refused (`is_over`), both agree that the old one is gone.
fn decision_for(
    record: Option<&Record>,
    here: &Here,
    entry: Option<&Entry>,
    is_over: bool,
) -> Decision
    ensures anew { is_none entry.entry ≡ true → has_made_anew (option_copied record.entry) here.now ≡ true → comes_in result ≡ true }
{
    match record {
        Some(record) if entry.is_none() && is_made_anew(record, here) => {
            if is_over {
                Decision::Bring
            } else {
                Decision::Conflict
            }
        }
        _ => here.decision(record, entry),
    }
}

/// Another file is there than that of a record, whatever its bytes are: another program made it, or wrote to it.
pub fn is_made_anew(record: &Record, here: &Here) -> bool
    ensures { result ≡ is_made_anew «record».now here.now }
{
    match (&record.last, here) {
        (Last::File(_), Here::File { stamp, .. }) => !record.stamp.is_same_file(stamp),
        _ => false,
    }
}

// Another file is there in place of a large one, or the large one was cut.
fn is_replaced(record: &Record, here: &Here) -> bool {
    let Some(stamp) = here.stamp() else {
        return false;
    };
    let is_cut = stamp.size < record.stamp.size;
    record.is_stand_in() && (is_cut || stamp.number != record.stamp.number)
}
