//! What is done with an object of a shared folder.
ghost use Rattle.std.specs.Prelude.{◌≡◌, ◌⊎◌, true, false, if◌then◌else◌};
ghost use Rattle.ados_transfer.specs.Decisions.{decision, is_absent, is_same_state, is_large, may_write, removal};

use crate::stamps::Stamp;
use ados_ram::FileBytes;

/// What is at a place on one side of a share.
#[derive(Clone, Copy)]
pub enum State<'a> {
    /// Nothing.
    Absent,
    /// A directory.
    Directory,
    /// A file of these bytes.
    File(&'a FileBytes),
    /// A file of this machine that is too large for the Shell, by its stamp; on the Shell's side its stand-in.
    Large(Stamp),
    /// What is none of these: a link, a device, a file that can't be read.
    Foreign,
}

/// What is done with an object.
#[derive(Clone, Copy, PartialEq, Eq)]
pub enum Decision {
    /// Nothing: both sides are alike.
    Keep,
    /// Only this machine's side changed: what it has is copied into the Shell's files, or deleted there.
    Bring,
    /// Only the Shell's side changed: what it has is written to this machine, or deleted there.
    Write,
    /// Both sides changed, or this machine's object is not to be touched: it stays, and is copied into the Shell's files if it can be.
    Conflict,
}

/// How an object of this machine is removed if the Shell no longer has it, or has another kind of object in its place.
#[derive(Clone, Copy, PartialEq, Eq)]
pub enum Removal {
    /// It is gone already: only its record is dropped.
    Forget,
    /// It is deleted.
    Delete,
    /// It would be deleted, but something that the Shell holds is not written yet: its bytes may have been moved there.
    Hold,
    /// It would be deleted, but then its bytes would be only in memory: it waits.
    Wait,
    /// It changed, or is not to be touched: it stays.
    Conflict,
    /// Nothing: the Shell has what it had.
    Leave,
}

/// What else decides whether an object of this machine is deleted.
#[derive(Clone, Copy)]
pub struct Terms {
    /// A file that is too large for the Shell may be deleted.
    pub may_delete: bool,
    /// Something that the Shell has is not written.
    pub has_unwritten: bool,
    /// Its bytes are in a file of the Shell that is not shared, and in no other file of the folder; or it is a folder in which
    /// something waits.
    pub is_last_copy: bool,
}

impl State<'_> {
    /// The two are alike.
    pub fn is_same(&self, other: &State<'_>) -> bool
        ensures { result ≡ is_same_state self.now other.now }
    {
        match (self, other) {
            (State::Absent, State::Absent) => true,
            (State::Directory, State::Directory) => true,
            (State::File(bytes), State::File(others)) => *bytes == *others,
            (State::Large(stamp), State::Large(other)) => stamp.is_same(other),
            (State::Foreign, State::Foreign) => true,
            _ => false,
        }
    }

    /// Nothing is there.
    pub fn is_absent(&self) -> bool
        ensures { result ≡ is_absent self.now }
    {
        matches!(self, State::Absent)
    }
}

/// What is done with an object, given what it was at the last comparison (`last`) and what this machine (`here`) and the Shell (`there`)
/// have now; `may_delete` says that a file which is too large for the Shell may be deleted.
pub fn decide(last: &State<'_>, here: &State<'_>, there: &State<'_>, may_delete: bool) -> Decision
    ensures decision { result ≡ decision last.now here.now there.now may_delete }
    // Nothing is overwritten or deleted on this machine unless it is what was there at the last comparison.
    ensures safe { result ≡ Decision.Write → (is_absent here.now ≡ true) ⊎ (is_same_state here.now last.now ≡ true) }
    // A file that is too large for the Shell is never written, and is deleted only if that is allowed.
    ensures large { result ≡ Decision.Write → is_large here.now ≡ true → (is_absent there.now ≡ true) × (may_delete ≡ true) }
    // If neither changed nothing is done.
    ensures kept { is_same_state here.now last.now ≡ true → is_same_state there.now last.now ≡ true → result ≡ Decision.Keep }
    // If both changed this machine's object stays.
    ensures conflict { is_same_state here.now last.now ≡ false → is_same_state there.now last.now ≡ false → is_same_state here.now there.now ≡ false →
        is_absent here.now ≡ false → result ≡ Decision.Conflict }
    // The Shell's own change is never overwritten.
    ensures brought { result ≡ Decision.Bring → is_same_state there.now last.now ≡ true }
{
    if here.is_same(there) {
        return Decision::Keep;
    }
    if there.is_same(last) {
        return Decision::Bring;
    }
    if may_write(last, here, there, may_delete) {
        Decision::Write
    } else {
        Decision::Conflict
    }
}

/// How an object of this machine is removed if the Shell's is gone or of another kind.
pub fn decide_removal(
    last: &State<'_>,
    here: &State<'_>,
    there: &State<'_>,
    terms: Terms,
) -> Removal
    // Nothing is deleted while anything that the Shell has is unwritten.
    ensures nothing_unwritten { result ≡ Removal.Delete → terms.has_unwritten ≡ false }
    // Nothing is deleted whose bytes would then be only in memory.
    ensures last_copy { result ≡ Removal.Delete → terms.is_last_copy ≡ false }
    // What is deleted is there, and is what was there at the last comparison.
    ensures safe { result ≡ Removal.Delete → (is_absent here.now ≡ false) × (is_same_state here.now last.now ≡ true) }
    // A file that is too large for the Shell is deleted only if the Shell's is gone, and if that is allowed.
    ensures large { result ≡ Removal.Delete → is_large here.now ≡ true → (is_absent there.now ≡ true) × (terms.may_delete ≡ true) }
    ensures removal { result ≡ removal last.now here.now there.now terms }
{
    match decide(last, here, there, terms.may_delete) {
        Decision::Keep => forget_if(here.is_absent()),
        Decision::Bring => Removal::Leave,
        Decision::Conflict => Removal::Conflict,
        Decision::Write => {
            if here.is_absent() {
                return Removal::Forget;
            }
            if terms.is_last_copy {
                Removal::Wait
            } else if terms.has_unwritten {
                Removal::Hold
            } else {
                Removal::Delete
            }
        }
    }
}

// Both sides are alike: what is gone on both is forgotten.
fn forget_if(is_gone: bool) -> Removal
    ensures { result ≡ (if is_gone then Removal.Forget else Removal.Leave) }
{
    if is_gone {
        Removal::Forget
    } else {
        Removal::Leave
    }
}

// What this machine has may be replaced by what the Shell has.
fn may_write(last: &State<'_>, here: &State<'_>, there: &State<'_>, may_delete: bool) -> bool
    ensures { result ≡ may_write last.now here.now there.now may_delete }
{
    match here {
        State::Absent => true,
        State::Directory | State::File(_) => here.is_same(last),
        State::Large(_) => here.is_same(last) && there.is_absent() && may_delete,
        State::Foreign => false,
    }
}
