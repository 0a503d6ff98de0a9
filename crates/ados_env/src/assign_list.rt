// The directories of an assign, as Assign changes them.
ghost use Rattle.std.specs.Prelude.{◌≡◌, IfOk};
ghost use Rattle.ados_find.specs.Paths.{Gives};
ghost use Rattle.ados_env.specs.AssignList.{list_work_on_all, first_list_work, list_work_on_place};

use crate::assign_request::Request;
use crate::directories::directory_of;
use ados_assign::Places;
use ados_find::{Codes, Refusal, SearchPath, Shared, ShellView};
use ados_ram::Place;
use ados_text::{NoMemory, Result2, Text};
use std::alloc::Global;

/// The work of Assign on the directories of an assign.
#[derive(Drop)]
pub struct ListWork {
    /// Directories are removed.
    pub removes: bool,
    /// The directories as they were before.
    pub before: SearchPath,
    /// The directories so far.
    pub list: SearchPath,
}

impl ListWork {
    /// The work as it begins, on an assign that has these directories.
    pub fn new(alloc: Global, request: &Request, before: &[Place]) -> Result<ListWork, NoMemory>
        ensures { IfOk result (λ work. work ≡ first_list_work request.now before.now) }
    {
        let before = SearchPath::from_vec(Places::from_slice(alloc, before)?.into_vec());
        let list = if request.changes_list() {
            before.copy(alloc)?
        } else {
            SearchPath::new(alloc)
        };
        Ok(ListWork {
            removes: request.removes,
            before,
            list,
        })
    }

    /// The work after the texts of TARGET, in order.
    ///
    /// What `directory_of` refuses, and 205 for a directory that is to be removed from a list that does not have it.
    pub fn work_all(
        self,
        alloc: Global,
        shared: &Shared,
        view: &ShellView,
        texts: &[Text],
    ) -> Result<ListWork, Refusal>
        ensures { Gives result (list_work_on_all shared.now view.now self texts.now) }
    {
        let Some((text, further)) = texts.split_first() else {
            return Ok(self);
        };
        let work = self.work(directory_of(alloc, shared, view, text)?)?;
        work.work_all(alloc, shared, view, further)
    }

    // A directory is added, or removed.
    fn work(mut self, place: Place) -> Result<ListWork, Refusal>
        ensures { Gives result (list_work_on_place self place) }
    {
        if !self.removes {
            self.list.add(place)?;
            return Ok(self);
        }
        if !self.before.entries().contains(&place) {
            return Err(Refusal::Stopped(Codes::erred(Result2::OBJECT_NOT_FOUND)));
        }
        self.list.remove(&place);
        Ok(self)
    }
}
