//! Where this process was started.

use crate::faults::Fault;
use crate::launcher::Start;
use ados_launcher::StartFolder;
use execute_options::OptionsFault;
use std::env;
use std::rt::Env;

/// The directory in which this process was started, which stays its current one.
#[derive(Drop)]
pub struct Home {
    path: String,
}

impl Home {
    /// This process's current directory. `CannotRead` if it has no path.
    pub fn new<R: Env + AllocGlobal>(rt: &R) -> Result<Home, Fault> {
        let Ok(home) = env::current_dir(rt) else {
            return Err(Fault::from(OptionsFault::without_reason(rt.alloc(), ".")));
        };
        Ok(Home {
            path: String::from_str(rt.alloc(), home.as_path().as_str())?,
        })
    }

    /// The start of a program in a folder. A path with a slash leads to a program from here.
    pub fn start(&self, folder: String) -> Result<Start, Fault> {
        Ok(Start::Folder(StartFolder {
            path: folder,
            home: self.path.clone()?,
        }))
    }
}
