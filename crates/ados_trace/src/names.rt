//! What a script is called where something is told of it.

use crate::escapes::shown;
use ados_flow::{Frame, FrameKind};
use ados_text::{NoMemory, Text};
use std::alloc::Global;

/// Names of scripts.
pub trait ScriptNames {
    /// The name by which a user knows the script of a full path.
    fn name(&self, file: &Text) -> Result<String, NoMemory>;
}

/// Scripts are called by their full paths in the Shell's files.
#[derive(Drop)]
pub struct FullPaths {
    /// Where the memory for names comes from.
    pub alloc: Global,
}

impl ScriptNames for FullPaths {
    fn name(&self, file: &Text) -> Result<String, NoMemory> {
        Ok(String::from_str(self.alloc, shown(file))?)
    }
}

/// The full path of the script that a frame is.
pub fn script_name(frame: &Frame) -> Option<&Text> {
    match frame.kind() {
        FrameKind::Script { name, .. } => Some(name),
        FrameKind::RunCommands | FrameKind::Tick { .. } => None,
    }
}
