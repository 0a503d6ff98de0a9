//! Why a call of this machine failed, as lines tell it.

use crate::faults::TransferFault;
use std::alloc::Global;
use std::io::ErrorKind;

/// A text with the reason for an error of this kind after it, if that can be told.
pub fn with_reason(alloc: Global, text: &str, kind: ErrorKind) -> Result<String, TransferFault> {
    match reason_of(kind) {
        Some(reason) => Ok(format!(in alloc; "{text}: {reason}")?),
        None => Ok(String::from_str(alloc, text)?),
    }
}

fn reason_of(kind: ErrorKind) -> Option<&'static str> {
    match kind {
        ErrorKind::NotFound => Some("no such file or folder"),
        ErrorKind::PermissionDenied => Some("permission denied"),
        ErrorKind::AlreadyExists => Some("another program made it"),
        ErrorKind::NotADirectory => Some("no folder, or a link"),
        ErrorKind::IsADirectory => Some("it is a folder"),
        ErrorKind::ReadOnlyFilesystem => Some("read-only file system"),
        ErrorKind::StorageFull => Some("no space left on device"),
        ErrorKind::QuotaExceeded => Some("disk quota exceeded"),
        ErrorKind::FileTooLarge => Some("file too large"),
        ErrorKind::ResourceBusy => Some("in use"),
        _ => None,
    }
}
