//! How a share is kept.

use ados_ram::Limits;

/// How a share is kept.
#[derive(Clone, Copy)]
pub struct MirrorOptions {
    /// Names that begin with a dot are shared too.
    pub all: bool,
    /// Of the folders a part is enough: they may have more files and folders than the Shell's files can hold, names that these do not allow,
    /// and what can't be read.
    pub part: bool,
    /// Nothing of this machine is changed; changes are only reported.
    pub dry: bool,
    /// The limits of the Shell's files.
    pub limits: Limits,
}
