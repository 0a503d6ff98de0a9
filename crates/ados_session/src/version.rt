// Which version this is.

/// The version of both programs, which `--version` prints.
pub const VERSION: &str = "1.16";
