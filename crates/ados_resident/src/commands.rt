// What runs a command: one of three crates.

/// The commands that neither control flow nor work on files: those of `ados_env`.
#[derive(Clone, Copy)]
pub enum EnvCommand {
    Alias,
    Assign,
    Break,
    /// CD.
    Cd,
    Echo,
    Eval,
    FailAt,
    Fault,
    Get,
    GetEnv,
    Path,
    Resident,
    Set,
    SetEnv,
    Status,
    Unalias,
    Unset,
    UnsetEnv,
    Which,
    Why,
}

impl EnvCommand {
    /// How many there are.
    pub const COUNT: usize = EnvCommand::Why as usize + 1;
}

/// The commands on files: those of `ados_files`.
#[derive(Clone, Copy)]
pub enum FilesCommand {
    Copy,
    Delete,
    Dir,
    Filenote,
    Join,
    List,
    MakeDir,
    Protect,
    Rename,
    Search,
    Sort,
    Type,
}

impl FilesCommand {
    /// How many there are.
    pub const COUNT: usize = FilesCommand::Type as usize + 1;
}

/// The commands of control flow: those of `ados_flow`.
#[derive(Clone, Copy)]
pub enum FlowCommand {
    Ask,
    Else,
    EndIf,
    EndSkip,
    Execute,
    If,
    Lab,
    Quit,
    Skip,
}

impl FlowCommand {
    /// How many there are.
    pub const COUNT: usize = FlowCommand::Skip as usize + 1;
}

/// A command that takes its arguments by a template: all but Run.
#[derive(Clone, Copy)]
pub enum Builtin {
    /// One that neither controls flow nor works on files.
    Env(EnvCommand),
    /// One that works on files.
    Files(FilesCommand),
    /// One of control flow.
    Flow(FlowCommand),
}
