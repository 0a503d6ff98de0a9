// A shell that is to begin.

use ados_find::{Settings, Target};
use ados_ram::Place;
use ados_script::Script;
use std::marker::Model;

/// A shell that a Run makes.
#[derive(Drop)]
pub struct Begun {
    /// Its current directory: that of its maker.
    pub directory: Place,
    /// What is set in it: copies of what is set in its maker.
    pub settings: Settings,
    /// Its commands.
    pub commands: Script,
    /// Its output, which is open until it ends.
    pub output: Option<Target>,
}

impl Model for Begun {
    ghost use Rattle.ados_machine.specs.Shells.{ShellStart as NewShell};

    ghost Value = { NewShell };

    ghost view = { λ b. record { directory = b.directory; settings = b.settings; commands = b.commands; output = b.output } };
}
