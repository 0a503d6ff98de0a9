// What gives the words of a line their meanings: aliases, and local and global variables.
ghost use Rattle.std.specs.Prelude.{◌≡◌, IfOk};
ghost use Rattle.ados_line.specs.Values.{visible_variables};

use ados_assign::Assigns;
use ados_ram::Ram;
use ados_text::{Code, Name, NoMemory, Result2, Text};
use ados_vars::{Aliases, Locals, global};
use std::alloc::Global;

/// What gives the words of a line their meanings.
#[derive(Clone, Copy)]
pub struct Scope<'a> {
    /// The allocator for the texts that are made.
    pub alloc: Global,
    /// The shell's aliases.
    pub aliases: &'a Aliases,
    /// The shell's own variables.
    pub locals: &'a Locals,
    /// The return code of its last command, which RC shows.
    pub code: Code,
    /// The Result2 of its last command, which Result2 shows.
    pub result2: Result2,
    /// The assigns, by which global variables are found.
    pub assigns: &'a Assigns,
    /// The files, of which each global variable is one.
    pub ram: &'a Ram,
}

impl<'a> Scope<'a> {
    /// The value of a variable: of a local one, or else of a global one.
    pub fn value(&self, name: Text) -> Result<Option<Text>, NoMemory>
        ensures { IfOk result (λ value. value ≡ visible_variables self.now name) }
    {
        let name = Name::new(name);
        match self.locals.get(&name, self.code, self.result2)? {
            Some(value) => Ok(Some(value)),
            None => global(self.alloc, self.ram, self.assigns, name.text()),
        }
    }
}
