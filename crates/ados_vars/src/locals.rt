// The local variables of a shell.
ghost use Rattle.std.specs.{Prelude.{◌≡◌, true, None, IfOk, OnOk, OnErr}, List.{filter}};
ghost use Rattle.ados_text.specs.Text.{IsText};
ghost use Rattle.ados_vars.specs.{Vars.{AreDistinct, set_all, set_pair, value_in}, Locals.{copied_pairs, is_of_codes, is_other, is_own, own_pairs, shown_pairs, unset_pair, with_codes}};

use crate::vars::Vars;
use ados_text::{Code, Name, NoMemory, Result2, Text};
use std::alloc::Global;
use std::marker::Model;

const PROCESS: &str = "Process";

const CODE: &str = "RC";

const FAULT: &str = "Result2";

/// The local variables of a shell. RC and Result2 have positions among them, and show the results of its last command: a
/// caller that reads them passes these results, so that a command's end allocates nothing.
#[derive(Clone)]
pub struct Locals {
    alloc: Global,
    // The values stored for RC and Result2 are never shown.
    vars: Vars,
}

// Implemented by hand, so that dropping variables is one step for the caller, and not one for each part.
impl Drop for Locals {
    fn drop(self) {
        let Locals {
            alloc: _alloc,
            vars: _vars,
        } = self;
    }
}

impl Model for Locals {
    ghost use Rattle.ados_vars.specs.Vars.{Pairs};

    ghost Value = { Pairs };

    ghost view = { λ l. l.vars };
}

impl Locals {
    /// The initial variables of the shell of a number: Process, which is its number, RC and Result2.
    pub fn first(alloc: Global, number: u8) -> Result<Locals, NoMemory>
        ensures { IfOk result (λ locals. locals ≡ own_pairs number) }
    {
        let mut vars = Vars::new(alloc);
        vars.set(name(alloc, PROCESS)?, Text::of_number(alloc, number)?)?;
        vars.set(name(alloc, CODE)?, Text::new(alloc))?;
        vars.set(name(alloc, FAULT)?, Text::new(alloc))?;
        Ok(Locals { alloc, vars })
    }

    /// The initial variables of a shell that this one's shell creates, by its number: its own, and after them the others
    /// of these, in their order.
    pub fn copied(&self, number: u8) -> Result<Locals, NoMemory>
        ensures { IfOk result (λ locals. locals ≡ copied_pairs number self.now) }
    {
        let mut locals = Locals::first(self.alloc, number)?;
        set_others(&mut locals.vars, &self.vars)?;
        Ok(locals)
    }

    /// Sets the value of a name: a new name goes last, and an existing one keeps its position and its first spelling.
    ///
    /// `NoMemory` only for a new name; nothing is changed then.
    pub fn set(&mut self, name: Name, value: Text) -> Result<(), NoMemory>
        ensures ok { OnOk result (self.new ≡ set_pair self.old name value) }
        ensures err { OnErr result (self.new ≡ self.old) }
        ensures absent { OnErr result (value_in self.old name ≡ None) }
    {
        self.vars.set(name, value)
    }

    /// Removes a name, if it exists. RC and Result2 are set again by the end of each command: one of them goes last.
    ///
    /// On `NoMemory` nothing is changed; only RC and Result2 allocate.
    #[tactic(auto, unfolding(crate::specs::Locals::unset_pair))]
    pub fn unset(&mut self, name: &Name) -> Result<(), NoMemory>
        ensures ok { OnOk result (self.new ≡ unset_pair self.old name.now) }
        ensures err { OnErr result (self.new ≡ self.old) }
        ensures asks { OnErr result (is_of_codes name.now ≡ true) }
    {
        if is_of_codes(name) {
            let mut vars = self.vars.copy()?;
            vars.unset(name);
            let empty = Text::new(self.alloc);
            self.vars = with_codes(self.alloc, vars, empty, Text::new(self.alloc))?;
        } else {
            self.vars.unset(name);
        }
        Ok(())
    }

    /// The value of a name, if it has one, after these results of the last command.
    pub fn get(&self, name: &Name, code: Code, result2: Result2) -> Result<Option<Text>, NoMemory>
        ensures { IfOk result (λ value. value ≡ value_in (shown_pairs self.now code result2) name.now) }
    {
        if name.text().is(FAULT) {
            return Ok(Some(Text::of_number(self.alloc, result2.0)?));
        }
        if name.text().is(CODE) {
            return Ok(Some(Text::of_number(self.alloc, code.0)?));
        }
        match self.vars.get(name) {
            None => Ok(None),
            Some(value) => Ok(Some(value.copy()?)),
        }
    }

    /// All names with their values, in order, after these results of the last command.
    #[tactic(auto, unfolding(crate::specs::Locals::shown_pairs))]
    pub fn list(&self, code: Code, result2: Result2) -> Result<Vars, NoMemory>
        ensures { IfOk result (λ vars. vars ≡ shown_pairs self.now code result2) }
    {
        let code = Text::of_number(self.alloc, code.0)?;
        let fault = Text::of_number(self.alloc, result2.0)?;
        with_codes(self.alloc, self.vars.copy()?, code, fault)
    }

    /// Equal variables.
    pub fn copy(&self) -> Result<Locals, NoMemory>
        ensures { IfOk result (λ locals. locals ≡ self.now) }
    {
        Ok(self.clone()?)
    }
}

// Sets those of other variables that are not a shell's own.
fn set_others(vars: &mut Vars, others: &Vars) -> Result<(), NoMemory>
    ensures set { OnOk result (vars.new ≡ set_all vars.old (filter is_other others.now)) }
    ensures distinct { AreDistinct others.now }
{
    for (name, value) in others.list() {
        if !is_own(name) {
            vars.set(name.copy()?, value.copy()?)?;
        }
    }
    Ok(())
}

// Whether the name is that of one of a shell's own variables.
fn is_own(name: &Name) -> bool
    ensures { result ≡ is_own name.now }
{
    name.text().is(PROCESS) || is_of_codes(name)
}

// Whether the name is RC or Result2.
fn is_of_codes(name: &Name) -> bool
    ensures { result ≡ is_of_codes name.now }
{
    name.text().is(CODE) || name.text().is(FAULT)
}

// The pairs with RC and Result2 set to these texts.
#[tactic(auto, unfolding(crate::specs::Locals::with_codes))]
fn with_codes(alloc: Global, vars: Vars, code: Text, fault: Text) -> Result<Vars, NoMemory>
    ensures { IfOk result (λ new. new ≡ with_codes vars code fault) }
{
    let mut vars = vars;
    vars.set(name(alloc, CODE)?, code)?;
    vars.set(name(alloc, FAULT)?, fault)?;
    Ok(vars)
}

// The name of a variable that each shell has.
fn name(alloc: Global, text: &str) -> Result<Name, NoMemory>
    requires { IsText text.now }
    ensures { IfOk result (λ name. name ≡ text.now) }
{
    Ok(Name::new(Text::of_ascii(alloc, text.as_bytes())?))
}
