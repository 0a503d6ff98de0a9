// A line cut into its command, its arguments and its redirections, item by item.
ghost use Rattle.std.specs.Prelude.{◌≡◌, ◌≤◌, true, length, drop, IfOk, OnOk};
ghost use Rattle.ados_text.specs.Text.{IsText};
ghost use Rattle.ados_items.specs.Items.{item_at, value_of, bytes_between, IsWithin};
ghost use Rattle.ados_line.specs.{Cut.{CutContinuation, with_piece, with_blanks, with_name, read_name, is_taken, read_redirection, cut_word, cut_item, run_item, cut_item_by_command, is_run, with_rest, nothing_read}, Steps.{Goes, with_arguments}};

use crate::faults::LineFault;
use crate::lines::Redirection;
use crate::signs::{Sign, is_both, sign_at};
use ados_items::{Item, between, next_item, next_word, value};
use ados_text::{NoMemory, Text};
use std::alloc::Global;

/// What has been read of a line.
#[derive(Drop)]
pub struct Cut {
    /// The first item's text.
    pub command: Option<Text>,
    /// The pieces after the command that are not redirections, unchanged.
    pub args: Text,
    /// The name of the input.
    pub input: Option<Text>,
    /// Where the output goes.
    pub output: Option<Redirection>,
}

/// Where reading continues after an item.
#[derive(Clone, Copy)]
pub enum Reading {
    /// At this place.
    Onward(usize),
    /// Nowhere: the whole line has been read.
    Done,
}

impl Cut {
    /// Nothing has been read.
    pub fn of_nothing(alloc: Global) -> Cut
        ensures { result ≡ nothing_read }
    {
        Cut {
            command: None,
            args: Text::new(alloc),
            input: None,
            output: None,
        }
    }

    /// The item is the command, and the line from a place on is its arguments.
    #[inline(always)]
    pub fn of_command(alloc: Global, line: &[u8], item: &Item, to: usize) -> Result<Cut, NoMemory>
        requires { IsText line.now }
        ensures { IfOk result (λ read. read ≡ with_arguments (value_of line.now item.now) (drop to line.now)) }
    {
        let command = value(alloc, line, item)?;
        let mut args = Text::new(alloc);
        args.push_bytes(between(line, to, line.len()))?;
        Ok(Cut {
            command: Some(command),
            args,
            input: None,
            output: None,
        })
    }

    // The first item is the command, and each later piece of the line is appended to the arguments; the piece is the
    // line from `place` up to `to`.
    fn take_piece(
        &mut self,
        alloc: Global,
        line: &[u8],
        item: &Item,
        place: usize,
        to: usize,
    ) -> Result<(), NoMemory>
        requires { IsText line.now }
        ensures { OnOk result (self.new ≡ with_piece self.old.command (value_of line.now item.now) (bytes_between line.now place to) self.old) }
    {
        match self.command {
            None => {
                self.command = Some(value(alloc, line, item)?);
                self.args.reserve(line.len().saturating_sub(to))?;
                Ok(())
            }
            Some(_) => self.args.push_bytes(between(line, place, to)),
        }
    }

    // Blanks before the command are dropped.
    fn take_blanks(&mut self, blanks: &[u8]) -> Result<(), NoMemory>
        requires { IsText blanks.now }
        ensures { OnOk result (self.new ≡ with_blanks self.old.command blanks.now self.old) }
    {
        match self.command {
            None => Ok(()),
            Some(_) => self.args.push_bytes(blanks),
        }
    }

    // The name of an input or an output.
    fn take_name(&mut self, sign: Sign, name: Text)
        ensures { self.new ≡ with_name sign name self.old }
    {
        match sign {
            Sign::Input => self.input = Some(name),
            Sign::Output => {
                self.output = Some(Redirection {
                    name,
                    append: false,
                })
            }
            Sign::Append => self.output = Some(Redirection { name, append: true }),
        }
    }

    // The redirection whose name is the item after its sign.
    fn take_named(
        &mut self,
        alloc: Global,
        line: &[u8],
        sign: Sign,
        item: &Item,
    ) -> Result<Reading, LineFault>
        requires { IsWithin line.now item.now }
        ensures { (next : CutContinuation) → Goes next result self.new (read_name next line.now sign self.old item.now) }
    {
        match *item {
            Item::Word { to, .. } => {
                self.take_name(sign, value(alloc, line, item)?);
                Ok(Reading::Onward(to))
            }
            Item::Quoted { to, .. } => {
                self.take_name(sign, value(alloc, line, item)?);
                Ok(Reading::Onward(to + 1))
            }
            Item::Unmatched(_) => Err(LineFault::UnmatchedQuotes),
            Item::Equal(_) => Err(LineFault::ArgumentMissing),
            Item::End(_) => Err(LineFault::ArgumentMissing),
        }
    }

    // Whether an input or an output was named before: a line takes one of each.
    fn is_taken(&self, sign: Sign) -> bool
        ensures { result ≡ is_taken sign self.now }
    {
        match sign {
            Sign::Input => self.input.is_some(),
            Sign::Output => self.output.is_some(),
            Sign::Append => self.output.is_some(),
        }
    }

    // The redirection whose sign is at `place`; the blanks before it have been read.
    fn take_redirection(
        &mut self,
        alloc: Global,
        line: &[u8],
        place: usize,
        sign: Sign,
    ) -> Result<Reading, LineFault>
        requires { place ≤ length line.now }
        ensures { (next : CutContinuation) → Goes next result self.new (read_redirection next line.now place self.old sign) }
    {
        if self.is_taken(sign) {
            return Err(LineFault::TooManyArguments);
        }
        let item = next_word(line, place + sign.width());
        self.take_named(alloc, line, sign, &item)
    }

    // A word, from one place up to another: an input, an output, or a piece.
    fn take_word(
        &mut self,
        alloc: Global,
        line: &[u8],
        place: usize,
        from: usize,
        to: usize,
    ) -> Result<Reading, LineFault>
        requires ascii { IsText line.now }
        requires within { from ≤ length line.now }
        ensures { (next : CutContinuation) → Goes next result self.new (cut_word next line.now place self.old from to) }
    {
        if is_both(line, from) {
            return Err(LineFault::NotImplemented);
        }
        match sign_at(line, from) {
            Some(sign) => {
                self.take_blanks(between(line, place, from))?;
                self.take_redirection(alloc, line, from, sign)
            }
            None => {
                self.take_piece(alloc, line, &Item::Word { from, to }, place, to)?;
                Ok(Reading::Onward(to))
            }
        }
    }

    // Whether the command is Run.
    fn is_run(&self) -> bool
        ensures { result ≡ is_run self.now.command }
    {
        match &self.command {
            None => false,
            Some(command) => command.is("Run"),
        }
    }

    // The rest of the line, from a place on.
    fn take_rest(&mut self, line: &[u8], place: usize) -> Result<(), NoMemory>
        requires { IsText line.now }
        ensures { OnOk result (self.new ≡ with_rest (drop place line.now) self.old) }
    {
        self.args.push_bytes(between(line, place, line.len()))
    }

    // An item after Run: a redirection of Run's own, or the start of the rest of the line.
    fn take_after_run(
        &mut self,
        alloc: Global,
        line: &[u8],
        place: usize,
        item: &Item,
    ) -> Result<Reading, LineFault>
        requires ascii { IsText line.now }
        requires within { IsWithin line.now item.now }
        ensures { (next : CutContinuation) → Goes next result self.new (run_item next line.now place self.old item.now) }
    {
        let Item::Word { from, .. } = *item else {
            self.take_rest(line, place)?;
            return Ok(Reading::Done);
        };
        if is_both(line, from) {
            return Err(LineFault::NotImplemented);
        }
        match sign_at(line, from) {
            Some(sign) => self.take_redirection(alloc, line, from, sign),
            None => {
                self.take_rest(line, place)?;
                Ok(Reading::Done)
            }
        }
    }

    /// Takes the item after `place`, up to which the line has been read.
    pub fn take_next(
        &mut self,
        alloc: Global,
        line: &[u8],
        place: usize,
    ) -> Result<Reading, LineFault>
        requires { IsText line.now }
        ensures { (next : CutContinuation) →
            Goes next result self.new (cut_item_by_command next line.now place self.old (item_at true line.now place)) }
    {
        let item = next_item(line, place);
        if self.is_run() {
            self.take_after_run(alloc, line, place, &item)
        } else {
            self.take_item(alloc, line, place, &item)
        }
    }

    // The item after `place`, up to which the line has been read, if the command is not Run.
    fn take_item(
        &mut self,
        alloc: Global,
        line: &[u8],
        place: usize,
        item: &Item,
    ) -> Result<Reading, LineFault>
        requires ascii { IsText line.now }
        requires within { IsWithin line.now item.now }
        ensures { (next : CutContinuation) → Goes next result self.new (cut_item next line.now place self.old item.now) }
    {
        match *item {
            Item::Word { from, to } => self.take_word(alloc, line, place, from, to),
            Item::Quoted { to, .. } => {
                self.take_piece(alloc, line, item, place, to + 1)?;
                Ok(Reading::Onward(to + 1))
            }
            Item::Equal(at) => {
                self.take_piece(alloc, line, item, place, at + 1)?;
                Ok(Reading::Onward(at + 1))
            }
            Item::End(_) => {
                self.take_blanks(between(line, place, line.len()))?;
                Ok(Reading::Done)
            }
            Item::Unmatched(_) => Err(LineFault::UnmatchedQuotes),
        }
    }
}
