//! The lines of a script, and where its jumps lead.
ghost use Rattle.std.specs.{Prelude.{◌≡◌, ◌<◌, ◌^◌, Some, IfOk, length, map}, List.{find}, Option.{option_copied, option_map}};
ghost use Rattle.ados_script.specs.{Blocks.{after_if, after_else}, Heads.{head_of}, Jumps.{LeadsWithin}, Lines.{line_of, numbers_below}, Skips.{is_end_skip_at, skip}, Tables.{first_ends, sought_at}};

use crate::blocks::{Ends, kept_ends};
use crate::jumps::{Jump, jump_to_next};
use crate::labels::first_of;
use crate::skips::{first_below, jump_past_first, nearer};
use crate::tables::{Tables, read_tables};
use ados_resident::Dialect;
use ados_text::{NoMemory, Text};
use std::alloc::Global;
use std::marker::Model;

/// The lines of a script, numbered from 1.
///
/// A jump searches the lines as they are written, allocates nothing, and leads to the line after the one that it finds.
/// All lines are below line 0, and none is below the last line or a number past it. Where each jump leads is found once,
/// when the script is made, and looked up from then on.
#[derive(Drop)]
pub struct Script {
    lines: Vec<Text>,
    // What its jumps find.
    tables: Tables,
}

impl Model for Script {
    ghost use Rattle.std.specs.Prelude.{List};
    ghost use Rattle.ados_text.specs.Text.{Text};
    ghost use Rattle.ados_script.specs.Tables.{AreTables};

    ghost Value = { List Text };

    ghost view = { λ s. s.lines.items };

    ghost invariant = { λ s. AreTables s.lines.items s.tables };
}

impl Script {
    /// A script of these lines. At `NoMemory`, if an allocation for what its jumps find fails, they
    /// are dropped.
    pub fn of(alloc: Global, lines: Vec<Text>) -> Result<Script, NoMemory>
        ensures { IfOk result (λ script. script ≡ lines.items) }
    {
        let tables = read_tables(alloc, &lines)?;
        Ok(Script { lines, tables })
    }

    /// All lines, in order.
    pub fn lines(&self) -> &[Text]
        ensures { result.now ≡ self.now }
    {
        &self.lines
    }

    /// The line of a number; `None` at 0 and past the last.
    pub fn line(&self, i: usize) -> Option<&Text>
        ensures { option_copied result ≡ line_of self.now i }
    {
        self.lines.get(i.checked_sub(1)?)
    }

    /// Where the script continues after an If in line `i` that fails: after the first Else or EndIf below it at depth 0,
    /// that is with as many If lines as EndIf lines between. `None` if there is no such line.
    pub fn after_if(&self, i: usize) -> Jump
        ensures jump { result ≡ after_if self.now i }
        ensures within { LeadsWithin self.now result }
    {
        jump_to_next(self.ends_below(i).branch)
    }

    /// Where the script continues after an Else in line `i`: after the first EndIf below it at depth 0. `None` if there
    /// is no such line.
    pub fn after_else(&self, i: usize) -> Jump
        ensures jump { result ≡ after_else self.now i }
        ensures within { LeadsWithin self.now result }
    {
        jump_to_next(self.ends_below(i).end_if)
    }

    // Where a block that is open in line `i` ends. The number of a line is far below the largest one.
    fn ends_below(&self, i: usize) -> Ends
        ensures ends { result ≡ first_ends (map head_of self.now) i }
        ensures few { length self.now < 2 ^ 63 }
    {
        kept_ends(&self.tables.ends, i)
    }

    /// Where the script continues after a Skip in line `i`: after the first Lab below it that has the label, ignoring
    /// case, or after the first Lab if no label is given; with `back` the search begins at line 1. A Lab has the text of its
    /// second item as a label, and in Full also its phrase, which is that of all its words. With no second item, or with an
    /// open quote there, the label is empty. `EndSkip` if an EndSkip comes first, `None` if neither exists.
    pub fn skip(&self, dialect: Dialect, i: usize, label: Option<&[u8]>, back: bool) -> Jump
        ensures jump { result ≡ skip dialect self.now i (option_map (λ t. t.now) label.entry) back }
        ensures within { LeadsWithin self.now result }
    {
        let start = if back { 0 } else { i };
        jump_past_first(
            self.first_lab(dialect, label, start),
            self.first_end_skip(start),
        )
    }

    // The first EndSkip below line `i`. The number of a line is far below the largest one.
    fn first_end_skip(&self, i: usize) -> Option<usize>
        ensures first { result ≡ find (is_end_skip_at self.now) (numbers_below self.now i) }
        ensures few { length self.now < 2 ^ 63 }
    {
        first_below(&self.tables.end_skips, i)
    }

    // The first Lab below line `i`, or the first one that has a label.
    fn first_lab(&self, dialect: Dialect, label: Option<&[u8]>, i: usize) -> Option<usize>
        ensures { result ≡ find (sought_at dialect (option_map (λ t. t.now) label.entry) self.now) (numbers_below self.now i) }
    {
        match label {
            None => first_below(&self.tables.labs, i),
            Some(label) => self.first_labelled(dialect, label, i),
        }
    }

    // The first Lab below line `i` that has a label.
    fn first_labelled(&self, dialect: Dialect, label: &[u8], i: usize) -> Option<usize>
        ensures { result ≡ find (sought_at dialect (Some label.now) self.now) (numbers_below self.now i) }
    {
        let labelled = first_of(&self.tables.labels, label, i);
        match dialect {
            Dialect::Core => labelled,
            Dialect::Full => nearer(labelled, first_of(&self.tables.phrases, label, i)),
        }
    }
}
