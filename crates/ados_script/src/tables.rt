//! What the jumps of a script find, read from its lines once.
ghost use Rattle.std.specs.Prelude.{IfOk};
ghost use Rattle.ados_script.specs.Tables.{AreTables};

use crate::blocks::{Ends, push_entry};
use crate::heads::{Head, read_head};
use crate::labels::{Label, in_order, read_label};
use crate::phrases::read_phrase;
use ados_text::{NoMemory, Text};
use std::alloc::Global;

/// What the jumps of a script find.
#[derive(Drop)]
pub struct Tables {
    /// For each line where its block ends, from the last line that has such an end up to line 0, which is above line 1.
    pub ends: Vec<Ends>,
    /// The EndSkip lines, in ascending order.
    pub end_skips: Vec<usize>,
    /// The Lab lines, in ascending order.
    pub labs: Vec<usize>,
    /// The labels of the Lab lines, in the order of their texts; those with the same text in the order of their lines.
    pub labels: Vec<Label>,
    /// Their phrases, likewise.
    pub phrases: Vec<Label>,
}

/// The tables of these lines, made in one pass from the last line up. `NoMemory` only if an allocation fails; nothing
/// is allocated for lines that no jump finds.
pub fn read_tables(alloc: Global, lines: &[Text]) -> Result<Tables, NoMemory>
    ensures { IfOk result (λ tables. AreTables lines.now tables) }
{
    let mut ends = Vec::new(alloc);
    let mut end_skips = Vec::new(alloc);
    let mut labs = Vec::new(alloc);
    let mut labels = Vec::new(alloc);
    let mut phrases = Vec::new(alloc);
    for place in (0..lines.len()).rev() {
        let line = &lines[place];
        let head = read_head(line.as_bytes());
        push_entry(&mut ends, place + 1, head)?;
        match head {
            Head::EndSkip => end_skips.push(place + 1)?,
            Head::Lab => {
                labs.push(place + 1)?;
                labels.push(Label::new(read_label(alloc, line)?, place + 1))?;
                phrases.push(Label::new(read_phrase(alloc, line)?, place + 1))?;
            }
            _ => (),
        }
    }
    end_skips.reverse();
    labs.reverse();
    Ok(Tables {
        ends,
        end_skips,
        labs,
        labels: in_order(labels)?,
        phrases: in_order(phrases)?,
    })
}
