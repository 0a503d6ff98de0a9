// Filenote: the comment of objects.
ghost use Rattle.std.specs.Prelude.{◌≡◌, IfOk};
ghost use Rattle.ados_find.specs.Effects.{effect_of};
ghost use Rattle.ados_files.specs.Filenote.{comment_given, note_one, filenote_row};

use crate::below::OnAll;
use crate::options::{FILENOTE_ALL, FILENOTE_COMMENT, FILENOTE_FILE};
use ados_find::{Act, CommandResult, Shared, ShellView, Work, current};
use ados_objects::{done_with_named, go_on};
use ados_ram::Place;
use ados_readargs::Args;
use ados_text::{NoMemory, Text};
use std::alloc::Global;

/// Filenote sets the comment of objects, or clears it.
pub fn filenote(alloc: Global, shared: &Shared, view: &ShellView, args: &Args) -> CommandResult
    ensures { IfOk result (λ outcome. effect_of shared.now outcome ≡ filenote_row shared.now view.now args.now) }
{
    let comment = comment_given(alloc, args)?;
    let act = OnAll {
        all: args.has_switch(FILENOTE_ALL),
        act: &Noting { comment: &comment },
    };
    let texts = args.made_texts(alloc, FILENOTE_FILE)?;
    done_with_named(alloc, shared, view, &act, texts.as_slice())
}

// The text of COMMENT; without it the comment is cleared.
fn comment_given(alloc: Global, args: &Args) -> Result<Text, NoMemory>
    ensures { IfOk result (λ comment. comment ≡ comment_given args.now) }
{
    match args.made_text(alloc, FILENOTE_COMMENT)? {
        None => Ok(Text::new(alloc)),
        Some(comment) => Ok(comment),
    }
}

/// The setting of one object's comment.
#[derive(Drop)]
pub struct Noting<'a> {
    pub comment: &'a Text,
}

impl<'a> Act<Place> for Noting<'a> {
    ghost act = { λ s. note_one s.comment.now };

    fn act(&self, shared: &Shared, work: &mut Work, place: &Place) -> Result<(), NoMemory> {
        let change = current(shared, &work.shared)
            .ram
            .comment(place, self.comment);
        go_on(shared, work, change)
    }
}
