// Sort: the lines of a file are written to a file in an order.
ghost use Rattle.std.specs.Prelude.{◌≡◌, IfOk};
ghost use Rattle.ados_find.specs.{Done.{done_of, fresh_work}, Effects.{effect_of}, Paths.{Gives}};
ghost use Rattle.ados_files.specs.{Sort.{bytes_before, order_after, sort_read, sort_row, sorted_text, text_of_lines}, TypeFiles.{type_one}, declared.type_files.Printing.TheVariants.{Plain}};
ghost use Rattle.ados_objects.specs.Acts.{at_path};

use crate::join::written_to;
use crate::options::{SORT_CASE, SORT_COLSTART, SORT_FROM, SORT_NUMERIC, SORT_TO};
use crate::sort_order::{SortOrder, plain_lines, sort_lines};
use crate::type_files::{Printing, Typing};
use ados_find::{Codes, CommandResult, Lookup, Outcome, Refusal, Shared, ShellView, Work};
use ados_objects::at_path;
use ados_readargs::Args;
use ados_text::{NoMemory, Octets, Result2, Text};
use std::alloc::Global;
use std::mem;

/// Sort writes the lines of a file to a file, in an order.
pub fn sort(alloc: Global, shared: &Shared, view: &ShellView, args: &Args) -> CommandResult
    ensures { IfOk result (λ outcome. effect_of shared.now outcome ≡ sort_row shared.now view.now args.now) }
{
    let Some(from) = args.made_text(alloc, SORT_FROM)? else {
        return Ok(Outcome::missing(alloc));
    };
    let Some(to) = args.made_text(alloc, SORT_TO)? else {
        return Ok(Outcome::missing(alloc));
    };
    match bytes_before(args.number(SORT_COLSTART)) {
        Err(refusal) => Ok(Outcome::answering(alloc, refusal.codes()?)),
        Ok(before) => {
            let read = read_from(alloc, shared, view, &from)?;
            sort_to(shared, view, &to, order_after(args, before), read)
        }
    }
}

// How many bytes stand before a column, which is counted from 1.
fn bytes_before(column: Option<i32>) -> Lookup<usize>
    ensures { Gives result (bytes_before column) }
{
    let Some(column) = column else {
        return Ok(0);
    };
    match usize::try_from(column) {
        Ok(column) if column > 0 => Ok(column - 1),
        _ => Err(Refusal::Stopped(Codes::failed(Result2::BAD_NUMBER))),
    }
}

// The order that the options give.
fn order_after(args: &Args, before: usize) -> SortOrder
    ensures { result ≡ order_after args.now before }
{
    SortOrder {
        before,
        case: args.has_switch(SORT_CASE),
        numeric: args.has_switch(SORT_NUMERIC),
    }
}

// The bytes of FROM, as what is to be printed.
fn read_from(
    alloc: Global,
    shared: &Shared,
    view: &ShellView,
    from: &Text,
) -> Result<Work, NoMemory>
    ensures { IfOk result (λ work. done_of shared.now work ≡ at_path (type_one Plain view.now) view.now (fresh_work shared.now) from.now) }
{
    let act = Typing {
        view,
        printing: Printing::Plain,
    };
    let mut work = Work::new(alloc);
    at_path(&act, view, shared, &mut work, from)?;
    Ok(work)
}

// Writes the lines of what was read to TO, in an order.
fn sort_to(
    shared: &Shared,
    view: &ShellView,
    to: &Text,
    order: SortOrder,
    read: Work,
) -> CommandResult
    ensures { IfOk result (λ outcome. effect_of shared.now outcome ≡ sort_read view.now to.now order (done_of shared.now read)) }
{
    let mut work = read;
    let alloc = *work.output.allocator();
    let bytes = mem::replace(&mut work.output, Vec::new(alloc));
    work.output = sorted_text(alloc, order, bytes.as_slice())?;
    written_to(view, shared, &mut work, to)?;
    Ok(work.end())
}

// The lines of bytes in an order.
fn sorted_text(alloc: Global, order: SortOrder, bytes: &[u8]) -> Result<Vec<u8>, NoMemory>
    ensures { IfOk result (λ text. text.items ≡ sorted_text order bytes.now) }
{
    let mut lines = plain_lines(alloc, bytes)?;
    sort_lines(order, &mut lines)?;
    text_of_lines(alloc, lines.as_slice())
}

fn text_of_lines(alloc: Global, lines: &[Octets]) -> Result<Vec<u8>, NoMemory>
    ensures { IfOk result (λ text. text.items ≡ text_of_lines lines.now) }
{
    let mut text = Vec::new(alloc);
    for line in lines {
        text.extend_from_slice(line.as_bytes())?;
        text.push(b'\n')?;
    }
    Ok(text)
}
