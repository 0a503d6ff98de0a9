// The input of a command, and the arguments that it is asked for.
ghost use Rattle.std.specs.Prelude.{◌≡◌, IfOk};
ghost use Rattle.ados_items.specs.{Items.{IsWithin}, declared.items.Item.TheVariants.{Word}};
ghost use Rattle.ados_machine.specs.Prompts.{asks_behind_words, completed_args, completed_line, follows_equal_sign, is_last_query, is_question, is_too_long, last_query, lines_in, query_of};
ghost use Rattle.ados_flow.specs.Gathering.{is_end};
ghost use Rattle.ados_find.specs.Targets.{read_by, target_of};
ghost use Rattle.ados_ram.specs.FileOperations.{read_result};
ghost use Rattle.ados_text.specs.Stop.{Gives};

use ados_find::{Shared, Target, target_of};
use ados_items::{Item, between, blanks, next_item};
use ados_line::Line;
use ados_machine::{Builtin, Query};
use ados_ram::{Busy, Place};
use ados_resident::Dialect;
use ados_text::{LINE_BYTES, NoMemory, Result2, Stop, Text, Texts, lines_of};
use std::alloc::Global;

/// The lines of an input, from a current directory, while these outputs are open; NIL: has none.
///
/// 210 for a name that is not a path, what resolving refuses (204, 205, 212, 218), and what reading refuses (202, 205,
/// 212, 224).
pub fn input_lines(
    alloc: Global,
    shared: &Shared,
    busy: &Busy,
    directory: &Place,
    name: &Text,
) -> Result<Option<Texts>, Stop>
    ensures { Gives result (lines_in (read_by shared.now.files busy.now.outputs (target_of shared.now directory.now name.now))) }
{
    match target_of(alloc, shared, directory, name) {
        Err(fault) => Err(fault),
        Ok(Target::Nil) => Ok(Some(Texts::new(alloc))),
        Ok(Target::At(place)) => lines_at(alloc, shared, busy, &place),
    }
}

/// The lines of the file at a place.
fn lines_at(
    alloc: Global,
    shared: &Shared,
    busy: &Busy,
    place: &Place,
) -> Result<Option<Texts>, Stop>
    ensures { Gives result (lines_in (read_result shared.now.files busy.now.outputs place.now)) }
{
    match shared.ram.read(busy, place) {
        Err(fault) => Err(Stop::Refused(fault)),
        Ok(bytes) => Ok(Some(lines_of(alloc, &bytes.to_vec(alloc)?)?)),
    }
}

/// The `?` by which the arguments of a command ask for others in a dialect, if they do: alone, or, in Full and but for the
/// commands of the flow, as the last word of others.
#[tactic(auto, unfolding(ados_machine::specs::Prompts::query_of))]
pub fn query_of(dialect: Dialect, builtin: Builtin, args: &Text) -> Option<Query>
    ensures { result ≡ query_of dialect builtin args.now }
{
    let args = args.as_bytes();
    if is_question(args, next_item(args, 0)) {
        Some(Query::Alone)
    } else if asks_behind_words(dialect, builtin) {
        last_query(args)
    } else {
        None
    }
}

/// A `?` behind other words asks too.
fn asks_behind_words(dialect: Dialect, builtin: Builtin) -> bool
    ensures { result ≡ asks_behind_words dialect builtin }
{
    match (dialect, builtin) {
        (Dialect::Core, _) | (Dialect::Full, Builtin::Flow(_)) => false,
        (Dialect::Full, Builtin::Env(_) | Builtin::Files(_)) => true,
    }
}

/// The `?` that is the last word of arguments.
fn last_query(args: &[u8]) -> Option<Query>
    ensures { result ≡ last_query args.now }
{
    let mut place = 0;
    for step in 0..args.len() + 1 {
        match next_item(args, place) {
            Item::Word { from, to } => {
                if is_last_query(args, from, to) {
                    return Some(Query::Last { from, to });
                }
                place = to;
            }
            Item::Quoted { to, .. } => place = to + 1,
            Item::Equal(sign) => place = sign + 1,
            Item::End(_) => return None,
            Item::Unmatched(_) => return None,
        }
    }
    None
}

/// What is between these places is the `?` that is the last word.
fn is_last_query(args: &[u8], from: usize, to: usize) -> bool
    requires { IsWithin args.now (Word from to) }
    ensures { result ≡ is_last_query args.now from to }
{
    is_question(args, Item::Word { from, to }) && !follows_equal_sign(args, from)
}

/// An `=` touches what begins at a place, so that both are of one word.
fn follows_equal_sign(args: &[u8], place: usize) -> bool
    ensures { result ≡ follows_equal_sign args.now place }
{
    match args.get(place.saturating_sub(1)) {
        None => false,
        Some(byte) => *byte == b'=',
    }
}

/// The line with the arguments that an answer completes: it stands for them all, or for the `?` behind others.
///
/// 120 if there are more than 512 bytes from the first of the others to the end of the answer.
pub fn completed_line(alloc: Global, line: &Line, query: Query, answer: Text) -> Result<Line, Stop>
    ensures line { Gives result (completed_line line.now query answer) }
    ensures word { IfOk result (λ completed. completed.command ≡ line.now.command) }
{
    if is_too_long(query, line.args.as_bytes(), answer.as_bytes()) {
        return Err(Stop::Refused(Result2::LINE_TOO_LONG));
    }
    let args = completed_args(alloc, query, &line.args, answer)?;
    Ok(line.with_args(args)?)
}

fn is_too_long(query: Query, args: &[u8], answer: &[u8]) -> bool
    ensures { result ≡ is_too_long query args.now answer.now }
{
    match query {
        Query::Alone => false,
        Query::Last { from, .. } => {
            let others = from.saturating_sub(blanks(args));
            others.saturating_add(answer.len()) > LINE_BYTES
        }
    }
}

fn completed_args(alloc: Global, query: Query, args: &Text, answer: Text) -> Result<Text, NoMemory>
    ensures { IfOk result (λ completed. completed ≡ completed_args query args.now answer) }
{
    let Query::Last { from, to } = query else {
        return Ok(answer);
    };
    let args = args.as_bytes();
    let mut completed = Text::new(alloc);
    completed.push_bytes(between(args, 0, from))?;
    completed.push_bytes(answer.as_bytes())?;
    completed.push_bytes(between(args, to, args.len()))?;
    Ok(completed)
}

fn is_question(args: &[u8], item: Item) -> bool
    requires { IsWithin args.now item }
    ensures { result ≡ is_question args.now item }
{
    match item {
        Item::Word { from, to } => {
            to - from == 1 && args[from] == b'?' && is_end(next_item(args, to))
        }
        _ => false,
    }
}

/// Nothing more follows.
pub fn is_end(item: Item) -> bool
    ensures { result ≡ is_end item }
{
    match item {
        Item::End(_) => true,
        _ => false,
    }
}
