// What a Run takes: the commands of the new shell.
ghost use Rattle.std.specs.{Prelude.{◌≡◌, ◌≤◌, ◌+◌, ◌-◌, ◌++◌, [], ◌∷◌, length, IfOk, OnOk}, Option.{option_map}};
ghost use Rattle.ados_flow.specs.Gathering.{has_no_command, before_plus, run_gathering, number_line, run_limit, without_plus};

use ados_items::{Item, next_item};
use ados_text::{NoMemory, Octets, Text, Texts, push_number};
use std::alloc::Global;

/// A new shell is given at most this many commands.
pub const RUN_LIMIT: usize = 32;

/// The commands of a Run.
#[derive(Drop)]
pub struct Gathered {
    /// Its own text, and each line that it took after that; none keeps the `+` by which it continued.
    pub commands: Texts,
    /// How many lines it took after its own text.
    pub taken: usize,
}

/// The text before the `+` that has only blanks after it: a text that has one continues in the next line. `None` if a
/// text has no such `+`.
#[tactic(auto, using(crate::proofs::GatheringLemmas::none_in_none, crate::proofs::GatheringLemmas::blank_after, crate::proofs::GatheringLemmas::plus_after, crate::proofs::GatheringLemmas::other_after))]
pub fn before_plus(mut text: &[u8]) -> Option<&[u8]>
    ensures { option_map (λ t. t.now) result ≡ before_plus text.entry.now }
{
    while let Some((last, front)) = text.split_last() {
        match *last {
            b' ' | b'\t' => text = front,
            b'+' => return Some(front),
            _ => return None,
        }
    }
    None
}

/// The text without the `+` by which it continues, if it has one.
#[tactic(auto, using(crate::proofs::GatheringLemmas::front_stays))]
pub fn without_plus(alloc: Global, text: &Text) -> Result<Text, NoMemory>
    ensures { IfOk result (λ front. front ≡ without_plus text.now) }
{
    match before_plus(text.as_bytes()) {
        None => text.copy(),
        Some(front) => Text::from_bytes(alloc, front),
    }
}

/// There is no command in the text, apart from its `+`.
#[tactic(auto, unfolding(crate::specs::Gathering::has_no_command))]
pub fn has_no_command(text: &Text) -> bool
    ensures { result ≡ has_no_command text.now }
{
    let text = text.as_bytes();
    let text = before_plus(text).unwrap_or(text);
    matches!(next_item(text, 0), Item::End(_))
}

/// The commands of a Run by its text and the lines after it: each text that continues takes one of these, up to 32
/// commands.
#[tactic(auto, using(crate::proofs::GatheringLemmas::went_on, crate::proofs::GatheringLemmas::took_none, crate::proofs::GatheringLemmas::none_left))]
pub fn gather<'a>(alloc: Global, text: &'a Text, lines: &'a [Text]) -> Result<Gathered, NoMemory>
    ensures value { IfOk result (λ g. g ≡ run_gathering (run_limit - 1) text.now lines.now) }
    ensures within { IfOk result (λ g. g.taken ≤ length lines.now) }
    ensures counted { IfOk result (λ g. length g.commands ≡ g.taken + 1) }
    ensures limited { IfOk result (λ g. length g.commands ≤ run_limit) }
{
    let mut commands = Texts::new(alloc);
    let mut last = text;
    let mut rest = lines;
    while let Some((line, after)) = rest.split_first()
        && commands.len() < RUN_LIMIT - 1
        && before_plus(last.as_bytes()).is_some()
    {
        push_front(alloc, &mut commands, last)?;
        last = line;
        rest = after;
    }
    let taken = commands.len();
    push_front(alloc, &mut commands, last)?;
    Ok(Gathered { commands, taken })
}

// Adds a text without the `+` by which it continues.
fn push_front(alloc: Global, commands: &mut Texts, text: &Text) -> Result<(), NoMemory>
    ensures { OnOk result (commands.new ≡ commands.old ++ without_plus text.now ∷ []) }
{
    let front = without_plus(alloc, text)?;
    commands.push(front)
}

/// What Run prints: the number of the new shell, `[CLI n]`, and a newline.
pub fn number_line(alloc: Global, number: u8) -> Result<Octets, NoMemory>
    ensures { IfOk result (λ bytes. bytes ≡ number_line number) }
{
    let mut bytes = Vec::new(alloc);
    bytes.extend_from_slice(b"[CLI ")?;
    push_number(&mut bytes, i32::from(number))?;
    bytes.extend_from_slice(b"]\n")?;
    Ok(Octets::from_vec(bytes))
}
