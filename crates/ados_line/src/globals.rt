// Lines that ask for a global variable.
ghost use Rattle.std.specs.Prelude.{◌≡◌, IfOk};
ghost use Rattle.ados_text.specs.Text.{IsText};
ghost use Rattle.ados_vars.specs.Locals.{shown_pairs};
ghost use Rattle.ados_line.specs.{Globals.{asks_beyond, asks_global, is_beyond}, Letters.{letters_of}, Values.{reference}};

use crate::aliases::replace_alias;
use crate::comments::without_comment;
use crate::letters::{Letter, read_letters};
use crate::references::{find_reference, is_plain};
use crate::scopes::Scope;
use crate::spelling::push_spelled;
use ados_text::{Name, NoMemory, Text};

/// Whether a raw line refers to a variable that is not one of the shell's own, so that it is looked for among the global
/// ones. For a line without a `$`, in a shell without aliases, nothing else is looked at.
#[tactic(auto, unfolding(crate::specs::Globals::asks_global), using(crate::proofs::GlobalLemmas::plain_line))]
pub fn asks_global(scope: &Scope, raw: &Text) -> Result<bool, NoMemory>
    ensures { IfOk result (λ asks. asks ≡ asks_global scope.now.aliases.now (shown_pairs scope.now.locals.now scope.now.code scope.now.result2) raw.now) }
{
    let bytes = raw.as_bytes();
    if scope.aliases.list().is_empty() && !bytes.contains(&b'$') {
        return Ok(false);
    }
    let line = without_comment(bytes);
    match replace_alias(scope.alloc, scope.aliases, line)? {
        None => asks_in(scope, line),
        Some(text) => asks_in(scope, text.as_bytes()),
    }
}

// The same for a line whose alias has been expanded.
fn asks_in(scope: &Scope, line: &[u8]) -> Result<bool, NoMemory>
    requires { IsText line.now }
    ensures { IfOk result (λ asks. asks ≡ asks_beyond (shown_pairs scope.now.locals.now scope.now.code scope.now.result2) (letters_of line.now)) }
{
    asks_among(scope, &read_letters(scope.alloc, line)?)
}

// Whether one of the characters begins such a reference.
fn asks_among(scope: &Scope, letters: &[Letter]) -> Result<bool, NoMemory>
    ensures { IfOk result (λ asks. asks ≡ asks_beyond (shown_pairs scope.now.locals.now scope.now.code scope.now.result2) letters.now) }
{
    for place in 0..letters.len() {
        if is_plain(letters[place], b'$') && is_beyond(scope, &letters[place + 1..])? {
            return Ok(true);
        }
    }
    Ok(false)
}

// Whether the reference whose `$` is before these characters names a variable that is not the shell's own.
fn is_beyond(scope: &Scope, rest: &[Letter]) -> Result<bool, NoMemory>
    ensures { IfOk result (λ beyond. beyond ≡ is_beyond (shown_pairs scope.now.locals.now scope.now.code scope.now.result2) rest.now (reference rest.now)) }
{
    match find_reference(rest) {
        None => Ok(false),
        Some(r) => {
            let mut name = Text::new(scope.alloc);
            push_spelled(&mut name, &rest[r.from..r.to])?;
            let value = scope
                .locals
                .get(&Name::new(name), scope.code, scope.result2)?;
            Ok(value.is_none())
        }
    }
}
