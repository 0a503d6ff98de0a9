// Protect: the bits of objects.
ghost use Rattle.std.specs.{Prelude.{◌≡◌, IfOk}, Option.{option_copied}};
ghost use Rattle.ados_find.specs.Effects.{effect_of};

use crate::below::OnAll;
use crate::letters::{are_letters_of, has_letter, text_or_empty};
use crate::options::{PROTECT_ADD, PROTECT_ALL, PROTECT_FILE, PROTECT_FLAGS, PROTECT_SUB};
use ados_find::{Act, Codes, CommandResult, Outcome, Shared, ShellView, Work, current};
use ados_objects::{done_with_named, go_on};
use ados_ram::{Bits, Entry, Place};
use ados_readargs::Args;
use ados_text::{NoMemory, Result2};
use std::alloc::Global;

/// How the given bits change those of an object.
#[derive(Clone, Copy)]
pub enum Way {
    Set,
    Add,
    Take,
}

/// A change of bits.
#[derive(Clone, Copy)]
pub struct Change {
    pub way: Way,
    pub bits: Bits,
}

ghost use Rattle.ados_files.specs.Protect.{begins_with, flag_letters, bits_of, way_of, change_of, changed_bit, changed_bits, object_bits, protect_one, protect_row};

/// Protect changes the bits of objects.
pub fn protect(alloc: Global, shared: &Shared, view: &ShellView, args: &Args) -> CommandResult
    ensures { IfOk result (λ outcome. effect_of shared.now outcome ≡ protect_row shared.now view.now args.now) }
{
    let change = change_of(
        text_or_empty(args.text(PROTECT_FLAGS)),
        args.has_switch(PROTECT_ADD),
        args.has_switch(PROTECT_SUB),
    );
    let texts = args.made_texts(alloc, PROTECT_FILE)?;
    match change {
        Err(fault) => Ok(Outcome::answering(alloc, Codes::failed(fault))),
        Ok(change) => {
            let act = OnAll {
                all: args.has_switch(PROTECT_ALL),
                act: &change,
            };
            done_with_named(alloc, shared, view, &act, texts.as_slice())
        }
    }
}

// The change that the flags and the switches ask for.
fn change_of(flags: &[u8], add: bool, sub: bool) -> Result<Change, Result2>
    ensures { result ≡ change_of flags.now add sub }
{
    let letters = flag_letters(flags);
    if !are_letters_of(b"hsparwed", letters) {
        return Err(Result2::BAD_NUMBER);
    }
    match way_of(
        add || begins_with(b'+', flags),
        sub || begins_with(b'-', flags),
    ) {
        Err(fault) => Err(fault),
        Ok(way) => Ok(Change {
            way,
            bits: bits_of(letters),
        }),
    }
}

fn way_of(add: bool, sub: bool) -> Result<Way, Result2>
    ensures { result ≡ way_of add sub }
{
    match (add, sub) {
        (true, true) => Err(Result2::TOO_MANY_ARGUMENTS),
        (true, false) => Ok(Way::Add),
        (false, true) => Ok(Way::Take),
        (false, false) => Ok(Way::Set),
    }
}

// Whether the flags begin with this sign.
fn begins_with(sign: u8, flags: &[u8]) -> bool
    ensures { result ≡ begins_with sign flags.now }
{
    match flags.split_first() {
        None => false,
        Some((first, _)) => *first == sign,
    }
}

// The flags without a leading sign.
fn flag_letters(flags: &[u8]) -> &[u8]
    ensures { result.now ≡ flag_letters flags.now }
{
    if begins_with(b'+', flags) || begins_with(b'-', flags) {
        &flags[1..]
    } else {
        flags
    }
}

fn bits_of(letters: &[u8]) -> Bits
    ensures { result ≡ bits_of letters.now }
{
    Bits {
        hold: has_letter(b'h', letters),
        script: has_letter(b's', letters),
        pure: has_letter(b'p', letters),
        archive: has_letter(b'a', letters),
        read: has_letter(b'r', letters),
        write: has_letter(b'w', letters),
        execute: has_letter(b'e', letters),
        delete: has_letter(b'd', letters),
    }
}

fn changed_bit(way: Way, old: bool, given: bool) -> bool
    ensures { result ≡ changed_bit way old given }
{
    match way {
        Way::Set => given,
        Way::Add => old || given,
        Way::Take => old && !given,
    }
}

// The bits after a change.
fn changed_bits(change: Change, old: Bits) -> Bits
    ensures { result ≡ changed_bits change old }
{
    Bits {
        hold: changed_bit(change.way, old.hold, change.bits.hold),
        script: changed_bit(change.way, old.script, change.bits.script),
        pure: changed_bit(change.way, old.pure, change.bits.pure),
        archive: changed_bit(change.way, old.archive, change.bits.archive),
        read: changed_bit(change.way, old.read, change.bits.read),
        write: changed_bit(change.way, old.write, change.bits.write),
        execute: changed_bit(change.way, old.execute, change.bits.execute),
        delete: changed_bit(change.way, old.delete, change.bits.delete),
    }
}

// The bits of the object at a place.
fn object_bits(there: Option<&Entry>) -> Bits
    ensures { result ≡ object_bits (option_copied there.entry) }
{
    match there {
        None => Bits::FRESH,
        Some(entry) => entry.bits,
    }
}

impl Act<Place> for Change {
    ghost act = { λ s. protect_one s };

    // Changes the bits of one object.
    fn act(&self, shared: &Shared, work: &mut Work, place: &Place) -> Result<(), NoMemory> {
        let now = current(shared, &work.shared);
        let bits = changed_bits(*self, object_bits(now.ram.look(place)));
        let protected = now.ram.protect(place, bits);
        go_on(shared, work, protected)
    }
}
