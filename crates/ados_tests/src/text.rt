// Texts and lists of them.
use crate::wrong::{Wrong, expect};
use ados_text::{NoMemory, Octets, Text, TextFault, Texts};
use std::alloc::Global;

// The place of the first byte above ASCII. `NoMemory` is passed on.
fn past_ascii(alloc: Global, bytes: &[u8]) -> Result<Option<usize>, NoMemory> {
    match Text::of(alloc, bytes) {
        Ok(_) => Ok(None),
        Err(TextFault::NotAscii(place)) => Ok(Some(place)),
        Err(TextFault::NoMemory) => Err(NoMemory),
    }
}

#[test]
fn a_byte_past_ascii_is_named(rt: HostRuntime) -> Result<(), Wrong> {
    expect(past_ascii(rt.alloc(), b"a\xC8")? == Some(1), "a\\xC8")?;
    expect(past_ascii(rt.alloc(), b"RAM")?.is_none(), "RAM")
}

fn copied_list(alloc: Global) -> Result<Texts, NoMemory> {
    let mut texts = Texts::new(alloc);
    texts.push(Text::from_bytes(alloc, b"one")?)?;
    texts.push(Text::from_bytes(alloc, b"two")?)?;
    texts.copy()
}

// The list has two texts, which are these.
fn are_two(texts: &Texts, first: &[u8], second: &[u8]) -> bool {
    match texts.as_slice() {
        [a, b] => a.as_bytes() == first && b.as_bytes() == second,
        _ => false,
    }
}

fn copied_octets(alloc: Global) -> Result<Octets, NoMemory> {
    Octets::from_vec(Vec::from_slice(alloc, b"\x00\xFF")?).copy()
}

#[test]
fn lists_and_octets_are_copied(rt: HostRuntime) -> Result<(), Wrong> {
    let alloc = rt.alloc();
    expect(are_two(&copied_list(alloc)?, b"one", b"two"), "a list")?;
    expect(
        copied_octets(alloc)?.as_bytes() == b"\x00\xFF".as_slice(),
        "octets",
    )
}
