//! The units of a file: pieces, and blocks of pieces. Both are shared.
ghost use Rattle.std.specs.{Prelude.{◌≡◌, ◌++◌, IfOk, OnOk}, List.{concat}, Str.{bytes_eq}, Cmp.{partial_equiv_from_equiv}, Option.{option_copied}};
ghost use Rattle.std.proofs.lemmas.Cmp.{nat_list_eq_equiv};
ghost use Rattle.ados_ram.specs.{Cut.{IsCut, piece_bytes, block_bytes}, Starts.{left_of}};

use ados_text::NoMemory;
use std::alloc::Global;
use std::marker::Model;
use std::rc::Rc;

/// The most bytes of a piece.
pub const PIECE_BYTES: usize = 4096;

/// The most pieces of a block.
pub const BLOCK_PIECES: usize = 64;

/// Some consecutive bytes of a file.
#[derive(Drop)]
pub struct Piece {
    bytes: Rc<Vec<u8>>,
}

/// Some consecutive pieces of a file.
#[derive(Drop)]
pub struct Block {
    pieces: Rc<Vec<Piece>>,
}

impl Model for Piece {
    ghost use Rattle.std.specs.Prelude.{List, ℕ};

    ghost Value = { List ℕ };

    ghost view = { λ p. p.bytes.value.items };
}

impl Model for Block {
    ghost use Rattle.std.specs.{Prelude.{List, ℕ}, List.{concat}};

    ghost Value = { List ℕ };

    ghost view = { λ b. concat b.pieces.value.items };

    ghost use Rattle.ados_ram.specs.Cut.{IsCut, piece_bytes};

    ghost invariant = { λ b. IsCut piece_bytes b.pieces.value.items };
}

impl Piece {
    /// Some bytes, followed by more.
    pub(crate) fn joined(alloc: Global, kept: &[u8], more: &[u8]) -> Result<Piece, NoMemory>
        ensures { IfOk result (λ piece. piece ≡ kept.now ++ more.now) }
    {
        let mut bytes = Vec::with_capacity(alloc, kept.len().saturating_add(more.len()))?;
        bytes.extend_from_slice(kept)?;
        bytes.extend_from_slice(more)?;
        Ok(Piece {
            bytes: Rc::new(alloc, bytes)?,
        })
    }

    /// The same piece, shared.
    pub(crate) fn share(&self) -> Result<Piece, NoMemory>
        ensures { IfOk result (λ piece. piece ≡ self.now) }
    {
        Ok(Piece {
            bytes: self.bytes.clone()?,
        })
    }

    /// The bytes.
    pub fn as_bytes(&self) -> &[u8]
        ensures { result.now ≡ self.now }
    {
        self.bytes.as_slice()
    }
}

impl Block {
    /// These pieces.
    pub(crate) fn new(pieces: Vec<Piece>) -> Result<Block, NoMemory>
        requires { IsCut piece_bytes pieces.items }
        ensures { IfOk result (λ block. block ≡ concat pieces.items) }
    {
        Ok(Block {
            pieces: Rc::new(*pieces.allocator(), pieces)?,
        })
    }

    /// The same block, shared.
    pub(crate) fn share(&self) -> Result<Block, NoMemory>
        ensures { IfOk result (λ block. block ≡ self.now) }
    {
        Ok(Block {
            pieces: self.pieces.clone()?,
        })
    }

    /// The pieces, in order: each of 4,096 bytes, but for the last, which may have fewer.
    pub fn pieces(&self) -> &[Piece]
        ensures bytes { concat result.now ≡ self.now }
        ensures cut { IsCut piece_bytes result.now }
    {
        &self.pieces
    }
}

impl PartialEq for Piece {
    ghost eq = { bytes_eq };

    ghost laws = { partial_equiv_from_equiv nat_list_eq_equiv };

    fn eq(&self, other: &Piece) -> bool {
        self.bytes.as_slice() == other.bytes.as_slice()
    }
}

impl Eq for Piece {
    ghost laws = { nat_list_eq_equiv };
}

impl PartialEq for Block {
    ghost eq = { bytes_eq };

    ghost laws = { partial_equiv_from_equiv nat_list_eq_equiv };

    fn eq(&self, other: &Block) -> bool {
        is_same_pieces(self.pieces(), other.pieces())
    }
}

impl Eq for Block {
    ghost laws = { nat_list_eq_equiv };
}

// Whether pieces hold the same bytes.
#[tactic(auto, using(crate::proofs::CutLemmas::same_bytes))]
fn is_same_pieces(a: &[Piece], b: &[Piece]) -> bool
    requires a { IsCut piece_bytes a.now }
    requires b { IsCut piece_bytes b.now }
    ensures { result ≡ bytes_eq (concat a.now) (concat b.now) }
{
    a == b
}

/// Whether blocks hold the same bytes.
#[tactic(auto, using(crate::proofs::CutLemmas::same_bytes))]
pub fn is_same_blocks(a: &[Block], b: &[Block]) -> bool
    requires a { IsCut block_bytes a.now }
    requires b { IsCut block_bytes b.now }
    ensures { result ≡ bytes_eq (concat a.now) (concat b.now) }
{
    a == b
}

// What is left of the bytes that are wanted, behind these; none if they differ.
fn left_of<'a>(bytes: &[u8], wanted: &'a [u8]) -> Option<&'a [u8]>
    ensures { option_copied result ≡ left_of bytes.now wanted.now }
{
    if bytes.len() < wanted.len() {
        return wanted.strip_prefix(bytes);
    }
    if bytes.starts_with(wanted) {
        Some(&[])
    } else {
        None
    }
}

// The same behind a block.
fn left_of_block<'a>(block: &Block, wanted: &'a [u8]) -> Option<&'a [u8]>
    ensures { option_copied result ≡ left_of block.now wanted.now }
{
    let mut wanted = wanted;
    for piece in block.pieces() {
        let Some(rest) = left_of(piece.as_bytes(), wanted) else {
            return None;
        };
        wanted = rest;
    }
    Some(wanted)
}

/// The same behind blocks.
pub fn left_of_blocks<'a>(blocks: &[Block], wanted: &'a [u8]) -> Option<&'a [u8]>
    ensures { option_copied result ≡ left_of (concat blocks.now) wanted.now }
{
    let mut wanted = wanted;
    for block in blocks {
        let Some(rest) = left_of_block(block, wanted) else {
            return None;
        };
        wanted = rest;
    }
    Some(wanted)
}

/// Appends pieces, shared.
pub fn share_pieces(out: &mut Vec<Piece>, pieces: &[Piece]) -> Result<(), NoMemory>
    ensures { OnOk result (out.new.items ≡ out.old.items ++ pieces.now) }
{
    for piece in pieces {
        out.push(piece.share()?)?;
    }
    Ok(())
}

/// Appends blocks, shared.
pub fn share_blocks(out: &mut Vec<Block>, blocks: &[Block]) -> Result<(), NoMemory>
    ensures { OnOk result (out.new.items ≡ out.old.items ++ blocks.now) }
{
    for block in blocks {
        out.push(block.share()?)?;
    }
    Ok(())
}
