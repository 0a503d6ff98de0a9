//! The bytes of a file that is being made.
ghost use Rattle.std.specs.{Prelude.{◌≡◌, ◌<◌, ◌≤◌, ◌++◌, [], length, IfOk, OnOk}, List.{concat}};
ghost use Rattle.ados_ram.specs.Cut.{AllOf, IsCut, IsDraft, piece_bytes, block_bytes};

use crate::file_units::{BLOCK_PIECES, Block, PIECE_BYTES, Piece, share_blocks, share_pieces};
use ados_text::NoMemory;
use std::alloc::Global;

/// Blocks that are done, and the pieces of the last one.
#[derive(Drop)]
pub struct Draft {
    blocks: Vec<Block>,
    pieces: Vec<Piece>,
    alloc: Global,
}

impl Draft {
    /// The bytes of these blocks. The pieces of the last block are shared, and so are the other blocks.
    pub fn reopened(alloc: Global, blocks: &[Block]) -> Result<Draft, NoMemory>
        requires { IsCut block_bytes blocks.now }
        ensures bytes { IfOk result (λ draft. concat draft.blocks.items ++ concat draft.pieces.items ≡ concat blocks.now) }
        ensures cut { IfOk result (λ draft. IsDraft draft.blocks.items draft.pieces.items) }
    {
        let Some((last, before)) = blocks.split_last() else {
            return Ok(Draft {
                blocks: Vec::new(alloc),
                pieces: Vec::new(alloc),
                alloc,
            });
        };
        let mut shared = Vec::with_capacity(alloc, blocks.len())?;
        share_blocks(&mut shared, before)?;
        let there = last.pieces();
        let mut pieces = Vec::with_capacity(alloc, there.len().saturating_add(1))?;
        share_pieces(&mut pieces, there)?;
        Ok(Draft {
            blocks: shared,
            pieces,
            alloc,
        })
    }

    /// Appends bytes.
    pub fn push(&mut self, more: &[u8]) -> Result<(), NoMemory>
        requires { IsDraft self.old.blocks.items self.old.pieces.items }
        ensures bytes { OnOk result (concat self.new.blocks.items ++ concat self.new.pieces.items ≡ (concat self.old.blocks.items ++ concat self.old.pieces.items) ++ more.now) }
        ensures cut { OnOk result (IsDraft self.new.blocks.items self.new.pieces.items) }
    {
        let mut rest = self.fill(more)?;
        while !rest.is_empty() {
            let (part, after) = rest.split_at(rest.len().min(PIECE_BYTES));
            self.push_piece(Piece::joined(self.alloc, part, &[])?)?;
            rest = after;
        }
        Ok(())
    }

    // Appends the first bytes to the last piece, as many as it has room for. Gives those that are left.
    fn fill<'a>(&mut self, more: &'a [u8]) -> Result<&'a [u8], NoMemory>
        requires { IsDraft self.old.blocks.items self.old.pieces.items }
        ensures bytes { IfOk result (λ rest. (concat self.new.blocks.items ++ concat self.new.pieces.items) ++ rest.now ≡ (concat self.old.blocks.items ++ concat self.old.pieces.items) ++ more.now) }
        ensures cut { IfOk result (λ rest. IsDraft self.new.blocks.items self.new.pieces.items) }
        ensures full { IfOk result (λ rest. 0 < length rest.now → AllOf piece_bytes self.new.pieces.items) }
    {
        let Some(last) = self.pieces.pop() else {
            return Ok(more);
        };
        let room = PIECE_BYTES.saturating_sub(last.as_bytes().len());
        let (part, rest) = more.split_at(more.len().min(room));
        let piece = Piece::joined(self.alloc, last.as_bytes(), part)?;
        self.pieces.push(piece)?;
        Ok(rest)
    }

    // Appends a piece.
    fn push_piece(&mut self, piece: Piece) -> Result<(), NoMemory>
        requires cut { IsDraft self.old.blocks.items self.old.pieces.items }
        requires full { AllOf piece_bytes self.old.pieces.items }
        requires some { 0 < length piece }
        requires most { length piece ≤ piece_bytes }
        ensures bytes { OnOk result (concat self.new.blocks.items ++ concat self.new.pieces.items ≡ (concat self.old.blocks.items ++ concat self.old.pieces.items) ++ piece) }
        ensures cut { OnOk result (IsDraft self.new.blocks.items self.new.pieces.items) }
        ensures full { OnOk result (length piece ≡ piece_bytes → AllOf piece_bytes self.new.pieces.items) }
    {
        self.make_room()?;
        self.pieces.push(piece)?;
        Ok(())
    }

    // Makes a block of the pieces if there are as many as a block may have.
    fn make_room(&mut self) -> Result<(), NoMemory>
        requires cut { IsDraft self.old.blocks.items self.old.pieces.items }
        requires full { AllOf piece_bytes self.old.pieces.items }
        ensures bytes { OnOk result (concat self.new.blocks.items ++ concat self.new.pieces.items ≡ concat self.old.blocks.items ++ concat self.old.pieces.items) }
        ensures blocks { OnOk result (AllOf block_bytes self.new.blocks.items) }
        ensures pieces { OnOk result (AllOf piece_bytes self.new.pieces.items) }
        ensures few { OnOk result (length self.new.pieces.items < 64) }
    {
        if self.pieces.len() < BLOCK_PIECES {
            return Ok(());
        }
        self.close_block()
    }

    // Makes a block of the pieces.
    fn close_block(&mut self) -> Result<(), NoMemory>
        requires blocks { AllOf block_bytes self.old.blocks.items }
        requires pieces { AllOf piece_bytes self.old.pieces.items }
        requires count { length self.old.pieces.items ≡ 64 }
        ensures bytes { OnOk result (concat self.new.blocks.items ≡ concat self.old.blocks.items ++ concat self.old.pieces.items) }
        ensures blocks { OnOk result (AllOf block_bytes self.new.blocks.items) }
        ensures pieces { OnOk result (self.new.pieces.items ≡ []) }
    {
        let pieces = std::mem::replace(&mut self.pieces, Vec::new(self.alloc));
        self.blocks.push(Block::new(pieces)?)?;
        Ok(())
    }

    /// The blocks.
    pub fn into_blocks(self) -> Result<Vec<Block>, NoMemory>
        requires { IsDraft self.blocks.items self.pieces.items }
        ensures bytes { IfOk result (λ blocks. concat blocks.items ≡ concat self.blocks.items ++ concat self.pieces.items) }
        ensures cut { IfOk result (λ blocks. IsCut block_bytes blocks.items) }
    {
        let mut blocks = self.blocks;
        if self.pieces.is_empty() {
            return Ok(blocks);
        }
        blocks.push(Block::new(self.pieces)?)?;
        Ok(blocks)
    }
}
