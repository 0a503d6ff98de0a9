//! The output of `amishell-bring`: a file, in pieces.
ghost use Rattle.std.specs.Prelude.{◌≡◌, ◌≤◌, length, true};
ghost use Rattle.ados_machine.specs.Children.{answers_read};

use ados_machine::Answer;
use ados_ram::FileBytes;
use ados_text::{Octets, PIECE_BYTES};
use std::alloc::Global;

/// A file that is being printed.
#[derive(Drop)]
pub struct Delivery {
    // The shell of the command that prints it.
    shell: u8,
    bytes: FileBytes,
    // The block and the piece of it that are printed next, and how many bytes of that piece were printed.
    block: usize,
    piece: usize,
    from: usize,
}

impl Delivery {
    /// These bytes, of which nothing is printed yet, for the command of a shell.
    pub fn new(shell: u8, bytes: FileBytes) -> Delivery {
        Delivery {
            shell,
            bytes,
            block: 0,
            piece: 0,
            from: 0,
        }
    }

    /// The command of this shell prints it.
    pub fn is_of(&self, shell: u8) -> bool {
        self.shell == shell
    }

    /// The next piece, or the end.
    pub fn next(&mut self, alloc: Global) -> Answer
        ensures { answers_read result ≡ true }
    {
        let Some(block) = self.bytes.blocks().get(self.block) else {
            return Answer::End;
        };
        let pieces = block.pieces();
        let Some(piece) = pieces.get(self.piece) else {
            return Answer::End;
        };
        let rest = piece.as_bytes().get(self.from..).unwrap_or(&[]);
        let length = rest.len().min(PIECE_BYTES);
        let answer = piece_of(alloc, &rest[..length]);
        let is_printed = length == rest.len();
        let is_last = self.piece.saturating_add(1) >= pieces.len();
        self.go_on(length, is_printed, is_last);
        answer
    }

    // So many bytes of a piece were printed. With all of it begins the next one, of the next block if it was the last of its own.
    fn go_on(&mut self, length: usize, is_printed: bool, is_last: bool) {
        if !is_printed {
            self.from = self.from.saturating_add(length);
            return;
        }
        self.from = 0;
        if is_last {
            self.piece = 0;
            self.block = self.block.saturating_add(1);
        } else {
            self.piece = self.piece.saturating_add(1);
        }
    }
}

// The answer with these bytes of an output, or its end if there are none.
fn piece_of(alloc: Global, bytes: &[u8]) -> Answer
    requires { length bytes.now ≤ 4096 }
    ensures { answers_read result ≡ true }
{
    if bytes.is_empty() {
        return Answer::End;
    }
    match bytes.to_vec(alloc) {
        Ok(bytes) => Answer::Bytes(Octets::from_vec(bytes)),
        Err(_) => Answer::PipeFault,
    }
}
