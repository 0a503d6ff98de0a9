// The answers that a recording writes.
ghost use Rattle.std.specs.Prelude.{◌≡◌, IfOk};
ghost use Rattle.ados_text.specs.Text.{IsText};
ghost use Rattle.hex.specs.Hex.{decode_of};
ghost use Rattle.ados_session.specs.Answers.{answer_of, bytes_answer, piece, plain_answer, status_from_digits, valued_answer};

use crate::parts::{parted, unsigned_number};
use ados_text::{NoMemory, Octets, PIECE_BYTES};
use ados_world::Answer;
use hex::FromHexError;
use std::alloc::Global;

/// The answer that a text writes, if it writes one.
pub fn answer_of(alloc: Global, text: &[u8]) -> Result<Option<Answer>, NoMemory>
    requires { IsText text.now }
    ensures { IfOk result (λ answer. answer ≡ answer_of text.now) }
{
    match parted(text) {
        Some((word, value)) => valued_answer(alloc, word, value),
        None => Ok(plain_answer(text)),
    }
}

// The answer of a word alone.
fn plain_answer(word: &[u8]) -> Option<Answer>
    ensures { result ≡ plain_answer word.now }
{
    if word == b"started".as_slice() {
        Some(Answer::Started)
    } else if word == b"notfound".as_slice() {
        Some(Answer::NotFound)
    } else if word == b"denied".as_slice() {
        Some(Answer::Denied)
    } else if word == b"memory".as_slice() {
        Some(Answer::Memory)
    } else if word == b"other".as_slice() {
        Some(Answer::Other)
    } else if word == b"end".as_slice() {
        Some(Answer::End)
    } else if word == b"pipefault".as_slice() {
        Some(Answer::PipeFault)
    } else if word == b"signal".as_slice() {
        Some(Answer::Signal)
    } else if word == b"waitfault".as_slice() {
        Some(Answer::WaitFault)
    } else {
        None
    }
}

// The answer of a word that is followed by a value.
fn valued_answer(alloc: Global, word: &[u8], value: &[u8]) -> Result<Option<Answer>, NoMemory>
    ensures { IfOk result (λ answer. answer ≡ valued_answer word.now value.now) }
{
    if word == b"exit".as_slice() {
        Ok(status_from_digits(value).map(Answer::Exit))
    } else if word == b"bytes".as_slice() {
        bytes_answer(alloc, value)
    } else {
        Ok(None)
    }
}

// The exit status that digits write: 0 to 255.
fn status_from_digits(digits: &[u8]) -> Option<u8>
    ensures { result ≡ status_from_digits digits.now }
{
    unsigned_number(digits).and_then(|number| u8::try_from(number).ok())
}

// The answer of bytes in hexadecimal digits, of 1 to 4,096.
fn bytes_answer(alloc: Global, digits: &[u8]) -> Result<Option<Answer>, NoMemory>
    ensures { IfOk result (λ answer. answer ≡ bytes_answer (decode_of digits.now)) }
{
    match hex::decode(alloc, digits) {
        Ok(bytes) => Ok(piece(bytes)),
        Err(FromHexError::OutOfMemory) => Err(NoMemory),
        Err(_) => Ok(None),
    }
}

// The answer of these bytes, if they are 1 to 4,096.
fn piece(bytes: Vec<u8>) -> Option<Answer>
    ensures { result ≡ piece bytes.items }
{
    if bytes.is_empty() || bytes.len() > PIECE_BYTES {
        None
    } else {
        Some(Answer::Bytes(Octets::from_vec(bytes)))
    }
}
