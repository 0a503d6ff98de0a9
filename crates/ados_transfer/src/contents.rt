//! How a file of this machine is read.

use ados_ram::FileBytes;
use std::alloc::Global;
use std::io::Read;
use std::rt::Files;
use std::{fs, io};

// So many bytes are read at once, as many as a block of the Shell's files has: a large file is not held twice.
const PART: u64 = 262_144;

/// The bytes of a file, or one more than the limit if it is longer.
pub fn bytes_of<R: AllocGlobal + Files>(rt: &R, path: &str, limit: usize) -> io::Result<Vec<u8>> {
    let mut bytes = Vec::new(rt.alloc());
    let most = (limit as u64).saturating_add(1);
    fs::open(rt, path)?.take(most).read_to_end(&mut bytes)?;
    Ok(bytes)
}

/// The same, as a file of the Shell holds them.
pub fn contents_of<R: AllocGlobal + Files>(
    rt: &R,
    path: &str,
    limit: usize,
) -> io::Result<FileBytes> {
    let most = (limit as u64).saturating_add(1);
    rest_of(rt.alloc(), &mut fs::open(rt, path)?.take(most))
}

// What is left of a source.
fn rest_of<S: Read>(alloc: Global, source: &mut S) -> io::Result<FileBytes> {
    let mut contents = FileBytes::empty(alloc)?;
    let mut part = Vec::new(alloc);
    for _ in 0..u64::MAX {
        part.clear();
        source.take(PART).read_to_end(&mut part)?;
        if part.is_empty() {
            break;
        }
        contents = contents.append(&part)?;
    }
    Ok(contents)
}
