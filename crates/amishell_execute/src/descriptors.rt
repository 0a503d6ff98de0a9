//! The descriptors 0 to 2 that were closed when the program was started.

use std::fs::{File, OpenOptions};
use std::os::fd::AsRawFd;
use std::rt::Files;

// The last of the three descriptors that a program has from its beginning.
const STANDARD_ERROR: i32 = 2;

/// Opens /dev/null at those of the descriptors 0 to 2 that are closed: otherwise the pipe of a program would get such a number, and
/// with it what the script asks for, or prints. They are open as long as the files that are given are kept.
pub fn held_descriptors<R: AllocGlobal + Files<File = File>>(rt: &R) -> Vec<File> {
    let mut held = Vec::new(rt.alloc());
    let mut options = OpenOptions::new();
    options.read(true).write(true);
    for _ in 0..=STANDARD_ERROR {
        match options.open(rt, "/dev/null") {
            Ok(file) if file.as_raw_fd() <= STANDARD_ERROR => {
                let _ = held.push(file);
            }
            _ => return held,
        }
    }
    held
}
