//! `--error`: a command has one code.

use crate::given::{host_name, is_host_among};
use crate::mistakes::bad_line;
use crate::request::Refused;
use clap::ArgMatches;
use std::alloc::Global;

/// Refuses words of `--error` by which a command has two codes: which of them was meant is not known. What is typed may have another
/// code for one of the file.
pub fn check_errors(alloc: Global, found: &ArgMatches<'_>) -> Result<(), Refused> {
    let all = found.get_strs("error").unwrap_or(&[]);
    for (place, words) in all.iter().enumerate() {
        if is_host_among(all.get(..place).unwrap_or(&[]), words) {
            let name = host_name(words);
            return Err(bad_line(format!(in alloc; "--error is given twice for {name}")));
        }
    }
    Ok(())
}
