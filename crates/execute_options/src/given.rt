//! What the command line and a file of options give together.
ghost use Rattle.std.specs.{Prelude.{◌≡◌, ◌++◌, IfOk, codes, false, filter, map, not, true}, Option.{option_map, option_or}};
ghost use Rattle.clap.specs.Matches.{first_value, found_of};
ghost use Rattle.execute_options.specs.Given.{IsFlagOf, IsLeftOutOf, host_name, hosts_of, is_host_among, shares_of, values_of};

use crate::table::name_of;
use ados_text::same_name;
use clap::ArgMatches;
use std::alloc::{AllocError, Global};

/// The options of the command line and those of a file.
#[derive(Drop)]
pub struct Given<'a> {
    /// What `clap` finds in the words of the command line.
    pub typed: ArgMatches<'a>,
    /// What it finds in the options of the file.
    pub file: ArgMatches<'a>,
}

impl<'a> Given<'a> {
    /// Whether an option without a value is given: on the command line or in the file.
    pub fn get_flag(&self, name: &str) -> bool
        ensures typed { IsFlagOf (found_of self.now.typed) name.now → result ≡ true }
        ensures file { IsFlagOf (found_of self.now.file) name.now → result ≡ true }
        ensures neither { IsLeftOutOf (found_of self.now.typed) name.now → IsLeftOutOf (found_of self.now.file) name.now → result ≡ false }
    {
        has_flag(&self.typed, name) || has_flag(&self.file, name)
    }

    /// The value of an option: that of the command line, if it has one.
    pub fn get_str(&self, name: &str) -> Option<&'a str>
        ensures { option_map (λ value. value.now) result ≡ option_or (first_value (found_of self.now.typed) name.now) (first_value (found_of self.now.file) name.now) }
    {
        match self.typed.get_str(name) {
            Some(value) => Some(value),
            None => self.file.get_str(name),
        }
    }

    /// The values of an option that may be given again, those of the file first.
    pub fn list(&self, alloc: Global, name: &str) -> Result<Vec<&'a str>, AllocError>
        ensures { IfOk result (λ values. map (λ value. value.now) values.items ≡ values_of (found_of self.now.file) name.now ++ values_of (found_of self.now.typed) name.now) }
    {
        let mut values = self.file.get_strs(name).unwrap_or(&[]).to_vec(alloc)?;
        values.extend_from_slice(self.typed.get_strs(name).unwrap_or(&[]))?;
        Ok(values)
    }

    /// The commands of `--host`. One of the file gives way to one of that name of the command line.
    pub fn hosts(&self, alloc: Global) -> Result<Vec<&'a str>, AllocError>
        ensures { IfOk result (λ hosts. map (λ words. words.now) hosts.items ≡ hosts_of (values_of (found_of self.now.file) (codes "host")) (values_of (found_of self.now.typed) (codes "host"))) }
    {
        let typed = self.typed.get_strs("host").unwrap_or(&[]);
        let file = self.file.get_strs("host").unwrap_or(&[]);
        let mut hosts = hosts_beside(alloc, file, typed)?;
        hosts.extend_from_slice(typed)?;
        Ok(hosts)
    }

    /// The words of `--share`: those of the command line, if it has any. Whoever names a folder there wants no other one changed.
    pub fn shares(&self, alloc: Global) -> Result<Vec<&'a str>, AllocError>
        ensures { IfOk result (λ shares. map (λ words. words.now) shares.items ≡ shares_of (values_of (found_of self.now.file) (codes "share")) (values_of (found_of self.now.typed) (codes "share"))) }
    {
        let typed = self.typed.get_strs("share").unwrap_or(&[]);
        if typed.is_empty() {
            self.file.get_strs("share").unwrap_or(&[]).to_vec(alloc)
        } else {
            typed.to_vec(alloc)
        }
    }

    /// Whether lines that must not be run as they are run all the same: `--strict` of the command line undoes `--lenient`, wherever that is.
    pub fn is_lenient(&self) -> bool
        ensures typed { IsFlagOf (found_of self.now.typed) (codes "lenient") → IsLeftOutOf (found_of self.now.typed) (codes "strict") → result ≡ true }
        ensures file { IsFlagOf (found_of self.now.file) (codes "lenient") → IsLeftOutOf (found_of self.now.typed) (codes "strict") → result ≡ true }
        ensures strict { IsFlagOf (found_of self.now.typed) (codes "strict") → result ≡ false }
        ensures neither { IsLeftOutOf (found_of self.now.typed) (codes "lenient") → IsLeftOutOf (found_of self.now.file) (codes "lenient") → result ≡ false }
    {
        !has_flag(&self.typed, "strict")
            && (has_flag(&self.typed, "lenient") || has_flag(&self.file, "lenient"))
    }
}

/// Whether an option without a value is among those that `clap` found.
pub fn has_flag(found: &ArgMatches<'_>, name: &str) -> bool
    ensures given { IsFlagOf (found_of found.now) name.now → result ≡ true }
    ensures left_out { IsLeftOutOf (found_of found.now) name.now → result ≡ false }
{
    found.get_flag(name)
}

// The words of a file's `--host` whose commands the command line does not name.
fn hosts_beside<'a>(
    alloc: Global,
    file: &[&'a str],
    typed: &[&str],
) -> Result<Vec<&'a str>, AllocError>
    ensures { IfOk result (λ hosts. map (λ words. words.now) hosts.items ≡ filter (λ words. not (is_host_among (map (λ words. words.now) typed.now) words)) (map (λ words. words.now) file.now)) }
{
    file.iter()
        .filter(|words| !is_host_among(typed, words))
        .copied()
        .collect(alloc)
}

/// Other words of `--host`, or of `--error`, are of the same command.
pub fn is_host_among(others: &[&str], words: &str) -> bool
    ensures { result ≡ is_host_among (map (λ words. words.now) others.now) words.now }
{
    others.iter().any(|other| same_name(host_name(words).as_bytes(), host_name(other).as_bytes()))
}

/// The command's name in words of `--host` or of `--error`.
pub fn host_name(words: &str) -> &str
    ensures { result.now ≡ host_name words.now }
{
    name_of(words)
}
