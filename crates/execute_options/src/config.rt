//! The file of options: which one is read, and what is wrong with its lines.
ghost use Rattle.std.specs.{Prelude.{◌≡◌, [], IfOk, IfSome, OnOk, codes, is_ok, option_map, string_bytes, true}, List.{list_all}};
ghost use Rattle.clap.specs.Matches.{first_value, found_of};
ghost use Rattle.ados_transfer.specs.Paths.{path_in};
ghost use Rattle.execute_options.specs.{Config.{file_of, lines_of}, Given.{IsFlagOf, IsLeftOutOf}, Names.{is_typed_alone, may_stand_in_file}, Numbers.{AreInRange, numbers_of}, OptionLines.{absolute, default_path}};

use crate::command::matches_of_options;
use crate::error_names::check_errors;
use crate::faults::OptionsFault;
use crate::given::has_flag;
use crate::mistakes::{bad_line, refusal};
use crate::numbers::Numbers;
use crate::option_lines::{OptionLine, options_of};
use crate::request::Refused;
use crate::table::name_of;
use crate::unread::bytes_within;
use ados_session::FileFault;
use ados_text::NoMemory;
use ados_transfer::step_into;
use clap::ArgMatches;
use std::alloc::Global;
use std::convert::AsStr;
use std::env;
use std::env::VarError;
use std::rt::{Env, Files};

// The most bytes of such a file.
const CONFIG_BYTES: usize = 65_536;

// The file of the person who runs the program, in the folder of such files.
const DEFAULT: &str = "amishell/options";

/// The options of a file.
#[derive(Drop)]
pub struct Config {
    file: String,
    options: Vec<OptionLine>,
}

impl Config {
    /// The options of the file that the command line names, or else of the one of the person who runs the program, if it is there;
    /// none with `--no-config`.
    ///
    /// `CannotRead` if it cannot be read or is too long, `BadLine` if an option is not UTF-8.
    pub fn find<R: AllocGlobal + Env + Files>(
        rt: &R,
        typed: &ArgMatches<'_>,
    ) -> Result<Config, OptionsFault>
        ensures none { IsFlagOf (found_of typed.now) (codes "no-config") → IfOk result (λ config. lines_of config ≡ []) }
        ensures named { IsLeftOutOf (found_of typed.now) (codes "no-config") → IfOk result (λ config. IfSome (first_value (found_of typed.now) (codes "config")) (λ file. file_of config ≡ file)) }
    {
        if has_flag(typed, "no-config") {
            return Ok(Config::empty(rt.alloc()));
        }
        if let Some(file) = typed.get_str("config") {
            return Config::read(rt, file);
        }
        let config_home = variable(rt, "XDG_CONFIG_HOME")?;
        let home = variable(rt, "HOME")?;
        let config_home = config_home.as_ref().map(|path| path.as_str());
        let home = home.as_ref().map(|path| path.as_str());
        match default_path(rt.alloc(), config_home, home)? {
            Some(file) => Config::read_if_there(rt, file.as_str()),
            None => Ok(Config::empty(rt.alloc())),
        }
    }

    // No options.
    fn empty(alloc: Global) -> Config
        ensures { lines_of result ≡ [] }
    {
        Config {
            file: String::new(alloc),
            options: Vec::new(alloc),
        }
    }

    // The options of a file; none if it is not there.
    fn read_if_there<R: AllocGlobal + Files>(rt: &R, file: &str) -> Result<Config, OptionsFault> {
        let read = Config::read(rt, file);
        match &read {
            Err(OptionsFault::CannotRead(unread)) if unread.is_absent() => Ok(Config::empty(
                rt.alloc(),
            )),
            _ => read,
        }
    }

    // The options of a file.
    fn read<R: AllocGlobal + Files>(rt: &R, file: &str) -> Result<Config, OptionsFault>
        ensures { IfOk result (λ config. file_of config ≡ file.now) }
    {
        let bytes = bytes_within(rt, file, CONFIG_BYTES)?;
        match options_of(rt.alloc(), bytes.as_slice()) {
            Ok(options) => Ok(Config {
                file: String::from_str(rt.alloc(), file)?,
                options,
            }),
            Err(FileFault::BadLine(line)) => {
                let reason = format!(in rt.alloc();
                    "options {file}: line {line}: it is not UTF-8"
                )?;
                Err(OptionsFault::BadLine(reason))
            }
            Err(FileFault::NoMemory) => Err(OptionsFault::NoMemory),
        }
    }

    /// What `clap` finds in the options.
    ///
    /// `BadLine` names the first line that is no option, or none that may stand there after those before it.
    pub fn matches(&self, alloc: Global) -> Result<ArgMatches<'_>, Refused>
        ensures names { OnOk result (list_all (λ line. may_stand_in_file line.word) (lines_of self.now) ≡ true) }
        ensures range { IfOk result (λ found. AreInRange (found_of found) (numbers_of (found_of found))) }
    {
        match matches_of(alloc, self.options.as_slice()) {
            Err(Refused::BadLine(_)) => Err(self.first_fault(alloc)),
            found => found,
        }
    }

    // The refusal of the first line that has a fault; that may be one only after those before it, as an option that is given again.
    fn first_fault(&self, alloc: Global) -> Refused {
        let file = &self.file;
        for (place, option) in self.options.iter().enumerate() {
            match matches_of(alloc, &self.options[..place + 1]) {
                Ok(_) => {}
                Err(Refused::BadLine(reason)) => {
                    let line = option.number();
                    return bad_line(format!(in alloc; "options {file}: line {line}: {reason}"));
                }
                Err(refused) => return refused,
            }
        }
        Refused::NoMemory
    }
}

// What `clap` finds in options.
fn matches_of(alloc: Global, options: &[OptionLine]) -> Result<ArgMatches<'_>, Refused>
    ensures names { OnOk result (list_all (λ line. may_stand_in_file line.word) options.now ≡ true) }
    ensures range { IfOk result (λ found. AreInRange (found_of found) (numbers_of (found_of found))) }
{
    check_names(alloc, options)?;
    let matches = match matches_of_options(alloc, options) {
        Ok(matches) => matches,
        Err(error) => return Err(refusal(alloc, &error)),
    };
    let _ = Numbers::of(alloc, &matches)?;
    check_errors(alloc, &matches)?;
    Ok(matches)
}

// Checks that each word is an option, and none that only the command line may have.
fn check_names(alloc: Global, options: &[OptionLine]) -> Result<(), Refused>
    ensures { is_ok result ≡ list_all (λ line. may_stand_in_file line.word) options.now }
{
    for option in options {
        check_name(alloc, option.as_str())?;
    }
    Ok(())
}

// Checks that a word is an option, and none that only the command line may have.
fn check_name(alloc: Global, word: &str) -> Result<(), Refused>
    ensures { is_ok result ≡ may_stand_in_file word.now }
{
    let name = name_of(word);
    if !name.as_bytes().starts_with(b"--") || name.len() == 2 {
        return Err(bad_line(format!(in alloc; "{word}: not an option")));
    }
    if is_typed_alone(name) {
        return Err(bad_line(format!(in alloc; "{name} can only be typed")));
    }
    Ok(())
}

// Only the command line may have the option.
fn is_typed_alone(name: &str) -> bool
    ensures { result ≡ is_typed_alone name.now }
{
    matches!(
        name,
        "--check" | "--config" | "--help" | "--no-config" | "--version"
    )
}

// The path of the file of the person who runs the program, by the values of XDG_CONFIG_HOME and HOME. One that is not absolute counts
// for nothing, as if it were not set.
fn default_path(
    alloc: Global,
    config_home: Option<&str>,
    home: Option<&str>,
) -> Result<Option<String>, OptionsFault>
    ensures { IfOk result (λ path. option_map string_bytes path ≡ default_path (option_map (λ path. path.now) config_home.entry) (option_map (λ path. path.now) home.entry)) }
{
    if let Some(folder) = absolute(config_home) {
        return Ok(Some(path_in(alloc, folder, DEFAULT)?));
    }
    let Some(home) = absolute(home) else {
        return Ok(None);
    };
    let folder = path_in(alloc, home, ".config")?;
    Ok(Some(path_in(alloc, folder.as_str(), DEFAULT)?))
}

// The path of a name in a folder. Want of memory is the one reason for which it is not made.
fn path_in(alloc: Global, folder: &str, name: &str) -> Result<String, NoMemory>
    ensures { IfOk result (λ path. string_bytes path ≡ path_in folder.now name.now) }
{
    match step_into(alloc, folder, name) {
        Ok(path) => Ok(path),
        Err(_) => Err(NoMemory),
    }
}

// A path that begins at the root.
fn absolute(path: Option<&str>) -> Option<&str>
    ensures { option_map (λ path. path.now) result ≡ absolute (option_map (λ path. path.now) path.entry) }
{
    match path {
        Some(path) if path.as_bytes().starts_with(b"/") => Some(path),
        _ => None,
    }
}

// The value of a variable of the environment, if it is set to a text.
fn variable<R: AllocGlobal + Env>(rt: &R, name: &str) -> Result<Option<String>, OptionsFault> {
    match env::var(rt, name) {
        Ok(value) => Ok(Some(value)),
        Err(VarError::OutOfMemory) => Err(OptionsFault::NoMemory),
        Err(_) => Ok(None),
    }
}
