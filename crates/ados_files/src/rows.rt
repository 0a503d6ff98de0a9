// The outcome of each command.
ghost use Rattle.std.specs.Prelude.{◌≡◌, IfOk};
ghost use Rattle.ados_find.specs.Effects.{effect_of};
ghost use Rattle.ados_files.specs.Rows.{row_of, template_of};

use crate::copy::copy_files;
use crate::delete::delete;
use crate::dir::show_directory;
use crate::filenote::filenote;
use crate::join::join_files;
use crate::listing::list;
use crate::make_dir::make_dir;
use crate::protect::protect;
use crate::rename::rename_objects;
use crate::search::search;
use crate::sort::sort;
use crate::type_files::type_files;
use ados_find::{CommandResult, Shared, ShellView};
use ados_readargs::Args;
use ados_resident::{Dialect, FilesCommand};
use std::alloc::Global;

/// The text of a command's template in a dialect. Search and Sort are commands of Full alone.
pub fn template(dialect: Dialect, command: FilesCommand) -> &'static str
    ensures { result.now ≡ template_of dialect command }
{
    match (command, dialect) {
        (FilesCommand::Copy, Dialect::Core) => "FROM/M,TO/A,ALL/S,QUIET/S",
        (FilesCommand::Copy, Dialect::Full) =>
            "FROM/M,TO/A,ALL/S,QUIET/S,CLONE/S,COM/S,NOPRO/S,DATES/S,NOREQ/S,BUF=BUFFER/K/N",
        (FilesCommand::Delete, Dialect::Core) => "FILE/M/A,ALL/S,QUIET/S",
        (FilesCommand::Delete, Dialect::Full) => "FILE/M/A,ALL/S,QUIET/S,FORCE/S",
        (FilesCommand::Dir, Dialect::Core) => "DIR,DIRS/S,FILES/S",
        (FilesCommand::Dir, Dialect::Full) => "DIR,DIRS/S,FILES/S,ALL/S,OPT/K,INTER/S",
        (FilesCommand::Filenote, Dialect::Core) => "FILE/A,COMMENT",
        (FilesCommand::Filenote, Dialect::Full) => "FILE/A,COMMENT,ALL/S,QUIET/S",
        (FilesCommand::Join, _) => "FILE/M/A,AS=TO/K/A",
        (FilesCommand::List, Dialect::Core) => "DIR/M,P=PAT/K,QUICK/S,FILES/S,DIRS/S",
        (FilesCommand::List, Dialect::Full) =>
            "DIR/M,P=PAT/K,QUICK/S,FILES/S,DIRS/S,TO/K,SUB/K,LFORMAT/K,ALL/S,KEYS/S,DATES/S,NODATES/S,BLOCK/S,NOHEAD/S,SINCE/K,UPTO/K",
        (FilesCommand::MakeDir, _) => "NAME/M",
        (FilesCommand::Protect, Dialect::Core) => "FILE/A,FLAGS,ADD/S,SUB/S",
        (FilesCommand::Protect, Dialect::Full) => "FILE/A,FLAGS,ADD/S,SUB/S,ALL/S,QUIET/S",
        (FilesCommand::Rename, Dialect::Core) => "FROM/A,TO=AS/A",
        (FilesCommand::Rename, Dialect::Full) => "FROM/A/M,TO=AS/A,QUIET/S",
        (FilesCommand::Search, _) =>
            "FROM/M,SEARCH/A,ALL/S,NONUM/S,QUIET/S,QUICK/S,FILE/S,PATTERN/S",
        (FilesCommand::Sort, _) => "FROM/A,TO/A,COLSTART/K/N,CASE/S,NUMERIC/S",
        (FilesCommand::Type, Dialect::Core) => "FROM/A/M",
        (FilesCommand::Type, Dialect::Full) => "FROM/A/M,TO/K,HEX/S,NUMBER/S,OPT/K",
    }
}

/// The outcome of a command, given the shared state, its shell's view, and the arguments by its template.
pub fn run(
    alloc: Global,
    command: FilesCommand,
    shared: &Shared,
    view: &ShellView,
    args: &Args,
) -> CommandResult
    ensures { IfOk result (λ outcome. effect_of shared.now outcome ≡ row_of command shared.now view.now args.now) }
{
    match command {
        FilesCommand::Copy => copy_files(alloc, shared, view, args),
        FilesCommand::Delete => delete(alloc, shared, view, args),
        FilesCommand::Dir => show_directory(alloc, shared, view, args),
        FilesCommand::Filenote => filenote(alloc, shared, view, args),
        FilesCommand::Join => join_files(alloc, shared, view, args),
        FilesCommand::List => list(alloc, shared, view, args),
        FilesCommand::MakeDir => make_dir(alloc, shared, view, args),
        FilesCommand::Protect => protect(alloc, shared, view, args),
        FilesCommand::Rename => rename_objects(alloc, shared, view, args),
        FilesCommand::Search => search(alloc, shared, view, args),
        FilesCommand::Sort => sort(alloc, shared, view, args),
        FilesCommand::Type => type_files(alloc, shared, view, args),
    }
}
