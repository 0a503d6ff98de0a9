// The lines of Dir, level by level.
ghost use Rattle.std.specs.Prelude.{◌≡◌, ◌++◌, codes, IfOk, OnOk};
ghost use Rattle.ados_objects.specs.Lines.{keeps, entry_lines};

use crate::below::object_count;
use ados_objects::{Line, keeps, push_lines, put_between};
use ados_ram::{Entry, Place, Ram};
use ados_text::NoMemory;
use std::alloc::Global;

/// What is shown of a directory.
#[derive(Clone, Copy)]
pub struct Choice {
    /// Its directories, and not its files.
    pub dirs: bool,
    /// Its files, and not its directories.
    pub files: bool,
    /// What is in its directories too.
    pub all: bool,
}

ghost use Rattle.ados_files.specs.Dir.{directory_line, file_text, branch_text, level_text, levels_shown, dir_text};

impl Choice {
    /// The lines of objects.
    pub fn text(self, alloc: Global, ram: &Ram, places: &[Place]) -> Result<Vec<u8>, NoMemory>
        ensures { IfOk result (λ text. text.items ≡ dir_text self ram.now places.now) }
    {
        let mut output = Vec::new(alloc);
        let showing = Showing {
            choice: self,
            ram,
            blanks: &[],
        };
        let levels = levels_shown(alloc, self.all, ram)?;
        showing.push_level(&mut output, levels, places)?;
        Ok(output)
    }
}

// The number of levels that are shown.
fn levels_shown(alloc: Global, all: bool, ram: &Ram) -> Result<usize, NoMemory>
    ensures { IfOk result (λ levels. levels ≡ levels_shown all ram.now) }
{
    if all { object_count(alloc, ram) } else { Ok(1) }
}

/// What is shown of a level, of which files, and the blanks in front of its lines.
#[derive(Drop)]
pub struct Showing<'a> {
    pub choice: Choice,
    pub ram: &'a Ram,
    pub blanks: &'a [u8],
}

impl<'a> Showing<'a> {
    // Appends the lines of the objects of a level: the directories, each with the levels below it, and then the files.
    #[cycle(level)]
    fn push_level(
        &self,
        output: &mut Vec<u8>,
        levels: usize,
        places: &[Place],
    ) -> Result<(), NoMemory>
        ensures { OnOk result (output.new.items ≡ output.old.items ++
            level_text levels self.now.choice self.now.ram.now self.now.blanks.now places.now) }
    {
        if levels == 0 {
            return Ok(());
        }
        for place in places {
            self.push_branch(output, levels - 1, place)?;
        }
        self.push_files(output, places)
    }

    // Appends a directory, with so many levels below it.
    #[cycle(level)]
    #[tactic(auto, unfolding(crate::specs::Dir::branch_text))]
    fn push_branch(
        &self,
        output: &mut Vec<u8>,
        levels: usize,
        place: &Place,
    ) -> Result<(), NoMemory>
        ensures { OnOk result (output.new.items ≡ output.old.items ++
            branch_text (level_text levels self.now.choice self.now.ram.now (self.now.blanks.now ++ codes "    "))
            (keeps self.now.choice.dirs self.now.choice.files) self.now.ram.now self.now.blanks.now place.now) }
    {
        let ram = self.ram;
        match ram.look(place) {
            Some(entry) if entry.is_directory() => {
                self.push_line(output, entry)?;
                let mut blanks = Vec::from_slice(*output.allocator(), self.blanks)?;
                blanks.extend_from_slice(b"    ")?;
                let inside = Showing {
                    choice: self.choice,
                    ram,
                    blanks: &blanks,
                };
                inside.push_level(output, levels, &ram.children(place)?)
            }
            _ => Ok(()),
        }
    }

    // Appends the line of a directory, if directories are shown.
    fn push_line(&self, output: &mut Vec<u8>, entry: &Entry) -> Result<(), NoMemory>
        ensures { OnOk result (output.new.items ≡ output.old.items ++
            directory_line (keeps self.now.choice.dirs self.now.choice.files) self.now.blanks.now entry.now) }
    {
        if !keeps(self.choice.dirs, self.choice.files) {
            return Ok(());
        }
        output.extend_from_slice(self.blanks)?;
        put_between(output, b"     ", entry.name.text().as_bytes(), b" (dir)\n")
    }

    // Appends the lines of files.
    fn push_files(&self, output: &mut Vec<u8>, places: &[Place]) -> Result<(), NoMemory>
        ensures { OnOk result (output.new.items ≡ output.old.items ++
            entry_lines (file_text (keeps self.now.choice.files self.now.choice.dirs) self.now.blanks.now) self.now.ram.now places.now) }
    {
        let line = FileLine {
            shown: keeps(self.choice.files, self.choice.dirs),
            blanks: self.blanks,
        };
        push_lines(output, &line, self.ram, places)
    }
}

/// The line of a file, if there is one and files are shown.
#[derive(Drop)]
pub struct FileLine<'a> {
    pub shown: bool,
    pub blanks: &'a [u8],
}

impl<'a> Line for FileLine<'a> {
    ghost line = { λ s. file_text s.shown s.blanks.now };

    fn push(&self, output: &mut Vec<u8>, there: Option<&Entry>) -> Result<(), NoMemory> {
        match there {
            Some(entry) if !entry.is_directory() && self.shown => {
                output.extend_from_slice(self.blanks)?;
                put_between(output, b"  ", entry.name.text().as_bytes(), b"\n")
            }
            _ => Ok(()),
        }
    }
}
