// The output of a command: its opening, and what is put there.
ghost use Rattle.std.specs.{Prelude.{◌≡◌, Ok, Some, IfOk, OnOk}, Option.{option_copied}};
ghost use Rattle.ados_machine.specs.{Opening.{output_at_target, line_output, output_of_redirection}, Course.{put}, Sinks.{To, sink_or}};
ghost use Rattle.ados_find.specs.{declared.targets.Target.TheVariants.{At}, Shared.{limits_of}};
ghost use Rattle.ados_ram.specs.{FileOperations.{put_open_fault, put_open_of}, Place.{key_of, last_name}};
ghost use Rattle.ados_text.specs.Stop.{Answers};

use crate::console::push_output;
use crate::drafts::Draft;
use crate::scenes::Scene;
use crate::seen::open_outputs;
use crate::stacks::Sink;
use ados_find::{Codes, Shared, Target, target_of};
use ados_line::Redirection;
use ados_ram::{Busy, Place, Ram};
use ados_text::{NoMemory, Octets, Stop};
use std::alloc::Global;

/// An output that was opened.
#[derive(Drop)]
pub enum Opened {
    /// None was named.
    Nothing,
    /// NIL:.
    Nil,
    /// A file, with the shared state after its opening.
    File(Shared, Place),
}

impl Opened {
    ghost use Rattle.ados_shell.specs.Outputs.{IsOpened};

    /// Opens what a redirection names, from a current directory, while these outputs are open: `>` empties the file or
    /// makes it, `>>` keeps it or makes it.
    ///
    /// 210 for a name that is not a path, what resolving refuses (204, 205, 212, 218), and what writing refuses (202,
    /// 212, 221, 223).
    pub fn by(
        alloc: Global,
        shared: &Shared,
        busy: &Busy,
        directory: &Place,
        output: &Redirection,
    ) -> Result<Opened, Stop>
        ensures { IsOpened shared.now result (output_of_redirection shared.now busy.now.outputs directory.now (Some output.now)) }
    {
        match target_of(alloc, shared, directory, &output.name) {
            Err(fault) => Err(fault),
            Ok(Target::Nil) => Ok(Opened::Nil),
            Ok(Target::At(place)) => Opened::at(shared, busy, output.append, place),
        }
    }

    fn at(shared: &Shared, busy: &Busy, append: bool, place: Place) -> Result<Opened, Stop>
        ensures { IsOpened shared.now result (output_at_target shared.now busy.now.outputs append (Ok (At place))) }
    {
        match shared.open(busy, append, &place) {
            Err(fault) => Err(fault),
            Ok(new) => Ok(Opened::File(new, place)),
        }
    }
}

impl Draft {
    ghost use Rattle.ados_shell.specs.{Outputs.{HasHeld, HasOpened, HoldsFiles, IsOpened, IsPut}, Drafts.{course_of, here_in}};

    /// Opens what a redirection names, with the shell and the shared state as it is now.
    #[inline(always)]
    pub(crate) fn open(&self, scene: &Scene, output: Option<&Redirection>) -> Result<Opened, Stop>
        ensures { IsOpened (course_of scene.now self.now).shared result (line_output (course_of scene.now self.now) (option_copied output.entry)) }
    {
        match output {
            None => Ok(Opened::Nothing),
            Some(output) => {
                let busy = open_outputs(scene.alloc, scene.shells)?;
                Opened::by(
                    scene.alloc,
                    self.current(scene),
                    &busy,
                    self.directory(scene),
                    output,
                )
            }
        }
    }

    /// Opens what a redirection names, holds what that makes of the shared state, and uses its device; gives where it
    /// leads, if one is named. If it is refused nothing is changed.
    ///
    /// 210 for a name that is not a path, what resolving refuses (204, 205, 212, 218), and what writing refuses (202,
    /// 212, 221, 223).
    #[inline(always)]
    pub(crate) fn open_own(
        &mut self,
        scene: &Scene,
        output: Option<&Redirection>,
    ) -> Result<Option<Target>, Stop>
        ensures { HasOpened scene.now self.old self.new (option_copied output.entry) result (line_output (course_of scene.now self.old) (option_copied output.entry)) }
    {
        let target = self.hold_opened(scene, output)?;
        if let Some(output) = output {
            self.use_path(scene, &output.name)?;
        }
        Ok(target)
    }

    /// The same, if its device is not used yet.
    fn hold_opened(
        &mut self,
        scene: &Scene,
        output: Option<&Redirection>,
    ) -> Result<Option<Target>, Stop>
        ensures { HasHeld scene.now self.old self.new result (line_output (course_of scene.now self.old) (option_copied output.entry)) }
    {
        match self.open(scene, output)? {
            Opened::Nothing => Ok(None),
            Opened::Nil => Ok(Some(Target::Nil)),
            Opened::File(new, place) => {
                self.shared = Some(new);
                Ok(Some(Target::At(place)))
            }
        }
    }

    /// Puts a command's output where it goes: to its own target, if it has one, otherwise where that of the newest
    /// frame goes; gives what the command returns then.
    #[inline(always)]
    pub(crate) fn put(
        &mut self,
        scene: &Scene,
        target: Option<&Target>,
        output: Octets,
        codes: Codes,
    ) -> Result<Codes, NoMemory>
        ensures { IfOk result (λ answered. IsPut scene.now self.old self.new answered
            (put (sink_or (option_copied target.entry) (here_in scene.now self.old).sink) output codes (course_of scene.now self.old))) }
    {
        match target {
            Some(target) => self.put_to(scene, target, output, codes),
            None => match self.shell.frames.sink(scene.shell)? {
                Sink::Console => {
                    push_output(&mut self.printed, output)?;
                    Ok(codes)
                }
                Sink::Kept => self.keep(scene, output.as_bytes(), codes),
                Sink::To(target) => self.put_to(scene, &target, output, codes),
            },
        }
    }

    fn put_to(
        &mut self,
        scene: &Scene,
        target: &Target,
        output: Octets,
        codes: Codes,
    ) -> Result<Codes, NoMemory>
        ensures { IfOk result (λ answered. IsPut scene.now self.old self.new answered
            (put (To target.now) output codes (course_of scene.now self.old))) }
    {
        match target {
            Target::Nil => Ok(codes),
            Target::At(place) => self.put_at(scene, place, output.as_bytes(), codes),
        }
    }

    fn put_at(
        &mut self,
        scene: &Scene,
        place: &Place,
        output: &[u8],
        codes: Codes,
    ) -> Result<Codes, NoMemory>
        ensures { IfOk result (λ answered. IsPut scene.now self.old self.new answered
            (put (To (At place.now)) output.now codes (course_of scene.now self.old))) }
    {
        if output.is_empty() {
            return Ok(codes);
        }
        match self.files_with(scene, place, output) {
            Err(Stop::NoMemory) => Err(NoMemory),
            Err(Stop::Refused(fault)) => Ok(Codes::failed(fault)),
            Ok(files) => {
                self.hold_files(scene, files)?;
                Ok(codes)
            }
        }
    }

    /// The files after bytes were put at a place, while an output is open.
    ///
    /// 221 if they do not fit.
    fn files_with(&self, scene: &Scene, place: &Place, output: &[u8]) -> Result<Ram, Stop>
        ensures ok { IfOk result (λ files. files ≡ put_open_of (course_of scene.now self.now).shared.files (key_of place.now) (last_name place.now) output.now) }
        ensures fault { Answers result (put_open_fault (limits_of (course_of scene.now self.now).shared.dialect) (course_of scene.now self.now).shared.files (key_of place.now) (last_name place.now) output.now) }
    {
        let now = self.current(scene);
        now.ram.put_open(now.limits(), place, output)
    }

    /// Holds other files.
    fn hold_files(&mut self, scene: &Scene, files: Ram) -> Result<(), NoMemory>
        ensures { OnOk result (HoldsFiles scene.now self.old self.new files) }
    {
        self.shared = Some(self.current(scene).with_files(files)?);
        Ok(())
    }
}
