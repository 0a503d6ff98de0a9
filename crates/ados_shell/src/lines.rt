// Taking a raw line.
ghost use Rattle.std.specs.Prelude.{◌≡◌, IfOk, IfSome, OnOk, OnSome};
ghost use Rattle.ados_find.specs.{declared.search.Found.TheVariants.{Internal}, Routes.{route_devices}};
ghost use Rattle.ados_machine.specs.{Course.{with_devices_used}, Completions.{line_fault}, Lines.{expanded_completion, found_completion, found_in, line_completion, with_search_used}};

use crate::completions::Completion;
use crate::drafts::Draft;
use crate::scenes::Scene;
use ados_find::{Codes, Found, Search, find, is_path};
use ados_line::{Expanded, Line, LineFault, Scope, expand};
use ados_resident::InternalCommand;
use ados_text::{NoMemory, Result2, Stop, Text};

impl Draft {
    ghost use Rattle.ados_shell.specs.{Completions.{HasEnded}, Drafts.{IsUnset, IsApplied, course_of, here_in}};
    ghost use Rattle.ados_line.specs.{Answers.{Gives}, declared.faults.LineFault.{LineFault}, declared.lines.Expanded.{Expanded}, Expansion.{expand_raw_line}, Values.{visible_variables}};
    ghost use Rattle.std.specs.Prelude.{Result};
    ghost use Rattle.ados_machine.specs.Lines.{course_variables};
    ghost use Rattle.ados_find.specs.Parts.{locals_of};
    ghost use Rattle.ados_vars.specs.Locals.{shown_pairs};

    /// Takes a raw line.
    pub(crate) fn obey(&mut self, scene: &Scene, raw: &Text) -> Result<(), NoMemory>
        requires { IsUnset self.old }
        ensures { OnOk result (IsApplied scene.now self.old self.new
            (line_completion raw.now (here_in scene.now self.old) (course_of scene.now self.old))) }
    {
        let expanded = self.expanded(scene, raw);
        self.use_variables(scene, raw)?;
        self.work_line(scene, expanded)
    }

    /// Runs a line after its expansion.
    pub(crate) fn work_line(
        &mut self,
        scene: &Scene,
        expanded: Result<Expanded, LineFault>,
    ) -> Result<(), NoMemory>
        requires { IsUnset self.old }
        ensures { OnOk result ((found : Result Expanded LineFault) → Gives expanded found →
            IsApplied scene.now self.old self.new (expanded_completion found (here_in scene.now self.old) (course_of scene.now self.old))) }
    {
        match expanded {
            Err(LineFault::NoMemory) => Err(NoMemory),
            Err(fault) => self.refuse_line(scene, fault.result2()),
            Ok(Expanded::Nothing) => self.pass(scene),
            Ok(Expanded::Ready(line)) => self.seek(scene, &line),
            Ok(Expanded::Tick(tick)) => self.tick(scene, tick),
        }
    }

    /// The line is invalid: it uses nothing.
    pub(crate) fn refuse_line(&mut self, scene: &Scene, fault: Result2) -> Result<(), NoMemory>
        ensures { OnOk result (IsApplied scene.now self.old self.new (line_fault fault (course_of scene.now self.old))) }
    {
        self.use_nothing(scene);
        self.answer(scene, b"Shell", Codes::failed(fault), false)
    }

    /// The expansion of a raw line, with the shell and the shared state as it is now.
    fn expanded(&self, scene: &Scene, raw: &Text) -> Result<Expanded, LineFault>
        requires { IsUnset self.now }
        ensures { Gives result (expand_raw_line (course_of scene.now self.now).parts.settings.aliases (course_variables (course_of scene.now self.now)) raw.now) }
    {
        let scope = self.scope(scene);
        expand(&scope, raw)
    }

    /// Where the words of a line have their meanings, with the shell and the shared state as it is now.
    pub(crate) fn scope<'b>(&'b self, scene: &'b Scene) -> Scope<'b>
        requires { IsUnset self.now }
        ensures aliases { result.aliases.now ≡ (course_of scene.now self.now).parts.settings.aliases }
        ensures variables { visible_variables result ≡ course_variables (course_of scene.now self.now) }
        ensures locals { shown_pairs result.locals.now result.code result.result2 ≡ locals_of (course_of scene.now self.now).parts }
    {
        let shared = self.current(scene);
        let settings = scene.shell.settings();
        let codes = self.shell.codes;
        Scope {
            alloc: scene.alloc,
            aliases: &settings.aliases,
            locals: &settings.locals,
            code: codes.code,
            result2: codes.result2,
            assigns: &shared.assigns,
            ram: &shared.ram,
        }
    }

    /// Searches for the command of a line.
    fn seek(&mut self, scene: &Scene, line: &Line) -> Result<(), NoMemory>
        requires { IsUnset self.old }
        ensures { OnOk result (IsApplied scene.now self.old self.new
            (found_completion (found_in (course_of scene.now self.old) line.now.command) line.now (here_in scene.now self.old) (with_search_used line.now.command (course_of scene.now self.old)))) }
    {
        match self.internal(scene, &line.command) {
            Some(command) => {
                let ended = self.execute_internal(scene, command, line);
                self.conclude(scene, &line.command, ended)
            }
            None => self.seek_beyond(scene, line),
        }
    }

    // The same where the command need not be an internal one.
    #[inline(never)]
    fn seek_beyond(&mut self, scene: &Scene, line: &Line) -> Result<(), NoMemory>
        requires { IsUnset self.old }
        ensures { OnOk result (IsApplied scene.now self.old self.new
            (found_completion (found_in (course_of scene.now self.old) line.now.command) line.now (here_in scene.now self.old) (with_search_used line.now.command (course_of scene.now self.old)))) }
    {
        let Search { found, route } = self.find(scene, &line.command)?;
        self.use_route(scene, route, &line.command)?;
        self.run_line(scene, found, line)
    }

    // The internal command that a word stands for, if one is listed and not disabled: no device is used to find it.
    #[inline(always)]
    #[tactic(auto, unfolding(ados_find::specs::Search::found_of, ados_find::specs::Devices::searched_devices))]
    fn internal(&self, scene: &Scene, word: &Text) -> Option<InternalCommand>
        requires { IsUnset self.now }
        ensures found { IfSome result (λ command. found_in (course_of scene.now self.now) word.now ≡ Internal command) }
        ensures used { OnSome result (with_search_used word.now (course_of scene.now self.now) ≡ course_of scene.now self.now) }
    {
        if is_path(word) {
            return None;
        }
        match self.current(scene).residents.internal(word) {
            Some(internal) if !internal.is_disabled => Some(internal.command),
            _ => None,
        }
    }

    /// Runs a line for whose command this was found, and applies its completion to the frames.
    fn run_line(&mut self, scene: &Scene, found: Found, line: &Line) -> Result<(), NoMemory>
        requires { IsUnset self.old }
        ensures { OnOk result (IsApplied scene.now self.old self.new
            (found_completion found line.now (here_in scene.now self.old) (course_of scene.now self.old))) }
    {
        let ended = self.execute(scene, found, line);
        self.conclude(scene, &line.command, ended)
    }

    /// Runs a line for whose command this was found. If it is not known, or can't be run, nothing is read or opened.
    fn execute(&mut self, scene: &Scene, found: Found, line: &Line) -> Result<Completion, Stop>
        requires { IsUnset self.old }
        ensures { HasEnded scene.now self.old self.new line.now.command result
            (found_completion found line.now (here_in scene.now self.old) (course_of scene.now self.old)) }
    {
        match found {
            Found::Internal(command) => self.execute_internal(scene, command, line),
            Found::Resident(entry) => {
                self.run_program(scene, Some(entry.name), entry.program, line)
            }
            Found::File(file) => self.run_program(scene, None, file.program, line),
            Found::Script(place) => self.run_script(scene, &place, line),
            Found::Directory(place) => self.change_directory(scene, place, line),
            Found::NotExecutable(fault) => {
                let codes = Codes::erred(fault);
                Ok(Completion::Answered {
                    codes,
                    quits: false,
                })
            },
            Found::Unknown => {
                let codes = Codes::erred(Result2::OBJECT_NOT_FOUND);
                Ok(Completion::Answered {
                    codes,
                    quits: false,
                })
            }
        }
    }

    // Runs a line whose command is this internal one.
    #[inline(always)]
    fn execute_internal(
        &mut self,
        scene: &Scene,
        command: InternalCommand,
        line: &Line,
    ) -> Result<Completion, Stop>
        requires { IsUnset self.old }
        ensures { HasEnded scene.now self.old self.new line.now.command result
            (found_completion (Internal command) line.now (here_in scene.now self.old) (course_of scene.now self.old)) }
    {
        match command.builtin() {
            Some(builtin) => self.builtin(scene, builtin, line),
            None => self.run(scene, line),
        }
    }

    /// What a word stands for, with the shell and the shared state as it is now, and which device its search used.
    fn find(&self, scene: &Scene, word: &Text) -> Result<Search, NoMemory>
        requires { IsUnset self.now }
        ensures found { IfOk result (λ s. s.found ≡ found_in (course_of scene.now self.now) word.now) }
        ensures used { IfOk result (λ s. with_devices_used (route_devices s.route word.now) (course_of scene.now self.now) ≡ with_search_used word.now (course_of scene.now self.now)) }
    {
        let path = scene.shell.settings().path.entries();
        find(
            scene.alloc,
            word,
            self.current(scene),
            self.directory(scene),
            path,
        )
    }
}
