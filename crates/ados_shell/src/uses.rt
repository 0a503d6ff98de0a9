// The devices that an event uses; at its end the assigns of Defer among them are bound.
ghost use Rattle.std.specs.Prelude.{◌≡◌, ◌∷◌, [], OnOk, codes};
ghost use Rattle.ados_find.specs.{Routes.{route_devices}, Devices.{device_named}};
ghost use Rattle.ados_machine.specs.{Course.{with_devices_used, with_no_device_used}, Lines.{with_variables}};

use crate::drafts::Draft;
use crate::scenes::Scene;
use ados_find::{Route, Shared};
use ados_line::asks_global;
use ados_text::{Name, NoMemory, Text};

impl Draft {
    ghost use Rattle.std.specs.Prelude.{IfOk};
    ghost use Rattle.ados_find.specs.Parts.{locals_of};
    ghost use Rattle.ados_line.specs.Globals.{asks_global};
    ghost use Rattle.ados_shell.specs.{Drafts.{IsUnset, course_of, parts_of}, Uses.{HasBound, HasUsed, HasUsedBound}};

    /// The device of a path's text is used.
    #[tactic(auto, unfolding(ados_machine::specs::Uses::devices_reached))]
    pub(crate) fn use_path(&mut self, scene: &Scene, text: &Text) -> Result<(), NoMemory>
        ensures { OnOk result (HasUsed scene.now self.old self.new (with_devices_used (device_named text.now) (course_of scene.now self.old))) }
    {
        let shared = match &self.shared {
            None => scene.shared,
            Some(new) => new,
        };
        shared.push_device_of(&mut self.used, text)
    }

    /// A device is used.
    #[tactic(auto, unfolding(ados_machine::specs::Uses::devices_reached))]
    fn use_device(&mut self, scene: &Scene, device: Name) -> Result<(), NoMemory>
        ensures { OnOk result (HasUsed scene.now self.old self.new (with_devices_used (device ∷ []) (course_of scene.now self.old))) }
    {
        let shared = match &self.shared {
            None => scene.shared,
            Some(new) => new,
        };
        shared.assigns.push_reached(&mut self.used, device)
    }

    /// C: is used.
    fn use_c(&mut self, scene: &Scene) -> Result<(), NoMemory>
        ensures { OnOk result (HasUsed scene.now self.old self.new (with_devices_used (codes "C" ∷ []) (course_of scene.now self.old))) }
    {
        let device = Name::from_bytes(scene.alloc, b"C")?;
        self.use_device(scene, device)
    }

    /// ENV: is used.
    fn use_env(&mut self, scene: &Scene) -> Result<(), NoMemory>
        ensures { OnOk result (HasUsed scene.now self.old self.new (with_devices_used (codes "ENV" ∷ []) (course_of scene.now self.old))) }
    {
        let device = Name::from_bytes(scene.alloc, b"ENV")?;
        self.use_device(scene, device)
    }

    /// The device to which the search of a word led is used.
    pub(crate) fn use_route(
        &mut self,
        scene: &Scene,
        route: Route,
        word: &Text,
    ) -> Result<(), NoMemory>
        ensures { OnOk result (HasUsed scene.now self.old self.new (with_devices_used (route_devices route word.now) (course_of scene.now self.old))) }
    {
        match route {
            Route::BeforeC => Ok(()),
            Route::ByPath => {
                self.note_question(scene, &[], word);
                self.use_path(scene, word)
            }
            Route::ToC => {
                self.note_question(scene, b"C:", word);
                self.use_c(scene)
            }
        }
    }

    /// The cache may learn what the search of a word did not find in it.
    pub(crate) fn note_question(&mut self, scene: &Scene, front: &[u8], word: &Text)
        ensures { self.new ≡ record self.old { asked = self.new.asked } }
    {
        let directory = self.directory(scene);
        self.asked = self
            .current(scene)
            .question(scene.alloc, directory, front, word);
    }

    /// ENV: is used if a line asks for a variable that is not one of the shell's own.
    pub(crate) fn use_variables(&mut self, scene: &Scene, raw: &Text) -> Result<(), NoMemory>
        requires { IsUnset self.old }
        ensures { OnOk result (HasUsed scene.now self.old self.new (with_variables raw.now (course_of scene.now self.old))) }
    {
        if self.asks_global(scene, raw)? {
            self.use_env(scene)
        } else {
            Ok(())
        }
    }

    /// The line asks for such a variable, with the shell and the shared state as it is now.
    fn asks_global(&self, scene: &Scene, raw: &Text) -> Result<bool, NoMemory>
        requires { IsUnset self.now }
        ensures { IfOk result (λ asks. asks ≡ asks_global (parts_of scene.now self.now).settings.aliases (locals_of (parts_of scene.now self.now)) raw.now) }
    {
        asks_global(&self.scope(scene), raw)
    }

    /// No device counts as used any longer.
    pub(crate) fn use_nothing(&mut self, scene: &Scene)
        ensures { HasUsed scene.now self.old self.new (with_no_device_used (course_of scene.now self.old)) }
    {
        let _ = scene;
        self.used.clear();
    }

    /// The event ends: each assign of Defer that it used, whose text leads to a directory, is bound to that.
    #[inline(always)]
    pub(crate) fn bind(&mut self, scene: &Scene) -> Result<(), NoMemory>
        ensures { OnOk result (HasBound scene.now self.old self.new) }
    {
        if self.used.is_empty() {
            return Ok(());
        }
        match self.bound(scene)? {
            None => Ok(()),
            Some(new) => {
                self.shared = Some(new);
                Ok(())
            }
        }
    }

    /// The shared state with the used assigns of Defer bound; `None` if nothing can bind.
    fn bound(&self, scene: &Scene) -> Result<Option<Shared>, NoMemory>
        ensures { IfOk result (λ new. HasUsedBound scene.now self.now new) }
    {
        let shared = self.current(scene);
        if !shared.assigns.has_defers() {
            return Ok(None);
        }
        if shared.assigns.has_no_used_defer(&self.used) {
            return Ok(None);
        }
        let assigns = shared.assigns.bind(&self.used, &shared.ram)?;
        Ok(Some(shared.with_assigns(assigns)?))
    }
}
