// The devices that paths and searches use.
ghost use Rattle.std.specs.{Prelude.{◌≡◌, ◌++◌, ◌∷◌, [], OnOk, map as each}, List.{flat_map}};
ghost use Rattle.ados_assign.specs.Uses.{reached_devices};
ghost use Rattle.ados_text.specs.Text.{to_ascii};
ghost use Rattle.ados_find.specs.{Routes.{route_devices}, Devices.{device_named}};

use crate::routes::Route;
use crate::shared::Shared;
use ados_assign::device_prefix;
use ados_text::{Name, NoMemory, Text};
use std::alloc::Global;

impl Shared {
    /// Appends the device of a path's text, if it names one, to those that are used, and then each device to which the
    /// texts of assigns lead from it.
    pub fn push_device_of(&self, used: &mut Vec<Name>, text: &Text) -> Result<(), NoMemory>
        ensures { OnOk result (used.new.items ≡ used.old.items ++ flat_map (reached_devices self.now.assigns) (device_named text.now)) }
    {
        match device_prefix(text)? {
            None => Ok(()),
            Some(device) => self.assigns.push_reached(used, device),
        }
    }

    /// Appends the devices of each of these texts in turn, as [`push_device_of`](Shared::push_device_of) does.
    pub fn push_devices_of(&self, used: &mut Vec<Name>, texts: &[Text]) -> Result<(), NoMemory>
        ensures { OnOk result (used.new.items ≡ used.old.items ++ flat_map (reached_devices self.now.assigns) (flat_map device_named texts.now)) }
    {
        for text in texts {
            self.push_device_of(used, text)?;
        }
        Ok(())
    }

    /// Appends the device of this name, and then those to which it leads.
    pub fn push_device(
        &self,
        alloc: Global,
        used: &mut Vec<Name>,
        name: &[u8],
    ) -> Result<(), NoMemory>
        ensures { OnOk result (used.new.items ≡ used.old.items ++ flat_map (reached_devices self.now.assigns) (each to_ascii name.now ∷ [])) }
    {
        let device = Name::from_bytes(alloc, name)?;
        self.assigns.push_reached(used, device)
    }

    /// Appends the devices that the search for a word uses, given how far it went, and those to which they lead.
    pub fn push_searched(
        &self,
        alloc: Global,
        used: &mut Vec<Name>,
        route: Route,
        word: &Text,
    ) -> Result<(), NoMemory>
        ensures { OnOk result (used.new.items ≡ used.old.items ++ flat_map (reached_devices self.now.assigns) (route_devices route word.now)) }
    {
        match route {
            Route::BeforeC => Ok(()),
            Route::ByPath => self.push_device_of(used, word),
            Route::ToC => self.push_device(alloc, used, b"C"),
        }
    }
}
