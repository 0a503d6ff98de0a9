//! The devices that a script mentions before one of its lines assigns or asks for them.
ghost use Rattle.std.specs.{Prelude.{◌≡◌, IfOk, OnOk}, List.{flat_map}};
ghost use Rattle.ados_check.specs.DeviceNews.{assigned_at, news_in, news_of, with_device, with_devices, with_line};

use crate::devices::{is_among, mentioned, push_assigned};
use crate::findings::{Finding, Problem};
use crate::left_out::command_text;
use crate::lines::push_problem;
use ados_resident::Dialect;
use ados_text::{NoMemory, Text};
use std::alloc::Global;

// What is found so far.
#[derive(Drop)]
struct News {
    // The devices that are told, or that a line assigns or asks for.
    known: Vec<Text>,
    found: Vec<Finding>,
}

/// The devices that lines of a script mention, each with its first line, but for those that this line or one before it assigns or asks for.
/// Which of them the Shell has is not known here: who calls this drops those.
pub fn new_devices(
    alloc: Global,
    dialect: Dialect,
    lines: &[Text],
) -> Result<Vec<Finding>, NoMemory>
    ensures { IfOk result (λ found. found.items ≡ news_in dialect lines.now) }
{
    let mut news = News {
        known: Vec::new(alloc),
        found: Vec::new(alloc),
    };
    for place in 0..lines.len() {
        news.add_line(dialect, place + 1, lines[place].as_bytes())?;
    }
    Ok(news.found)
}

/// The devices that lines assign or ask for.
pub fn assigned_devices(
    alloc: Global,
    dialect: Dialect,
    lines: &[Text],
) -> Result<Vec<Text>, NoMemory>
    ensures { IfOk result (λ devices. devices.items ≡ flat_map (assigned_at dialect) lines.now) }
{
    let mut devices = Vec::new(alloc);
    for line in lines {
        push_assigned(dialect, command_text(line.as_bytes()), &mut devices)?;
    }
    Ok(devices)
}

impl News {
    // Adds those of a line.
    fn add_line(&mut self, dialect: Dialect, number: usize, line: &[u8]) -> Result<(), NoMemory>
        ensures { OnOk result (news_of self.new ≡ with_line dialect number line.now (news_of self.old)) }
    {
        let text = command_text(line);
        push_assigned(dialect, text, &mut self.known)?;
        let devices = mentioned(*self.known.allocator(), dialect, text)?;
        self.add_devices(number, devices.as_slice())
    }

    // Adds devices that a line mentions.
    fn add_devices(&mut self, number: usize, devices: &[Text]) -> Result<(), NoMemory>
        ensures { OnOk result (news_of self.new ≡ with_devices number devices.now (news_of self.old)) }
    {
        for device in devices {
            self.add_device(number, device)?;
        }
        Ok(())
    }

    // Adds one of them, unless it is known.
    fn add_device(&mut self, number: usize, device: &Text) -> Result<(), NoMemory>
        ensures { OnOk result (news_of self.new ≡ with_device number (news_of self.old) device.now) }
    {
        if is_among(self.known.as_slice(), device) {
            return Ok(());
        }
        self.known.push(device.copy()?)?;
        push_problem(&mut self.found, number, Problem::NoDevice(device.copy()?))
    }
}
