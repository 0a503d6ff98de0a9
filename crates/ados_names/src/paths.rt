// Paths, and which texts name them.
ghost use Rattle.std.specs.{Prelude.{◌≡◌, ◌≤◌, ◌+◌, ◌&&◌, true, nat_le, Ok, Err, IsOk, IfOk, length}, Option.{option_copied}};
ghost use Rattle.ados_names.specs.{Names.{is_name}, Path.{parts_of, are_parts, path_limit, path_of, device_text, text_of, path_with_name, joined_path}, Lengths.{pieces_len}};
ghost use Rattle.ados_text.specs.{Stop.{Gives}, declared.stops.Stop.TheVariants.{NoMemory as OutOfMemory}};

use crate::names::is_name;
use crate::pieces::{are_pieces, colon, is_path_piece, steps};
use crate::steps::{SHORT, Step};
use ados_text::{NoMemory, Result2, Stop, Text};
use smallvec::SmallVec;
use std::alloc::Global;
use std::marker::Model;

/// The most bytes that the text of a path may have.
pub const PATH_LIMIT: usize = 255;

/// A path: a device text, if one is named, and steps. Each path can be written as a text of at most 255 bytes.
#[derive(Clone, Drop)]
pub struct Path {
    device: Option<Text>,
    steps: SmallVec<Step, SHORT>,
}

impl Model for Path {
    ghost use Rattle.ados_names.specs.Path.{PathParts, IsPath};

    ghost Value = { PathParts };

    ghost view = { λ p. record { device = p.device; steps = p.steps.items } };

    ghost invariant = { λ p. IsPath (record { device = p.device; steps = p.steps.items }) };
}

impl Path {
    /// The path that a text names. What is before the first colon names a device; what follows is split at each slash into
    /// pieces. An empty piece that is not the last goes up one directory, an empty last piece is ignored, and each
    /// other piece is the name of a step.
    ///
    /// 210 for a text of more than 255 bytes, and if the device text or a piece is neither empty nor a name;
    /// `NoMemory` only if the text names a path.
    pub fn parse(alloc: Global, text: &Text) -> Result<Path, Stop>
        ensures value { Gives result (path_of text.now) }
        ensures memory { result ≡ Err OutOfMemory → IsOk (path_of text.now) }
    {
        if !names_a_path(text.as_bytes()) {
            return Err(Stop::Refused(Result2::INVALID_NAME));
        }
        Ok(read(alloc, text)?)
    }

    /// The path with one more step, into a name.
    ///
    /// 210 if the text is not a name, or the path's text would have more than 255 bytes; `NoMemory` only
    /// if there is a path.
    pub fn join(&self, name: &Text) -> Result<Path, Stop>
        ensures value { Gives result (joined_path self.now name.now) }
        ensures memory { result ≡ Err OutOfMemory → IsOk (joined_path self.now name.now) }
    {
        if !is_name(name) || self.joined_len(name) > PATH_LIMIT {
            return Err(Stop::Refused(Result2::INVALID_NAME));
        }
        Ok(self.longer(name)?)
    }

    /// The text before the first colon; `None` if the path has no colon.
    pub fn device(&self) -> Option<&Text>
        ensures { option_copied result ≡ self.now.device }
    {
        self.device.as_ref()
    }

    /// The steps, in order.
    pub fn steps(&self) -> &[Step]
        ensures { result.now ≡ self.now.steps }
    {
        self.steps.as_slice()
    }

    /// An equal path.
    pub fn copy(&self) -> Result<Path, NoMemory>
        ensures { IfOk result (λ path. path ≡ self.now) }
    {
        Ok(self.clone()?)
    }

    /// A law: the text of a path names that path.
    pub fn is_named_by_its_text(&self)
        ensures { path_of (text_of self.now) ≡ Ok self.now }
    {
        let _ = &self.device;
    }
}

impl Path {
    // How many bytes the text of the path has with one more name.
    fn joined_len(&self, name: &Text) -> usize
        requires { is_name name.now ≡ true }
        ensures { result ≡ length (text_of (path_with_name self.now name.now)) }
    {
        device_len(&self.device) + pieces_len(&self.steps) + name.as_bytes().len()
    }

    // The path with one more name.
    fn longer(&self, name: &Text) -> Result<Path, NoMemory>
        requires name { is_name name.now ≡ true }
        requires fits { length (text_of (path_with_name self.now name.now)) ≤ path_limit }
        ensures { IfOk result (λ path. path ≡ path_with_name self.now name.now) }
    {
        let mut path = self.copy()?;
        path.steps.push(Step::Name(name.copy()?))?;
        Ok(path)
    }
}

// The bytes are the text of a path.
fn names_a_path(text: &[u8]) -> bool
    ensures { result ≡ (nat_le (length text.now) path_limit && are_parts (parts_of text.now)) }
{
    if text.len() > PATH_LIMIT {
        return false;
    }
    match colon(text) {
        None => are_pieces(text),
        Some(place) => is_path_piece(&text[..place]) && are_pieces(&text[place + 1..]),
    }
}

// The path of a text that names one.
fn read(alloc: Global, text: &Text) -> Result<Path, NoMemory>
    requires parts { are_parts (parts_of text.now) ≡ true }
    requires fits { length text.now ≤ path_limit }
    ensures { IfOk result (λ path. path ≡ parts_of text.now) }
{
    match colon(text.as_bytes()) {
        None => Ok(Path {
            device: None,
            steps: steps(alloc, text, 0)?,
        }),
        Some(place) => Ok(Path {
            device: Some(text.part(0, place)?),
            steps: steps(alloc, text, place + 1)?,
        }),
    }
}

// How many bytes a device text has, its colon included.
fn device_len(device: &Option<Text>) -> usize
    requires { length (device_text device.now) ≤ path_limit }
    ensures { result ≡ length (device_text device.now) }
{
    match device {
        None => 0,
        Some(text) => text.as_bytes().len() + 1,
    }
}

// How many bytes steps have if each is followed by a slash.
fn pieces_len(steps: &[Step]) -> usize
    requires { pieces_len steps.now ≤ path_limit + 1 }
    ensures { result ≡ pieces_len steps.now }
{
    let Some((step, rest)) = steps.split_first() else {
        return 0;
    };
    match step {
        Step::Up => 1 + pieces_len(rest),
        Step::Name(name) => name.as_bytes().len() + 1 + pieces_len(rest),
    }
}
