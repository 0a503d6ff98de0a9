//! Writing a file: the files with its bytes, kept and new.
ghost use Rattle.std.specs.{Prelude.{◌≡◌, false, IfOk}, Option.{option_copied}};
ghost use Rattle.std.specs.FinMap as map;
ghost use Rattle.ados_ram.specs.{Place.{key_of, is_root, last_name}, Files.{AreFiles}, InUse.{is_output}, FileOperations.{write_of, write_fault, write_as_of, append_of, append_fault, put_open_of, put_open_fault}};
ghost use Rattle.ados_text.specs.Stop.{Answers};

use crate::entries::{Bits, Entry};
use crate::file_bytes::FileBytes;
use crate::files::Ram;
use crate::in_use::Busy;
use crate::limits::Limits;
use crate::new_bytes::NewBytes;
use crate::places::Place;
use crate::refusals::{is_put, is_unarchived_file, put_refusal, write_refusal};
use crate::table::entry_bytes;
use ados_text::{NoMemory, Stop};

impl Ram {
    /// Writes a file: the files in which it holds these bytes. An existing one keeps its name, its comment and its bits,
    /// except for bit a; a new one takes the name as it is written here and the bits `----rwed`.
    ///
    /// 204 (directory not found) if a directory above does not exist, 212 (wrong type of object) if a file is in its
    /// place; 212 (wrong type of object) for a directory, 202 (object in use) for an open output, 223 (write protected)
    /// without bit w; 221 (disk full) for a file with more bytes than the limits allow, for more bytes in all, or for more
    /// objects.
    pub fn write(
        &self,
        limits: Limits,
        busy: &Busy,
        place: &Place,
        bytes: &[u8],
    ) -> Result<Ram, Stop>
        ensures ok { IfOk result (λ new. new ≡ write_of self.now (key_of place.now) (last_name place.now) bytes.now) }
        ensures fault { Answers result (write_fault limits (is_output busy.now (key_of place.now)) self.now (key_of place.now) (last_name place.now) bytes.now) }
    {
        self.write_as(limits, busy, place, bytes, Bits::FRESH)
    }

    /// Writes a file as `write` does, but a new one takes these bits.
    ///
    /// 204 (directory not found), 212 (wrong type of object), 202 (object in use), 223 (write protected) and 221 (disk
    /// full), each when `write` gives it.
    pub fn write_as(
        &self,
        limits: Limits,
        busy: &Busy,
        place: &Place,
        bytes: &[u8],
        bits: Bits,
    ) -> Result<Ram, Stop>
        ensures ok { IfOk result (λ new. new ≡ write_as_of self.now (key_of place.now) (last_name place.now) bytes.now bits) }
        ensures fault { Answers result (write_fault limits (is_output busy.now (key_of place.now)) self.now (key_of place.now) (last_name place.now) bytes.now) }
    {
        self.put(limits, busy, place, &NewBytes::new(None, bytes), bits)
    }

    /// Writes a file as `write_as` does, with bytes that are shared.
    ///
    /// 204 (directory not found), 212 (wrong type of object), 202 (object in use), 223 (write protected) and 221 (disk
    /// full), each when `write` gives it.
    pub fn write_shared(
        &self,
        limits: Limits,
        busy: &Busy,
        place: &Place,
        bytes: &FileBytes,
        bits: Bits,
    ) -> Result<Ram, Stop>
        ensures ok { IfOk result (λ new. new ≡ write_as_of self.now (key_of place.now) (last_name place.now) bytes.now bits) }
        ensures fault { Answers result (write_fault limits (is_output busy.now (key_of place.now)) self.now (key_of place.now) (last_name place.now) bytes.now) }
    {
        self.put(limits, busy, place, &NewBytes::new(Some(bytes), &[]), bits)
    }

    /// Appends bytes to a file; a file that does not exist is created. No bytes change nothing of a file without bit a.
    ///
    /// 204 (directory not found), 212 (wrong type of object), 202 (object in use) and 223 (write protected), each when
    /// `write` gives it; 221 (disk full) when `write` gives it for the bytes that the file would then hold.
    pub fn append(
        &self,
        limits: Limits,
        busy: &Busy,
        place: &Place,
        bytes: &[u8],
    ) -> Result<Ram, Stop>
        ensures ok { IfOk result (λ new. new ≡ append_of self.now (key_of place.now) (last_name place.now) bytes.now) }
        ensures fault { Answers result (append_fault limits (is_output busy.now (key_of place.now)) self.now (key_of place.now) (last_name place.now) bytes.now) }
    {
        let old = self.table.find(place.names());
        let new = NewBytes::new(entry_bytes(old), bytes);
        if bytes.is_empty() && is_unarchived_file(old) {
            self.keep(limits, busy, place, &new)
        } else {
            self.put(limits, busy, place, &new, Bits::FRESH)
        }
    }

    /// Appends bytes to an output that is open, whatever its bits have become. Its bit a is cleared by one byte or more;
    /// no bytes change nothing, and if there is no file the bytes are discarded.
    ///
    /// 221 (disk full) when `write` gives it for the bytes that the file would then hold, and only if there is a file
    /// and a byte to append.
    pub fn put_open(&self, limits: Limits, place: &Place, bytes: &[u8]) -> Result<Ram, Stop>
        ensures ok { IfOk result (λ new. new ≡ put_open_of self.now (key_of place.now) (last_name place.now) bytes.now) }
        ensures fault { Answers result (put_open_fault limits self.now (key_of place.now) (last_name place.now) bytes.now) }
    {
        match put_refusal(limits, &self.table, place.names(), bytes) {
            Some(fault) => Err(Stop::Refused(fault)),
            None => Ok(self.with_put(place, bytes)?),
        }
    }

    // The files as they are, unless a file with these bytes would be refused.
    fn keep(
        &self,
        limits: Limits,
        busy: &Busy,
        place: &Place,
        bytes: &NewBytes<'_>,
    ) -> Result<Ram, Stop>
        ensures ok { IfOk result (λ new. new ≡ self.now) }
        ensures fault { Answers result (write_fault limits (is_output busy.now (key_of place.now)) self.now (key_of place.now) (last_name place.now) bytes.now) }
    {
        let open = busy.is_output(place.names());
        match write_refusal(limits, open, &self.table, place.names(), bytes) {
            Some(fault) => Err(Stop::Refused(fault)),
            None => Ok(self.copy()?),
        }
    }

    // The files with a file of these bytes; a new one takes the bits.
    pub(crate) fn put(
        &self,
        limits: Limits,
        busy: &Busy,
        place: &Place,
        bytes: &NewBytes<'_>,
        bits: Bits,
    ) -> Result<Ram, Stop>
        ensures ok { IfOk result (λ new. new ≡ write_as_of self.now (key_of place.now) (last_name place.now) bytes.now bits) }
        ensures fault { Answers result (write_fault limits (is_output busy.now (key_of place.now)) self.now (key_of place.now) (last_name place.now) bytes.now) }
    {
        let old = self.table.find(place.names());
        let open = busy.is_output(place.names());
        match write_refusal(limits, open, &self.table, place.names(), bytes) {
            Some(fault) => Err(Stop::Refused(fault)),
            None => Ok(self.with_bytes(place, old, bytes, bits)?),
        }
    }

    // The files with bytes appended to an open output.
    pub(crate) fn with_put(&self, place: &Place, bytes: &[u8]) -> Result<Ram, NoMemory>
        requires { AreFiles (put_open_of self.now (key_of place.now) (last_name place.now) bytes.now) }
        ensures { IfOk result (λ new. new ≡ put_open_of self.now (key_of place.now) (last_name place.now) bytes.now) }
    {
        let old = self.table.find(place.names());
        if is_put(old, bytes) {
            let bytes = NewBytes::new(entry_bytes(old), bytes);
            self.with_bytes(place, old, &bytes, Bits::FRESH)
        } else {
            self.copy()
        }
    }

    // The files with a file of these bytes; a new one takes the bits. The old entry is the one at the place.
    pub(crate) fn with_bytes(
        &self,
        place: &Place,
        old: Option<&Entry>,
        bytes: &NewBytes<'_>,
        bits: Bits,
    ) -> Result<Ram, NoMemory>
        requires root { is_root (key_of place.now) ≡ false }
        requires old { option_copied old ≡ map.get self.now (key_of place.now) }
        requires files { AreFiles (write_as_of self.now (key_of place.now) (last_name place.now) bytes.now bits) }
        ensures { IfOk result (λ new. new ≡ write_as_of self.now (key_of place.now) (last_name place.now) bytes.now bits) }
    {
        let bytes = bytes.joined(self.alloc)?;
        let entry = Entry::written(self.alloc, old, place, bytes, bits)?;
        self.with(place, entry)
    }

    // The files with an entry at a place.
    pub(crate) fn with(&self, place: &Place, entry: Entry) -> Result<Ram, NoMemory>
        requires root { is_root (key_of place.now) ≡ false }
        requires files { AreFiles (map.insert self.now (key_of place.now) entry) }
        ensures { IfOk result (λ new. new ≡ map.insert self.now (key_of place.now) entry) }
    {
        Ok(Ram {
            table: self.table.with(place, entry)?,
            alloc: self.alloc,
        })
    }
}
