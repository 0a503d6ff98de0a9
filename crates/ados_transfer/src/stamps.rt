//! Stamps of files of this machine, by which a change of one is noticed.
ghost use Rattle.std.specs.{Prelude.{◌≡◌, nat_le}, Time.{system_time_nanos}};
ghost use Rattle.ados_transfer.specs.{Decisions.{is_same_time, is_same_stamp}, Stamps.{is_same_file, last_nanos, time_nanos}};

use std::fs::Metadata;
use std::os::unix::fs::MetadataExt;
use std::time::{Duration, SystemTime};

// A time without a fraction of a second may be that of a clock which stands still for so many nanoseconds.
const WHOLE_TICK: u128 = 2_000_000_000;

/// A time of a file.
#[derive(Clone, Copy)]
pub struct Time {
    /// Seconds since 1970.
    pub seconds: u64,
    /// And nanoseconds.
    pub nanoseconds: u64,
}

/// What distinguishes a file from a changed one, as long as no two changes happen in one tick of the clock.
#[derive(Clone, Copy)]
pub struct Stamp {
    /// How many bytes it has.
    pub size: u64,
    /// Its inode number.
    pub number: u64,
    /// When its bytes were changed (mtime); programs can set this time.
    pub modified: Time,
    /// When anything of it was changed (ctime), by the clock of the system.
    pub changed: Time,
}

impl Time {
    // The two are the same time.
    fn is_same(&self, other: &Time) -> bool
        ensures { result ≡ is_same_time self.now other.now }
    {
        self.seconds == other.seconds && self.nanoseconds == other.nanoseconds
    }

    // Its nanoseconds since 1970.
    fn since_1970(&self) -> u128
        ensures { result ≡ time_nanos self.now }
    {
        u128::from(self.seconds) * 1_000_000_000 + u128::from(self.nanoseconds)
    }

    // The nanoseconds since 1970 at which the last change with this time may have been.
    fn latest(&self) -> u128
        ensures { result ≡ last_nanos self.now }
    {
        if self.nanoseconds == 0 {
            self.since_1970() + WHOLE_TICK
        } else {
            self.since_1970()
        }
    }
}

impl Stamp {
    /// The stamp of an object that does not exist.
    pub const NONE: Stamp = Stamp {
        size: 0,
        number: 0,
        modified: Time {
            seconds: 0,
            nanoseconds: 0,
        },
        changed: Time {
            seconds: 0,
            nanoseconds: 0,
        },
    };

    /// The stamp of a file, or of whatever it is.
    pub fn of(found: &Metadata) -> Stamp {
        Stamp {
            size: found.len(),
            number: found.ino(),
            modified: Time {
                seconds: found.mtime().cast_unsigned(),
                nanoseconds: found.mtime_nsec().cast_unsigned(),
            },
            changed: Time {
                seconds: found.ctime().cast_unsigned(),
                nanoseconds: found.ctime_nsec().cast_unsigned(),
            },
        }
    }

    /// The two have the same stamp.
    pub fn is_same(&self, other: &Stamp) -> bool
        ensures { result ≡ is_same_stamp self.now other.now }
    {
        self.size == other.size
            && self.number == other.number
            && self.modified.is_same(&other.modified)
            && self.changed.is_same(&other.changed)
    }

    /// The two are those of one file that may have taken another name between them, with the same bytes as far as stamps say that.
    pub fn is_same_file(&self, other: &Stamp) -> bool
        ensures { result ≡ is_same_file self.now other.now }
    {
        let is_unwritten = self.modified.is_same(&other.modified);
        is_unwritten && self.size == other.size && self.number == other.number
    }

    /// A change right after this look might leave the same stamp: the file was changed in the tick of the clock in which it was
    /// looked at. If the time has no fraction of a second, the ticks are assumed to last up to two seconds.
    pub fn is_fresh(&self, now: &SystemTime) -> bool {
        let tick = if self.changed.nanoseconds == 0 {
            Duration::from_secs(2)
        } else {
            Duration::from_millis(50)
        };
        let changed = Duration::from_secs(self.changed.seconds).saturating_add(Duration::from_nanos(
            self.changed.nanoseconds,
        ));
        match now.duration_since(SystemTime::UNIX_EPOCH) {
            Ok(now) => changed.saturating_add(tick) >= now,
            Err(_) => true,
        }
    }

    /// The file may have been changed since this moment, by the time of the system, which no program can set.
    ///
    /// That clock stands still for up to 10 milliseconds, so a change so soon after the moment seems to be before it: the caller sees to it
    /// that none comes then. To count as changed what seems to be just before it would be wrong: a script that writes a file and then
    /// starts this program does so in less than that. But where a time has no fraction of a second, and the clock may stand still for two
    /// seconds, nobody waits for it: what may have been changed was.
    pub fn is_changed_since(&self, moment: &SystemTime) -> bool
        ensures { result ≡ nat_le (system_time_nanos moment.now) (last_nanos self.now.changed) }
    {
        match moment.duration_since(SystemTime::UNIX_EPOCH) {
            Ok(since_1970) => since_1970.as_nanos() <= self.changed.latest(),
            Err(_) => true,
        }
    }
}
