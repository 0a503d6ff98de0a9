//! Whether all of the folders comes in at the start, and for which of their files there is no room for the bytes.
ghost use Rattle.std.specs.Prelude.{◌≡◌};
ghost use Rattle.ados_share.specs.Fit.{fits, has_room};

use crate::arrivals::{Arrival, Coming};
use crate::mirror::Mirror;
use ados_ram::Ram;
use ados_transfer::{Kind, LeftAlone, Look, Obstacle, Room, TransferFault};
use std::fmt;

// Of what is left out so many objects are named.
const NAMED: usize = 10;

// What the folders of a share need of the Shell's files, and what is in them already.
#[derive(Drop)]
struct Need {
    own: Amount,
    others: Amount,
    most: Amount,
}

// Files and folders, and the bytes of the files.
#[derive(Clone, Copy)]
struct Amount {
    objects: usize,
    bytes: u64,
}

impl Need {
    // What folders need, by a look at them: a file that is too large by itself is a stand-in, which needs no bytes.
    fn of(look: &Look, others: &Room) -> Need {
        let limits = others.limits();
        let mut bytes = 0u64;
        for seen in look.seen.values() {
            if matches!(seen.kind, Kind::File { .. }) && seen.stamp.size <= limits.file() as u64 {
                bytes = bytes.saturating_add(seen.stamp.size);
            }
        }
        Need {
            own: Amount {
                objects: look
                    .seen
                    .values()
                    .filter(|seen| seen.kind != Kind::Foreign)
                    .count(),
                bytes,
            },
            others: Amount {
                objects: others.objects(),
                bytes: others.bytes() as u64,
            },
            most: Amount {
                objects: limits.objects(),
                bytes: limits.bytes() as u64,
            },
        }
    }

    // There is room for each name. A file without room for its bytes has a stand-in.
    fn has_room(&self) -> bool
        ensures { result ≡ has_room self.now }
    {
        self.own.objects <= self.most.objects
            && self.others.objects <= self.most.objects - self.own.objects
    }
}

impl fmt::Display for Need {
    fn fmt<W: fmt::Write>(&self, f: &mut fmt::Formatter<W>) -> Result<(), fmt::Error> {
        let (own, others, most) = (self.own, self.others, self.most);
        write!(
            f,
            "{} files and folders of at most {}, beside {} others; ",
            own.objects, most.objects, others.objects,
        )?;
        write!(
            f,
            "{} bytes of at most {}, beside {} others (--part)",
            own.bytes, most.bytes, others.bytes,
        )
    }
}

// All of the folders comes in: the look left nothing out, nothing is left out since then, and there is room for each name. A name that is
// not there would be taken for a file that does not exist.
fn fits(look: &Look, left_out: &[LeftAlone], need: &Need) -> bool
    ensures { result ≡ fits look.now left_out.now need.now }
{
    look.is_whole() && left_out.is_empty() && need.has_room()
}

impl Mirror {
    // Whether this is the first look at the folders.
    pub(crate) fn begins(&mut self) -> bool {
        !std::mem::replace(&mut self.has_begun, true)
    }

    // Checks whether all that was seen of the folders comes in, given what else is left out, unless a part of it is enough.
    //
    // `DoesNotFit` if not: then the lines to report are those of what is left out.
    pub(crate) fn check_fit(
        &mut self,
        look: &Look,
        left_out: &[LeftAlone],
        files: &Ram,
    ) -> Result<(), TransferFault> {
        let need = Need::of(look, &Room::new(self.alloc, self.options.limits, files)?);
        if self.options.part || fits(look, left_out, &need) {
            return Ok(());
        }
        let number = self.name_left_out(look, left_out)?;
        let folders = self.volumes.folders()?;
        let line = if need.has_room() {
            let names = if number == 1 { "name is" } else { "names are" };
            format!(in self.alloc;
                "{folders} does not fit: {number} {names} left out; --part shares the others"
            )?
        } else {
            format!(in self.alloc; "{folders} does not fit: {need}")?
        };
        Err(TransferFault::DoesNotFit(line))
    }

    // Leaves of the lines to report those of what is left out, the first ones and how many more there are, and gives their number.
    fn name_left_out(
        &mut self,
        look: &Look,
        left_out: &[LeftAlone],
    ) -> Result<usize, TransferFault> {
        let mut all = Vec::new(self.alloc);
        for unread in &look.unread {
            all.push((Obstacle::Unread, unread.path.as_str()))?;
        }
        for one in look.left_alone.iter().chain(left_out.iter()) {
            if one.is_left_out() {
                all.push((one.obstacle, one.path.as_str()))?;
            }
        }
        self.reports.take_lines();
        for (obstacle, path) in all.iter().take(NAMED) {
            self.reports.report(obstacle.text(), path)?;
        }
        let more = all.len().saturating_sub(NAMED);
        if more > 0 {
            self.reports
                .report_line(format!(in self.alloc; "and {more} more")?)?;
        }
        Ok(all.len())
    }

    // Reports in one line which files come in as stand-ins.
    pub(crate) fn report_stand_ins(&mut self, arrivals: &[Arrival]) -> Result<(), TransferFault> {
        let mut paths = Vec::new(self.alloc);
        for arrival in arrivals {
            if matches!(arrival.coming, Coming::StandIn(_)) {
                paths.push(self.volumes.shown(arrival.path.as_str())?)?;
            }
        }
        let named = match paths.as_slice() {
            [] => return Ok(()),
            [one] => one.clone()?,
            [one, two] => format!(in self.alloc; "{one}, {two}")?,
            [one, two, more @ ..] => {
                let more = more.len();
                format!(in self.alloc; "{one}, {two} and {more} more")?
            }
        };
        self.reports
            .report("too large for the Shell, stand-ins", named.as_str())
    }
}
