// Assign: LIST, VOLS, DIRS and DEVICES.
ghost use Rattle.std.specs.Prelude.{◌≡◌, ◌++◌, IfOk, OnOk};
ghost use Rattle.ados_find.specs.Effects.{effect_of};
ghost use Rattle.ados_env.specs.AssignListing.{is_given_more, lines_if, listing_lines, print_listing};

use crate::assign_lines::push_assigns;
use crate::assign_request::Request;
use crate::options::{ASSIGN_DEVICES, ASSIGN_DIRS, ASSIGN_LIST, ASSIGN_VOLS};
use ados_find::{Codes, CommandResult, Outcome, Shared};
use ados_readargs::Args;
use ados_text::{NoMemory, Result2};
use std::alloc::Global;

/// What Assign is to list.
#[derive(Clone, Copy)]
pub struct Listing {
    /// The devices.
    pub devices: bool,
    /// The volumes.
    pub volumes: bool,
    /// The assigns.
    pub assigns: bool,
}

impl Listing {
    ghost use Rattle.ados_env.specs.AssignListing.{is_asked, listing_of};

    /// What the arguments of Assign ask for.
    pub fn of(args: &Args) -> Listing
        ensures { result ≡ listing_of args.now }
    {
        Listing {
            devices: args.has_switch(ASSIGN_DEVICES),
            volumes: args.has_switch(ASSIGN_VOLS),
            assigns: args.has_switch(ASSIGN_LIST) || args.has_switch(ASSIGN_DIRS),
        }
    }

    /// Anything is to be listed.
    pub fn is_asked(self) -> bool
        ensures { result ≡ is_asked self }
    {
        self.devices || (self.volumes || self.assigns)
    }
}

/// Prints what is to be listed. 118 if anything else is asked for.
pub fn print_listing(
    alloc: Global,
    shared: &Shared,
    request: &Request,
    listing: Listing,
    has_name: bool,
) -> CommandResult
    ensures { IfOk result (λ outcome. effect_of shared.now outcome ≡ print_listing shared.now request.now listing has_name) }
{
    if is_given_more(request, has_name) {
        let codes = Codes::failed(Result2::TOO_MANY_ARGUMENTS);
        return Ok(Outcome::answering(alloc, codes));
    }
    Ok(Outcome::putting(listing_lines(alloc, shared, listing)?))
}

// Something other than EXISTS is given.
fn is_given_more(request: &Request, has_name: bool) -> bool
    ensures { result ≡ is_given_more request.now has_name }
{
    has_name || (request.has_target() || (request.keeps_text() || request.changes_list()))
}

fn listing_lines(alloc: Global, shared: &Shared, listing: Listing) -> Result<Vec<u8>, NoMemory>
    ensures { IfOk result (λ lines. lines.items ≡ listing_lines shared.now listing) }
{
    let mut lines = Vec::new(alloc);
    push_if(&mut lines, listing.devices, b"NIL RAM\n")?;
    push_if(&mut lines, listing.volumes, b"Ram Disk\n")?;
    if listing.assigns {
        push_assigns(&mut lines, &shared.ram, shared.assigns.list())?;
    }
    Ok(lines)
}

fn push_if(lines: &mut Vec<u8>, asked: bool, line: &[u8]) -> Result<(), NoMemory>
    ensures { OnOk result (lines.new.items ≡ lines.old.items ++ lines_if asked line.now) }
{
    if asked {
        lines.extend_from_slice(line)?;
    }
    Ok(())
}
