// What Assign is given besides NAME, and what is wrong with it.
ghost use Rattle.std.specs.Prelude.{◌≡◌, IfOk};
ghost use Rattle.ados_env.specs.AssignRequest.{are_two, changes_list, has_target, keeps_text, request_fault, parsed_request, targets_fault};

use ados_find::Codes;
use ados_readargs::Args;
use ados_text::{NoMemory, Result2, Texts};
use std::alloc::Global;

/// What Assign is given besides NAME: its switches, and the texts of TARGET.
#[derive(Drop)]
pub struct Request {
    /// The assign is printed.
    pub prints: bool,
    /// TARGET is kept as a text up to its first use.
    pub defers: bool,
    /// TARGET is kept as a text, and followed at each use.
    pub follows: bool,
    /// The directories are added at the end.
    pub adds: bool,
    /// The directories are removed.
    pub removes: bool,
    /// The texts of TARGET.
    pub targets: Texts,
}

impl Request {
    /// What the arguments of Assign ask for.
    pub fn of(alloc: Global, args: &Args) -> Result<Request, NoMemory>
        ensures { IfOk result (λ request. request ≡ parsed_request args.now) }
    {
        Ok(Request {
            prints: args.has_switch(2),
            defers: args.has_switch(3),
            follows: args.has_switch(4),
            adds: args.has_switch(5),
            removes: args.has_switch(6),
            targets: args.made_texts(alloc, 1)?,
        })
    }

    /// TARGET is kept as a text.
    pub fn keeps_text(&self) -> bool
        ensures { result ≡ keeps_text self.now }
    {
        self.defers || self.follows
    }

    /// The directories of an existing assign are changed.
    pub fn changes_list(&self) -> bool
        ensures { result ≡ changes_list self.now }
    {
        self.adds || self.removes
    }

    /// It has texts of TARGET.
    pub fn has_target(&self) -> bool
        ensures { result ≡ has_target self.now }
    {
        self.targets.len() > 0
    }

    // Two of the switches are on.
    fn are_two(&self) -> bool
        ensures { result ≡ are_two self.now }
    {
        let Request {
            prints,
            defers,
            follows,
            adds,
            removes,
            ..
        } = *self;
        (prints && (defers || (follows || (adds || removes))))
            || ((defers && (follows || (adds || removes)))
                || ((follows && (adds || removes)) || (adds && removes)))
    }

    /// What is wrong with it before the name is checked.
    ///
    /// 118 for two switches, or EXISTS with TARGET; 116 for TARGET, or a switch other than EXISTS, without NAME.
    pub fn fault(&self, has_name: bool) -> Option<Codes>
        ensures { result ≡ request_fault self.now has_name }
    {
        if self.are_two() || (self.prints && self.has_target()) {
            return Some(Codes::failed(Result2::TOO_MANY_ARGUMENTS));
        }
        if !has_name && (self.has_target() || (self.keeps_text() || self.changes_list())) {
            return Some(Codes::failed(Result2::ARGUMENT_MISSING));
        }
        None
    }

    /// What is wrong with its targets.
    ///
    /// 116 for ADD, PATH or DEFER without TARGET; 118 for PATH or DEFER with two.
    pub fn targets_fault(&self) -> Option<Codes>
        ensures { result ≡ targets_fault self.now }
    {
        if (self.adds || self.keeps_text()) && !self.has_target() {
            return Some(Codes::failed(Result2::ARGUMENT_MISSING));
        }
        if self.keeps_text() && self.targets.len() > 1 {
            return Some(Codes::failed(Result2::TOO_MANY_ARGUMENTS));
        }
        None
    }
}
