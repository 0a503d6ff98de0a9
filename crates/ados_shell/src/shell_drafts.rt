// What a turn makes of its shell, to be committed.
ghost use Rattle.std.specs.Prelude.{◌≡◌, ◌||◌, None, false, true, option_map, IfOk, OnErr, OnOk};

use crate::drafts::ShellDraft;
use crate::seen::Others;
use crate::shells::Shell;
use crate::stacks::Stack;
use ados_find::{Change, ShellView};
use ados_machine::Request;
use ados_ram::Place;
use ados_text::NoMemory;

impl ShellDraft {
    ghost use Rattle.ados_find.specs.Changes.{parts_after_command, parts_by_change};
    ghost use Rattle.ados_machine.specs.{Shells.{ShellState}, Requests.{request_of}};
    ghost use Rattle.ados_shell.specs.{Drafts.{IsUnchanged, drafted_shell, drafted_phase, with_codes}, Views.{shell_view}};

    /// A turn of a shell begins: nothing is changed yet, except that its flag is cleared.
    #[inline(always)]
    pub(crate) fn begin_turn(&mut self, shell: &Shell)
        ensures unchanged { IsUnchanged shell.now self.new }
        ensures flag { self.new.flagged ≡ false }
    {
        self.frames.keep_all(shell);
        self.phase = None;
        self.limit = shell.limit;
        self.codes = shell.codes;
        self.directory = None;
        self.setting = None;
        self.kept = None;
        self.flagged = false;
    }

    /// What the shell with this number asks a launcher for after its turn.
    #[inline(always)]
    pub(crate) fn request(&self, number: u8) -> Result<Option<Request>, NoMemory>
        ensures { IfOk result (λ request. request ≡ request_of number (drafted_phase self.now)) }
    {
        match self.phase.as_deref() {
            None => Ok(None),
            Some(phase) => phase.request(number),
        }
    }

    /// What commands read of the shell as it is now, and of the shells that run.
    pub(crate) fn view<'b>(&'b self, shell: &'b Shell, others: Others) -> ShellView<'b>
        requires { self.now.setting ≡ None }
        ensures { result ≡ shell_view (drafted_shell self.now shell.now).parts others.busy others.names others.uses }
    {
        let Others { busy, names, uses } = others;
        ShellView {
            number: shell.number,
            directory: self.directory(shell),
            limit: self.limit,
            codes: self.codes,
            settings: shell.settings(),
            busy,
            names,
            uses,
        }
    }

    /// The current directory as it is now.
    pub(crate) fn directory<'b>(&'b self, shell: &'b Shell) -> &'b Place
        ensures { result.now ≡ (drafted_shell self.now shell.now).parts.directory }
    {
        match &self.directory {
            None => shell.directory(),
            Some(directory) => directory,
        }
    }

    /// A command changed one of the shell's parts, or none, and may have flagged the shell.
    pub(crate) fn affect(&mut self, change: Option<Box<Change>>, flags: bool)
        requires { self.old.setting ≡ None }
        ensures parts { (shell : ShellState) → (drafted_shell self.new shell).parts ≡ parts_after_command (option_map (λ c. c.value) change) (drafted_shell self.old shell).parts }
        ensures frames { self.new.frames ≡ self.old.frames }
        ensures kept { self.new.kept ≡ self.old.kept }
        ensures flag { self.new.flagged ≡ (self.old.flagged || flags) }
    {
        if let Some(change) = change {
            self.change(Box::into_inner(change));
        }
        self.flagged |= flags;
    }

    /// A command changed one of the shell's parts.
    pub(crate) fn change(&mut self, change: Change)
        requires { self.old.setting ≡ None }
        ensures parts { (shell : ShellState) → (drafted_shell self.new shell).parts ≡ parts_by_change change (drafted_shell self.old shell).parts }
        ensures frames { self.new.frames ≡ self.old.frames }
        ensures phase { self.new.phase ≡ self.old.phase }
        ensures kept { self.new.kept ≡ self.old.kept }
        ensures flag { self.new.flagged ≡ self.old.flagged }
    {
        match change {
            Change::Limit(limit) => self.limit = limit,
            Change::Directory(directory) => self.directory = Some(directory),
            Change::Set(setting) => self.setting = Some(setting),
        }
    }

    /// Commits what a turn makes of its shell.
    ///
    /// `NoMemory` if there is no room for the frames, for a new name or for what is asked for; the shell is then as it
    /// was.
    pub fn commit(&mut self, shell: &mut Shell) -> Result<(), NoMemory>
        ensures ok { OnOk result (shell.new ≡ drafted_shell self.old shell.old) }
        ensures err { OnErr result (shell.new ≡ shell.old) }
    {
        if !self.sets_codes_alone(shell) {
            return self.commit_all(shell);
        }
        shell.limit = self.limit;
        shell.codes = self.codes;
        shell.flagged = self.flagged;
        Ok(())
    }

    // The turn changed the shell's codes, its limit and its flag at most, as that of nearly each line does.
    #[inline(always)]
    fn sets_codes_alone(&self, shell: &Shell) -> bool
        ensures { result ≡ true → drafted_shell self.now shell.now ≡ with_codes self.now shell.now }
    {
        self.phase.is_none()
            && shell.phase.is_none()
            && self.frames.own.is_empty()
            && self.frames.kept_count == shell.frames.len()
            && self.setting.is_none()
            && self.kept.is_none()
            && self.directory.is_none()
    }

    // Commits all that a turn makes of its shell.
    #[inline(never)]
    fn commit_all(&mut self, shell: &mut Shell) -> Result<(), NoMemory>
        ensures ok { OnOk result (shell.new ≡ drafted_shell self.old shell.old) }
        ensures err { OnErr result (shell.new ≡ shell.old) }
    {
        let request = self.request(shell.number)?;
        let Stack { kept_count, own } = &mut self.frames;
        shell.frames.reserve(own.len())?;
        if let Some(setting) = self.setting.take() {
            shell.settings.set(setting)?;
        }
        shell.frames.truncate(*kept_count);
        let Ok(()) = shell.frames.append(own) else {
            unreachable!();
        };
        shell.phase = self.phase.take();
        shell.request = request;
        shell.limit = self.limit;
        shell.codes = self.codes;
        shell.flagged = self.flagged;
        if let Some(kept) = self.kept.take() {
            shell.kept = kept;
        }
        if let Some(directory) = self.directory.take() {
            shell.directory = directory;
        }
        Ok(())
    }
}
