//! The launcher: it hands out the files that are brought in, and starts programs of this machine.
ghost use Rattle.std.specs.Prelude.{◌≡◌, [], true, false, IfOk};
ghost use Rattle.ados_machine.specs.Children.{answers_start, answers_read, answers_wait};

use crate::delivery::Delivery;
use crate::error_codes::{ErrorCode, least_code, raised};
use ados_launch::Launcher;
use ados_launcher::{Log, Programs, StartFolder};
use ados_machine::{Answer, Job};
use ados_ram::FileBytes;
use ados_text::NoMemory;
use ados_transfer::{BRING, Content, Planned};
use std::alloc::Global;
use std::marker::Model;
use std::process::Processes;

/// A launcher whose command `amishell-bring` prints the files one by one, and which starts real programs for all others.
#[derive(Drop)]
pub struct Bringer<'a, R: Processes> {
    children: Children<'a, R>,
    log: Log,
}

// What runs: `amishell-bring`, and the programs that were started.
#[derive(Drop)]
struct Children<'a, R: Processes> {
    alloc: Global,
    // What is left to be brought in.
    left: &'a [Planned],
    // What is brought in before that.
    offered: Option<FileBytes>,
    // The file that `amishell-bring` prints.
    delivery: Option<Delivery>,
    // How the program with this number ended, for the wait that follows.
    ended: Option<(u8, Answer)>,
    programs: Programs<'a, R>,
    // The codes that programs have at least where they fail, and that of each shell's program.
    errors: &'a [ErrorCode],
    least: [u8; 21],
    // No program starts.
    is_barred: bool,
}

/// Where programs start.
#[derive(Drop)]
pub enum Start {
    /// In this process's current directory.
    Home,
    /// In this folder.
    Folder(StartFolder),
    /// Nowhere: a start fails as if there were no such program.
    Nowhere,
}

impl<'a, R: Processes> Model for Bringer<'a, R> {
    ghost use Rattle.ados_launcher.specs.Views.{HostView};

    ghost Value = { HostView };

    ghost view = { λ b. record { calls = b.log.calls; is_full = b.log.is_full } };
}

impl<'a, R: Processes> Bringer<'a, R> {
    /// A launcher without a child, with these files to be brought in, and these codes of programs that fail.
    pub fn new(
        alloc: Global,
        processes: &'a R,
        planned: &'a [Planned],
        errors: &'a [ErrorCode],
    ) -> Result<Bringer<'a, R>, NoMemory>
        ensures calls { IfOk result (λ bringer. bringer.calls ≡ []) }
        ensures full { IfOk result (λ bringer. bringer.is_full ≡ false) }
    {
        Ok(Bringer {
            children: Children {
                alloc,
                left: planned,
                offered: None,
                delivery: None,
                ended: None,
                programs: Programs::new(alloc, processes)?,
                errors,
                least: [0; 21],
                is_barred: false,
            },
            log: Log::new(),
        })
    }

    /// `amishell-bring` prints this the next time; with `None` again what is left to be brought in.
    pub fn offer(&mut self, bytes: Option<FileBytes>)
        ensures { self.new ≡ self.old }
    {
        self.children.offered = bytes;
    }

    /// From now on programs start there.
    pub fn set_start(&mut self, start: Start)
        ensures { self.new ≡ self.old }
    {
        self.children.is_barred = matches!(&start, Start::Nowhere);
        let folder = match start {
            Start::Folder(folder) => Some(folder),
            Start::Home | Start::Nowhere => None,
        };
        self.children.programs.set_folder(folder);
    }

    /// Waits for the end of a program before the world asks for it. The answer to the world is then given at once.
    pub fn await_end(&mut self, child: u8)
        ensures { self.new ≡ self.old }
    {
        let answer = self.children.end(child);
        self.children.ended = Some((child, answer));
    }
}

impl<R: Processes> Children<'_, R> {
    // Starts the program of a job; `amishell-bring` takes the next file.
    fn begin(&mut self, job: &Job) -> Answer
        ensures { answers_start result ≡ true }
    {
        if job.program.as_bytes() != BRING {
            return self.start_program(job);
        }
        match self.take_file() {
            Ok(Some(bytes)) => {
                self.delivery = Some(Delivery::new(job.shell, bytes));
                Answer::Started
            }
            Ok(None) => self.start_program(job),
            Err(NoMemory) => Answer::Memory,
        }
    }

    // The file that `amishell-bring` takes: the one that is offered, or the next of those that are to come in.
    fn take_file(&mut self) -> Result<Option<FileBytes>, NoMemory> {
        if let Some(bytes) = self.offered.take() {
            return Ok(Some(bytes));
        }
        let Some((bytes, left)) = next_file(self.left) else {
            return Ok(None);
        };
        let bytes = bytes.copy()?;
        self.left = left;
        Ok(Some(bytes))
    }

    // Starts the program of a job, unless none starts.
    fn start_program(&mut self, job: &Job) -> Answer
        ensures { answers_start result ≡ true }
    {
        if self.is_barred {
            return Answer::NotFound;
        }
        if let Some(least) = self.least.get_mut(usize::from(job.shell)) {
            *least = least_code(self.errors, &job.program);
        }
        self.programs.start(job)
    }

    // A piece of the output of the program with this number.
    fn piece(&mut self, child: u8) -> Answer
        ensures { answers_read result ≡ true }
    {
        let alloc = self.alloc;
        match &mut self.delivery {
            Some(delivery) if delivery.is_of(child) => delivery.next(alloc),
            _ => self.programs.read(child),
        }
    }

    // How the program with this number ended.
    fn end(&mut self, child: u8) -> Answer
        ensures { answers_wait result ≡ true }
    {
        if self
            .delivery
            .as_ref()
            .is_some_and(|delivery| delivery.is_of(child))
        {
            self.delivery = None;
            return Answer::Exit(0);
        }
        self.program_end(child)
    }

    // How a program ended: what was found before, or what is found now.
    fn program_end(&mut self, child: u8) -> Answer
        ensures { answers_wait result ≡ true }
    {
        if !self.ended.as_ref().is_some_and(|ended| ended.0 == child) {
            return self.wait(child);
        }
        match self.ended.take() {
            Some((_, answer)) => how_it_ended(answer),
            None => self.wait(child),
        }
    }

    // Waits for the end of a program, which has its code at least if it failed.
    fn wait(&mut self, child: u8) -> Answer
        ensures { answers_wait result ≡ true }
    {
        let answer = self.programs.wait(child);
        let least = self.least.get(usize::from(child)).copied().unwrap_or(0);
        raised(answer, least)
    }
}

// The answer if it is the end of a program, otherwise `WaitFault`.
fn how_it_ended(answer: Answer) -> Answer
    ensures { answers_wait result ≡ true }
{
    match answer {
        Answer::Exit(code) => Answer::Exit(code),
        Answer::Signal => Answer::Signal,
        _ => Answer::WaitFault,
    }
}

// The bytes of the first file, and what follows it.
fn next_file(planned: &[Planned]) -> Option<(&FileBytes, &[Planned])> {
    for place in 0..planned.len() {
        if let Content::File { bytes, .. } = &planned[place].content {
            return Some((bytes, &planned[place + 1..]));
        }
    }
    None
}

impl<R: Processes> Launcher for Bringer<'_, R> {
    ghost calls = { λ b. b.calls };

    ghost is_full = { λ b. b.is_full };

    fn start(&mut self, job: &Job) -> Answer {
        let Some(kept) = self.log.room_for(job) else {
            return Answer::Memory;
        };
        let answer = self.children.begin(job);
        self.log.start(kept, answer)
    }

    fn read(&mut self, child: u8) -> Answer {
        let answer = self.children.piece(child);
        self.log.read(child, answer)
    }

    fn wait(&mut self, child: u8) -> Answer {
        let answer = self.children.end(child);
        self.log.wait(child, answer)
    }
}
