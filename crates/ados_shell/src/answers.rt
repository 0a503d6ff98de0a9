// Answers of a launcher, for a shell that waits for one.
ghost use Rattle.std.specs.Prelude.{◌≡◌, IfOk, OnErr, OnOk, is_some, true, None};
ghost use Rattle.ados_machine.specs.{Answers.{answered_completion, answered_in, code_of, ended_completion, output_fault, is_piece, piece_completion, started_completion}, Opening.{line_output}, declared.phases.Wait.TheVariants.{ForEnd as EndOf, ForPiece as PieceOf, ForStart as StartOf}};
ghost use Rattle.ados_text.specs.declared.codes.TheConstants.Result2.{NONE};

use crate::drafts::Draft;
use crate::scenes::Scene;
use crate::suspensions::Suspension;
use ados_find::Codes;
use ados_machine::{Answer, Child, Starting, Wait};
use ados_text::{Code, NoMemory, Octets, PIECE_BYTES, Result2, Stop, Text};

/// What an answer for a shell results in.
#[derive(Clone, Copy)]
pub enum Answering {
    /// The shell does not wait for it.
    WrongAnswer,
    /// The shell went on by it.
    Goes,
}

impl Draft {
    ghost use Rattle.ados_shell.specs.{Answerings.{GivesReply, IsReplied, TakesReply}, Drafts.{IsApplied, course_of, here_in}};

    /// A launcher's answer for the scene's shell: if it waits for one of this kind, the draft is filled with what is
    /// to be changed. Nothing else is changed, and what the draft held before is forgotten.
    ///
    /// A program that has started has its output opened, and is read until that ends; then its end is waited for, and its
    /// command returns. A piece of no bytes, or of more than 4,096, is never waited for.
    ///
    /// `NoMemory` if there is none for what the answer makes, and only if the shell waits for it.
    pub fn take_answer_of(&mut self, scene: &Scene, answer: &Answer) -> Result<Answering, NoMemory>
        ensures answering { IfOk result (λ answering. GivesReply scene.now answer.now answering self.new) }
        ensures memory { OnErr result (TakesReply scene.now answer.now) }
    {
        self.begin_answer(scene.shell);
        match self.reply_by(scene, answer)? {
            Answering::WrongAnswer => Ok(Answering::WrongAnswer),
            Answering::Goes => {
                self.bind(scene)?;
                Ok(Answering::Goes)
            }
        }
    }

    /// An answer for the scene's shell, of which nothing is changed yet.
    fn reply_by(&mut self, scene: &Scene, answer: &Answer) -> Result<Answering, NoMemory>
        ensures completion { IfOk result (λ answering. IsReplied scene.now self.old self.new answering
            (answered_in (here_in scene.now self.old).sink (course_of scene.now self.old) scene.now.shell.now.phase answer.now)) }
        ensures memory { OnErr result (is_some (answered_in (here_in scene.now self.old).sink (course_of scene.now self.old) scene.now.shell.now.phase answer.now) ≡ true) }
    {
        let shell = scene.shell;
        match &shell.phase {
            None => Ok(Answering::WrongAnswer),
            Some(suspension) => match &**suspension {
                Suspension::Waiting(Wait::ForStart(starting)) => {
                    self.reply_to_start(scene, starting, answer)
                }
                Suspension::Waiting(Wait::ForPiece(child)) => {
                    self.reply_to_read(scene, child, answer)
                }
                Suspension::Waiting(Wait::ForEnd(child)) => {
                    self.reply_to_wait(scene, child, answer)
                }
                _ => Ok(Answering::WrongAnswer),
            },
        }
    }

    /// An answer for a shell that waits for a start. If the program could not be started, that is its command's fault.
    fn reply_to_start(
        &mut self,
        scene: &Scene,
        starting: &Starting,
        answer: &Answer,
    ) -> Result<Answering, NoMemory>
        ensures completion { IfOk result (λ answering. IsReplied scene.now self.old self.new answering
            (answered_completion (here_in scene.now self.old).sink (course_of scene.now self.old) (StartOf starting.now) answer.now)) }
        ensures memory { OnErr result (is_some (answered_completion (here_in scene.now self.old).sink (course_of scene.now self.old) (StartOf starting.now) answer.now) ≡ true) }
    {
        let word = &starting.word;
        match answer {
            Answer::Started => self.begin_to_read(scene, starting)?,
            Answer::NotFound => self.refuse(scene, word, Result2::OBJECT_NOT_FOUND)?,
            Answer::Denied => self.refuse(scene, word, Result2::NOT_EXECUTABLE)?,
            Answer::Memory => self.refuse(scene, word, Result2::NO_FREE_STORE)?,
            Answer::Other => self.refuse(scene, word, Result2::NOT_IMPLEMENTED)?,
            _ => return Ok(Answering::WrongAnswer),
        }
        Ok(Answering::Goes)
    }

    /// The program has started: its output is opened by its text, and the shell waits for a piece, or for the program's end
    /// if that was broken. That the output is refused is the program's first fault.
    fn begin_to_read(&mut self, scene: &Scene, starting: &Starting) -> Result<(), NoMemory>
        ensures { OnOk result (IsApplied scene.now self.old self.new
            (started_completion starting.now (course_of scene.now self.old) (line_output (course_of scene.now self.old) starting.now.output))) }
    {
        match self.open_own(scene, starting.output.as_ref()) {
            Err(Stop::NoMemory) => Err(NoMemory),
            Err(Stop::Refused(fault)) => {
                let child = starting.child(None, Some(fault))?;
                self.wait(scene, child.next())
            }
            Ok(target) => {
                let child = starting.child(target, None)?;
                self.wait(scene, child.next())
            }
        }
    }

    /// An answer for a shell that waits for a piece.
    fn reply_to_read(
        &mut self,
        scene: &Scene,
        child: &Child,
        answer: &Answer,
    ) -> Result<Answering, NoMemory>
        ensures completion { IfOk result (λ answering. IsReplied scene.now self.old self.new answering
            (answered_completion (here_in scene.now self.old).sink (course_of scene.now self.old) (PieceOf child.now) answer.now)) }
        ensures memory { OnErr result (is_some (answered_completion (here_in scene.now self.old).sink (course_of scene.now self.old) (PieceOf child.now) answer.now) ≡ true) }
    {
        match answer {
            Answer::Bytes(bytes) if is_piece(bytes) => self.take_piece(scene, child, bytes)?,
            Answer::End => self.wait(scene, Wait::ForEnd(child.copy()?.read_out()))?,
            Answer::PipeFault => {
                let child = child.copy()?.read_out();
                let child = child.with_fault(Result2::PIPE_FAULT);
                self.wait(scene, Wait::ForEnd(child))?;
            }
            _ => return Ok(Answering::WrongAnswer),
        }
        Ok(Answering::Goes)
    }

    /// A piece of the program's output is written as it comes, and the shell waits for the next, or for the program's end if
    /// that was broken; after a fault the piece is dropped.
    fn take_piece(&mut self, scene: &Scene, child: &Child, bytes: &Octets) -> Result<(), NoMemory>
        ensures { OnOk result (IsApplied scene.now self.old self.new
            (piece_completion child.now bytes.now (here_in scene.now self.old).sink (course_of scene.now self.old) child.now.fault)) }
    {
        match child.fault {
            Some(_) => self.wait(scene, child.copy()?.with_break().next()),
            None => self.put_piece(scene, child, bytes),
        }
    }

    /// A piece of the program's output is written, and the shell waits for what comes next. If it does not fit, that is the
    /// program's first fault, unless it was broken before; its output stays open.
    fn put_piece(&mut self, scene: &Scene, child: &Child, bytes: &Octets) -> Result<(), NoMemory>
        ensures { OnOk result (IsApplied scene.now self.old self.new
            (piece_completion child.now bytes.now (here_in scene.now self.old).sink (course_of scene.now self.old) None)) }
    {
        let output = child.output.as_ref();
        let codes = self.put(scene, output, bytes.copy()?, Codes::NONE)?;
        let child = child.copy()?.with_break();
        let child = child.after_piece(output_fault(codes));
        self.wait(scene, child.next())
    }

    /// An answer for a shell that waits for the end of a program, whose command then returns.
    fn reply_to_wait(
        &mut self,
        scene: &Scene,
        child: &Child,
        answer: &Answer,
    ) -> Result<Answering, NoMemory>
        ensures completion { IfOk result (λ answering. IsReplied scene.now self.old self.new answering
            (answered_completion (here_in scene.now self.old).sink (course_of scene.now self.old) (EndOf child.now) answer.now)) }
        ensures memory { OnErr result (is_some (answered_completion (here_in scene.now self.old).sink (course_of scene.now self.old) (EndOf child.now) answer.now) ≡ true) }
    {
        match answer {
            Answer::Exit(status) => self.end_program(scene, child, codes_of(*status))?,
            Answer::Signal => {
                let codes = Codes::failed(Result2::ENDED_BY_SIGNAL);
                self.end_program(scene, child, codes)?;
            }
            Answer::WaitFault => {
                let codes = Codes::failed(Result2::WAIT_FAULT);
                self.end_program(scene, child, codes)?;
            }
            _ => return Ok(Answering::WrongAnswer),
        }
        Ok(Answering::Goes)
    }

    /// The program has ended: the first fault that came is its command's; without one the command returns these codes.
    fn end_program(&mut self, scene: &Scene, child: &Child, codes: Codes) -> Result<(), NoMemory>
        ensures { OnOk result (IsApplied scene.now self.old self.new (ended_completion child.now codes (course_of scene.now self.old) child.now.fault)) }
    {
        match child.fault {
            Some(fault) => self.refuse(scene, &child.word, fault),
            None => self.answer(scene, child.word.as_bytes(), codes, false),
        }
    }
}

/// The fault of the output that was written, if there was one.
fn output_fault(codes: Codes) -> Option<Result2>
    ensures { result ≡ output_fault codes }
{
    if codes.result2 == Result2::NONE {
        None
    } else {
        Some(codes.result2)
    }
}

/// A piece has 1 to 4,096 bytes.
fn is_piece(bytes: &Octets) -> bool
    ensures { result ≡ is_piece bytes.now }
{
    let bytes = bytes.as_bytes();
    !bytes.is_empty() && bytes.len() <= PIECE_BYTES
}

/// What the command of a program that ended with a status returns.
fn codes_of(status: u8) -> Codes
    ensures { result ≡ record { code = code_of status; result2 = NONE } }
{
    Codes {
        code: code_of(status),
        result2: Result2::NONE,
    }
}

/// The code of a program that ended with a status.
fn code_of(status: u8) -> Code
    ensures { result ≡ code_of status }
{
    match status {
        0 => Code::OK,
        1..=9 => Code::WARN,
        10..=19 => Code::ERROR,
        20..=255 => Code::FAIL,
    }
}
