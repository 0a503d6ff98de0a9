// Questions: what Ask does, and what a reply does.
ghost use Rattle.std.specs.{Prelude.{◌≡◌, ◌++◌, IfOk, OnOk}, Option.{option_map}};
ghost use Rattle.ados_machine.specs.Questions.{ask_completion, inquiry, question_completion, question_text, reply_completion};

use crate::completions::Completion;
use crate::drafts::Draft;
use crate::scenes::Scene;
use ados_find::Codes;
use ados_flow::reply_of;
use ados_machine::{Asking, Question, Wait};
use ados_text::{NoMemory, Stop, Text};

impl Draft {
    ghost use Rattle.ados_shell.specs.{Completions.{HasEnded}, Drafts.{course_of}};

    /// Ask asks its input, and if it has none its shell waits.
    pub(crate) fn inquire(
        &mut self,
        scene: &Scene,
        question: Question,
        input: Option<&[Text]>,
    ) -> Result<Completion, Stop>
        ensures { HasEnded scene.now self.old self.new question.word result
            (ask_completion question (option_map (λ l. l.now) input.entry) (course_of scene.now self.old)) }
    {
        match input {
            None => self.question(scene, question),
            Some(lines) => {
                let codes = inquire(&mut self.printed, &question.prompt, lines)?;
                Ok(Completion::Answered {
                    codes,
                    quits: false,
                })
            }
        }
    }

    /// The question is asked, and its shell waits for a line.
    fn question(&mut self, scene: &Scene, question: Question) -> Result<Completion, Stop>
        ensures { HasEnded scene.now self.old self.new question.word result (question_completion question (course_of scene.now self.old)) }
    {
        push_question(&mut self.printed, &question.prompt)?;
        let wait = Wait::ForAnswer(Asking::Reply(question));
        Ok(Completion::waiting(scene.alloc, wait)?)
    }

    /// Takes a reply to a question that waited; if it is not a reply, the question is asked again.
    pub(crate) fn reply(
        &mut self,
        scene: &Scene,
        question: &Question,
        line: &Text,
    ) -> Result<Completion, Stop>
        ensures { HasEnded scene.now self.old self.new question.now.word result (reply_completion line.now question.now (course_of scene.now self.old)) }
    {
        match reply_of(line) {
            Some(codes) => Ok(Completion::Answered {
                codes,
                quits: false,
            }),
            None => self.question(scene, copied(question)?),
        }
    }
}

/// An equal question.
fn copied(question: &Question) -> Result<Question, NoMemory>
    ensures { IfOk result (λ copy. copy ≡ question.now) }
{
    Ok(question.clone()?)
}

/// Asks for one line after another, up to the first that is a reply; the end of the lines means no.
fn inquire(printed: &mut Vec<u8>, prompt: &Text, lines: &[Text]) -> Result<Codes, NoMemory>
    ensures { IfOk result (λ codes. (codes ≡ (inquiry prompt.now lines.now).answered)
        × (printed.new.items ≡ printed.old.items ++ (inquiry prompt.now lines.now).printed)) }
{
    for line in lines {
        push_question(printed, prompt)?;
        if let Some(codes) = reply_of(line) {
            return Ok(codes);
        }
    }
    push_question(printed, prompt)?;
    Ok(Codes::NONE)
}

/// Prints a question.
fn push_question(printed: &mut Vec<u8>, prompt: &Text) -> Result<(), NoMemory>
    ensures { OnOk result (printed.new.items ≡ printed.old.items ++ question_text prompt.now) }
{
    printed.extend_from_slice(prompt.as_bytes())?;
    printed.push(b' ')?;
    Ok(())
}
