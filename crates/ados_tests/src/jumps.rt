// Where jumps lead in scripts whose blocks do not match, and at which line a Skip stops.
use crate::wrong::{Wrong, expect};
use ados_resident::Dialect;
use ados_script::{Jump, Script};
use ados_text::{NoMemory, Text};
use std::alloc::Global;

fn script(alloc: Global, lines: &[&str]) -> Result<Script, NoMemory> {
    let mut texts = Vec::new(alloc);
    for line in lines {
        texts.push(Text::from_bytes(alloc, line.as_bytes())?)?;
    }
    Script::of(alloc, texts)
}

fn are_counted(script: &Script) -> bool {
    matches!(script.after_else(1), Jump::To(5))
        && matches!(script.after_if(2), Jump::To(4))
        && matches!(script.after_if(5), Jump::None)
}

#[test]
fn blocks_that_do_not_match_are_counted(rt: HostRuntime) -> Result<(), Wrong> {
    let script = script(rt.alloc(), &["Else", "If", "EndIf", "EndIf", "If WARN"])?;
    expect(are_counted(&script), "Else, If, EndIf, EndIf, If WARN")
}

// From line 2 and line 3; the first of the two labels or an EndSkip counts, with BACK from the first line on.
fn skips(script: &Script) -> bool {
    matches!(
        script.skip(Dialect::Core, 2, Some(b"b"), false),
        Jump::EndSkip(4)
    ) && matches!(script.skip(Dialect::Core, 2, Some(b"a"), true), Jump::To(2))
        && matches!(
            script.skip(Dialect::Core, 2, Some(b"b"), true),
            Jump::EndSkip(4)
        )
        && matches!(
            script.skip(Dialect::Core, 3, Some(b"b"), false),
            Jump::To(5)
        )
}

#[test]
fn a_skip_stops_at_the_first_of_its_label_and_an_end_skip(rt: HostRuntime) -> Result<(), Wrong> {
    let script = script(rt.alloc(), &["Lab a", "Skip b", "EndSkip", "Lab b"])?;
    expect(skips(&script), "Lab a, Skip b, EndSkip, Lab b")
}
