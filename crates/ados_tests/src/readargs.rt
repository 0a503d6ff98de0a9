// Templates and arguments.
use crate::wrong::{Wrong, expect};
use ados_readargs::{Arg, ArgFault, Args, Template};
use ados_text::{NoMemory, Text, push_number};
use std::alloc::Global;

fn template(alloc: Global, text: &str) -> Result<Template, ArgFault> {
    Template::parse(alloc, &Text::from_bytes(alloc, text.as_bytes())?)
}

fn filled(alloc: Global, text: &str, line: &str) -> Result<Args, ArgFault> {
    template(alloc, text)?.fill(alloc, line.as_bytes())
}

// Writes `-` for Absent, `+` for On, `<value>` for One, `[value|value]` for Many.
fn show(out: &mut Vec<u8>, arg: &Arg) -> Result<(), NoMemory> {
    match arg {
        Arg::Absent => out.push(b'-')?,
        Arg::On => out.push(b'+')?,
        Arg::One(text) => {
            out.push(b'<')?;
            out.extend_from_slice(text.as_bytes())?;
            out.push(b'>')?;
        }
        Arg::Many(texts) => {
            let mut before = b'[';
            for text in texts.as_slice() {
                out.push(before)?;
                out.extend_from_slice(text.as_bytes())?;
                before = b'|';
            }
            out.push(b']')?;
        }
    }
    Ok(())
}

fn shown(alloc: Global, args: &Args) -> Result<Vec<u8>, NoMemory> {
    let mut out = Vec::new(alloc);
    for place in 0..args.len() {
        if let Some(arg) = args.get(alloc, place)? {
            show(&mut out, &arg)?;
        }
    }
    Ok(out)
}

// What a line gives to the options of a template, or the number of the fault.
fn answer(alloc: Global, text: &str, line: &str) -> Result<Vec<u8>, NoMemory> {
    match filled(alloc, text, line) {
        Ok(args) => shown(alloc, &args),
        Err(fault) => {
            let mut number = Vec::new(alloc);
            push_number(&mut number, i32::from(fault.result2()?.0))?;
            Ok(number)
        }
    }
}

// Each row has a template, a line, and the answer.
const ROWS: &str = "\
FROM/M,TO/A,ALL/S,QUIET/S!a b c1 QUIET![a|b]<c1>-+
A/M,TO/A,Q/S!\"to\" x![to]<x>-
P/M,TO/A,Q/S!TO x a Q![a]<x>+
A/M,TO/A!x!-<x>
P/M,TO/A,Q/S!to Q a![a]<Q>-
A/M,TO/A!to=a=b c A= \"to\" A = to![to|to|c]<a=b>
A/M,TO/A,Q/S!x Q=y =Q![x|Q=y]<=Q>-
A/M,TO/A!to = = A =x y![=x|y]<=>
A/T,B/T!a b a!-+
A/M,B,C/A,D!1 b=2 3 4![1|3]<2><4>-
A,B/M,C/A,D/A!1 2 3!<1>-<2><3>
A,B/A,R/F!b x y  \"z *N ;q \t!<y><x><\"z *N ;q>
A,R/F!R x!<R><x>
A,R/F!x ;z!<x>-
A/K,R/F!r A y!-<r A y>
! ;x!
A,,EQ/K,GT/K!1 eq 2 gt=3 4!<1><4><2><3>
A/a/k/N/m,B=C/t!A -1 C![-1]+
=,A/K/F!!--
A/N!x!115
/N/M!205 2147483648!115
TO/K!TO!117
TO/K!TO x TO!117
TO/K!TO = !117
TO/K,A/S!TO x TO y A A!118
A!x y!118
A/K,B!A x A y \"z!119
A,R/F!\"z!119
A/A/K,B/N!x y!118
A/A/K,B/N!x!116
A,B/M/A,C/A!x y!116
A/M,B/M!!114
A/M,B/F!!114
A/F,B!!114
A/AK!!114
A/K/k!!114
A/K/T!!114
A,b,a!!114
A=a!!114";

// The templates of the commands, each with a line that fills it and one that it refuses.
const TAKEN: &str = "\
NAME,STRING/F!ll List QUICK !<ll><List QUICK>
PROMPT/A!\"Go on?\"!<Go on?>
NAME,TARGET,EXISTS/S!w: RAM:T EXISTS!<w:><RAM:T>+
DIR!/!</>
FROM/M,TO/A,ALL/S,QUIET/S!a b c1 all quiet![a|b]<c1>++
FILE/M/A,ALL/S,QUIET/S!a ALL b QUIET![a|b]++
DIR,DIRS/S,FILES/S!d DIRS FILES!<d>++
/M,NOLINE/S!a \"b c\" NOLINE![a|b c]+
VALUE1/A,OP,VALUE2!6 * 7!<6><*><7>
FILE/A,ARGS/F!s \"a b\" c!<s><\"a b\" c>
RCLIM/N!20!<20>
/N/M!205 -1![205|-1]
FILE/A,COMMENT!f \"a note\"!<f><a note>
NAME/A!x!<x>
NOT/S,WARN/S,ERROR/S,FAIL/S,,EQ/K,GT/K,GE/K,VAL/S,EXISTS/K!NOT 1 WARN ERROR FAIL eq 2 gt=3 ge 4 VAL EXISTS f!++++<1><2><3><4>+<f>
FILE/M/A,AS=TO/K/A!a b as=c![a|b]<c>
LABEL/F!one two !<one two>
DIR/M,P=PAT/K,QUICK/S,FILES/S,DIRS/S!a b pat #? QUICK FILES DIRS![a|b]<#?>+++
NAME/M!a b![a|b]
PATH/M,ADD/S,SHOW/S,RESET/S,REMOVE/S!a b ADD SHOW RESET REMOVE![a|b]++++
FILE/A,FLAGS,ADD/S,SUB/S!f rw ADD SUB!<f><rw>++
RC/N!-5!<-5>
FROM/A,TO=AS/A!a AS b!<a><b>
NAME,FILE,REMOVE/S,ADD/S,REPLACE/S,PURE=FORCE/S,SYSTEM/S!n f REMOVE ADD REPLACE FORCE SYSTEM!<n><f>+++++
LABEL,BACK/S!top BACK!<top>+
PROCESS/N,COM=COMMAND/K!1 COMMAND=Echo!<1><Echo>
FROM/A/M!a b![a|b]
FILE/A!x!<x>
!!";

const REFUSED: &str = "\
NAME,STRING/F!NAME!117
PROMPT/A!!116
NAME,TARGET,EXISTS/S!a b c!118
DIR!a b!118
FROM/M,TO/A,ALL/S,QUIET/S!ALL!116
FILE/M/A,ALL/S,QUIET/S!QUIET!116
DIR,DIRS/S,FILES/S!d DIRS DIRS!118
/M,NOLINE/S!a \"b!119
VALUE1/A,OP,VALUE2!1 + 2 3!118
FILE/A,ARGS/F!!116
RCLIM/N!x!115
/N/M!205 2x!115
FILE/A,COMMENT!f a note!118
NAME/A!x y!118
NOT/S,WARN/S,ERROR/S,FAIL/S,,EQ/K,GT/K,GE/K,VAL/S,EXISTS/K!EQ!117
FILE/M/A,AS=TO/K/A!a b!116
DIR/M,P=PAT/K,QUICK/S,FILES/S,DIRS/S!P!117
NAME/M!NAME=!117
PATH/M,ADD/S,SHOW/S,RESET/S,REMOVE/S!ADD ADD!118
FILE/A,FLAGS,ADD/S,SUB/S!SUB!116
RC/N!2147483648!115
FROM/A,TO=AS/A!a TO=b AS=c!118
NAME,FILE,REMOVE/S,ADD/S,REPLACE/S,PURE=FORCE/S,SYSTEM/S!n PURE FORCE!118
LABEL,BACK/S!BACK top end!118
PROCESS/N,COM=COMMAND/K!one!115
FROM/A/M!!116
FILE/A!FILE!117
!x!118";

// Each row gets its answer.
fn follow(alloc: Global, rows: &'static str) -> Result<(), Wrong> {
    for row in rows.lines() {
        let mut parts = row.split('!');
        let template = parts.next().unwrap_or_default();
        let line = parts.next().unwrap_or_default();
        let want = parts.next().unwrap_or_default();
        let found = answer(alloc, template, line)?;
        expect(found.as_slice() == want.as_bytes(), row)?;
    }
    Ok(())
}

#[test]
fn fills_templates_or_says_why_not(rt: HostRuntime) -> Result<(), Wrong> {
    follow(rt.alloc(), ROWS)
}

#[test]
fn commands_take_their_words(rt: HostRuntime) -> Result<(), Wrong> {
    follow(rt.alloc(), TAKEN)
}

#[test]
fn commands_refuse_other_words(rt: HostRuntime) -> Result<(), Wrong> {
    follow(rt.alloc(), REFUSED)
}
