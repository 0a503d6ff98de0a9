//! The law of local variables, which follows from the definitions alone.

ghost use Rattle.ados_vars.specs.Locals.{AnswerIsSeen, CodesBegin, CodesStay, SettingIsSeen, UnsettingIsSeen};

/// The variables that a shell shows are the same as if each of its commands set RC and Result2 to its results: it makes
/// no difference whether the two are stored at each command, or only filled in when they are shown, whatever is stored
/// at their positions.
pub fn variables_show_each_answer()
    ensures answer { AnswerIsSeen }
    ensures set { SettingIsSeen }
    ensures unset { UnsettingIsSeen }
    ensures begin { CodesBegin }
    ensures places { CodesStay }
{}
