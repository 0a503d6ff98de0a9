//! The laws: what holds of every run, by the definitions alone.

ghost use Rattle.ados_machine.specs.{Alone.{AloneIsARun, AloneMeansWhole}, Begun.{ShellsBeginByTheirMakers}, Binding.{EventsBindOnlyWhatTheyUsed}, Bound.{UsedDefersAreBound}, Broken.{BreaksByCMark, BreaksByDFlag, BreaksUseUpTheFlag, CommandsUseUpTheFlag}, Called.{ScriptsBeginWithTheirLines, CalledScriptsBeginWithTheirLines, FramesGoOn, JumpsLeadToTheirLine, FramesKeepTheirLines}, Codes.{UnknownCommandsFail, UnknownCommandsAreTold, FaultyLinesFail, ExitStatusesAreReturned, FaultsAreReturned, FailedStartsAreReturned}, Early.{ScriptsEndEarlyAtTheirFirst, FramesGiveBack, EarlyAndBackIsToObey}, Given.{EventsGiveWhatIsPending, FurtherLinesWait, ReadyShellsAreTurned, TypedLinesAreTakenInOrder}, InUse.{EntriesStayInUse, IdleShellsUseNoEntry, OutputsStayOpen, StartsOpenOutputs}, Kept.{EventsKeepAllCodes, FreshWorldsHaveAllCodes, LastCodesStay}, Manual.{ElsesLeadPastTheirBlock, IfsLeadPastTheirBlock, SkipsLeadPastTheirLabel}, LookupOrder.{WordsAreLookedUpInOrder}, Plain.{EnabledCommandsAreFound, EffectsAreRecorded, EffectsArePrinted, FailAtSetsTheLimit, SubstitutionsKeepTheirOutput, DirectoriesAreCarried}, Programs.{StartsAskForTheirProgram, StartsUseTheirEntry, FirstFaultsStay, PiecesArePrinted}, Redirected.{OpenOutputsAreInUse}, Reports.{ReportsTellLastRecords}, Laws.{ScriptsEndWhereTheRuleSays, EventsKeepWorldsSane, ReportsAreTheEnds, EachFrameEndsOnce, BreaksEndScripts, BreaksKeepWhatComes, FreshWorldsHaveNoChild, TurnsKeepChildren, AnswersMoveChildren, RequestsAreOfChildren, FittingAnswersAreAccepted, AcceptedAnswersFit, RequestsNameTheirShells}, FrameEnds.{IsSane}, Quiet.{QuietShellsAreInvisible}, Starts.{FailedStartsChangeTheCodes, FailedStartsLeaveNothing}, LoneReports.{AloneTellsReports}, Typing.{LinesAreTakenIn, FullQueuesTakeNoLine}, World.{fresh_world}};
ghost use Rattle.ados_resident.specs.{declared.dialects.Dialect.{Dialect}, declared.hosts.HostEntry.{HostEntry}};
ghost use Rattle.std.specs.Prelude.{List};

/// In every run of a world that is sane (no script runs on after a failure), as a fresh one is and events keep it: in
/// every shell each script ends early exactly at its first command whose code reaches the limit after it, and reports
/// the line and the code of its last command; the command that called it returns that one's codes, at the limit
/// that the end restores.
pub fn scripts_end_where_the_rule_says()
    ensures { ScriptsEndWhereTheRuleSays }
{}

/// No script runs on after a command whose code reached its limit: a fresh world has none that
/// does, and no event leaves one. So too each background shell runs a frame, and each shell has
/// the number of its place.
pub fn no_script_continues_after_a_failure()
    ensures fresh { (dialect : Dialect) (hosts : List HostEntry) → IsSane (fresh_world dialect hosts) }
    ensures kept { EventsKeepWorldsSane }
{}

/// The reports of every run are the ends of its scripts, one each and in order.
pub fn each_end_is_reported_once()
    ensures { ReportsAreTheEnds }
{}

/// In every run of a world that is sane, the frames of each shell go through its trace: a script begins at the limit in
/// force; it ends once, by the name under which it began, and only if it is the newest that is there. The limit in force
/// after the trace is the shell's own, and its codes are those of its last command.
pub fn each_frame_ends_once()
    ensures { EachFrameEndsOnce }
{}

/// Frames end at a break exactly at a turn that finds a flag, in a shell in which a script runs. The event of a break
/// itself changes nothing of what comes next.
pub fn breaks_end_scripts()
    ensures ends { BreaksEndScripts }
    ensures next { BreaksKeepWhatComes }
{}

/// An answer that a program of the host could not be started changes the codes of the shell that asked, and what these
/// change: its limit, its phase, the last record of its newest frame, and which of its frames continue. What all shells
/// share, the other shells and their codes, and the input stay, and the use of its resident entry is given back. In a
/// run in which that answer is the next event accepted after the turn that asked, nothing is left of the attempt: what
/// all shells share, the other shells and each use count are as before that turn, and so are the shell's number,
/// directory and settings.
pub fn failed_starts_change_the_codes()
    ensures step { FailedStartsChangeTheCodes }
    ensures run { FailedStartsLeaveNothing }
{}

/// A shell whose events each leave what is seen of it as it was can be taken out of every run: without its events the
/// others get the same results, and what all share, the other shells and their codes are left the same. What is seen of
/// a shell is its directory, its open outputs, the resident entry that it runs from and its name, which numbers have a
/// shell, the flags and marks of breaks in the other shells, and what all share.
pub fn quiet_shells_are_invisible()
    ensures { QuietShellsAreInvisible }
{}

/// The state of the program that a shell started, its child, follows from what launchers answer. In a fresh world no shell has
/// a child, and an accepted event that is not an answer of a launcher keeps each child as it was. An answer is accepted
/// exactly if it is of the kind that its shell asked for; from a world that is sane it moves that shell's child as
/// what was asked for says, and keeps what the other shells ask for. In such a world what a shell asks for names it by
/// its number.
pub fn children_go_by_their_answers()
    ensures fresh { FreshWorldsHaveNoChild }
    ensures turns { TurnsKeepChildren }
    ensures answers { AnswersMoveChildren }
    ensures asked { RequestsAreOfChildren }
    ensures fitting { FittingAnswersAreAccepted }
    ensures accepted { AcceptedAnswersFit }
    ensures named { RequestsNameTheirShells }
{}

/// A shell that is opened at the lowest free number, and then alone is given turns and answers, does what its lines mean
/// by a direct recursion that knows neither frames nor phases: it ends if the meaning does, with the same world, bytes
/// and codes, and the same events and answers left; it runs on after the last event if the meaning needs one more;
/// and an answer is missing, or of another kind than asked for, if the meaning says so. To run alone is a run of
/// accepted events of that shell, which takes the answers in their order.
pub fn alone_means_the_direct_meaning()
    ensures meaning { AloneMeansWhole }
    ensures run { AloneIsARun }
{}

/// The end of an event binds only assigns of Defer that the event used, and each only to a directory that is there after the
/// event. Otherwise it changes no assign beyond what its commands did.
pub fn events_bind_only_what_they_used()
    ensures { EventsBindOnlyWhatTheyUsed }
{}

/// What an accepted event gives is the request that is pending after it of the shell to which it happened; a typed line, the
/// end of input and a break give none. A turn is accepted exactly if its shell is ready.
pub fn events_give_what_is_pending()
    ensures pending { EventsGiveWhatIsPending }
    ensures ready { ReadyShellsAreTurned }
{}

/// The last codes of each number after a run, even of a shell that has ended, are those of its last command in the trace, and
/// 0 and 0 after the beginning of a new shell there. A fresh world has last codes for each number, and each event keeps that.
pub fn last_codes_stay()
    ensures fresh { FreshWorldsHaveAllCodes }
    ensures kept { EventsKeepAllCodes }
    ensures run { LastCodesStay }
{}

/// From the event that asks for a program's start to the one after which nothing is asked for any more, each event keeps
/// the resident entry in use from which the program runs; and if nothing is asked for no entry is in use.
pub fn entries_stay_in_use()
    ensures lasts { EntriesStayInUse }
    ensures idle { IdleShellsUseNoEntry }
{}

/// What a program's command opened stays open until the answer that ends the program, even after a fault of its output: the
/// outputs that its shell holds, which are those of its frames and that one, stay the same from the answer that the program has
/// started, event by event.
pub fn outputs_stay_open()
    ensures opens { StartsOpenOutputs }
    ensures lasts { OutputsStayOpen }
{}

/// What waited and was typed in a run is what shell 1 took, in order, followed by what waits. It takes the first line that
/// waits at each turn at which it takes of its input; the lines that wait after that one change nothing of the turn. A turn
/// at which a script ends by a break takes no line.
pub fn typed_lines_are_taken_in_order()
    ensures run { TypedLinesAreTakenInOrder }
    ensures one { FurtherLinesWait }
{}

/// The reports of a run are what its beginnings, its records and the places of its ends make, apart from what an end says:
/// each script that ends is reported by its shell and its name, the line of its last record or 0, that one's code, and
/// whether that reached its limit.
pub fn reports_tell_last_records()
    ensures { ReportsTellLastRecords }
{}

/// The reports of a shell that is opened and runs alone are those of the direct meaning of its lines, which keeps for each
/// script the line at which its last command began, that one's codes and the limit in force.
pub fn alone_tells_reports()
    ensures { AloneTellsReports }
{}

/// In every run of a world that is sane, of every script: the place of the first record that reaches its limit is the place at
/// which the script ended early, or there is neither. And each frame that ends gives back its line and its codes, and a script the
/// limit at which it began, or 10 if no script is left. Together this says that each frame obeys its limit, no more and no less.
pub fn scripts_end_early_at_their_first()
    ensures first { ScriptsEndEarlyAtTheirFirst }
    ensures back { FramesGiveBack }
    ensures same { EarlyAndBackIsToObey }
{}

/// What a command returns, by numbers: a command that is not known 10 and 205, as is told on the console; a line with a fault 20 and
/// its number; a program by its exit status, unless there was a fault before, which is then returned with 20; and a start that failed
/// 20 and the reason.
pub fn commands_return_their_codes()
    ensures unknown { UnknownCommandsFail }
    ensures told { UnknownCommandsAreTold }
    ensures faulty { FaultyLinesFail }
    ensures exits { ExitStatusesAreReturned }
    ensures faults { FaultsAreReturned }
    ensures starts { FailedStartsAreReturned }
{}

/// A plain line of one of the shell's own commands does what the command's row says. An enabled internal command is found by its
/// name; its record has the codes of its effect and the limit that it sets, so FailAt n is recorded with 0 and the limit n; what
/// it puts out on the console comes first of what its event prints, and what it puts out in a command substitution goes into the
/// line of that; the current directories of the other shells move with all that it renames, one object after the other, and else stay.
pub fn commands_do_their_rows()
    ensures found { EnabledCommandsAreFound }
    ensures recorded { EffectsAreRecorded }
    ensures printed { EffectsArePrinted }
    ensures limit { FailAtSetsTheLimit }
    ensures kept { SubstitutionsKeepTheirOutput }
    ensures carried { DirectoriesAreCarried }
{}

/// A line whose word stands for a program asks for its start with the words of its arguments. If the program is on the resident list,
/// that entry is in use from then on. The fault of a program that came first stays as long as the program runs. A piece of its output
/// is printed as it is, and once, if there was no fault and the output goes to the console.
pub fn programs_keep_entry_and_fault()
    ensures asked { StartsAskForTheirProgram }
    ensures entry { StartsUseTheirEntry }
    ensures fault { FirstFaultsStay }
    ensures printed { PiecesArePrinted }
{}

/// A break by D flags its shell, and one by C marks its program if that is to start or is read; neither does anything else. A turn
/// that finds the flag in a script uses it up, and so does each plain command, unless that is itself a break of its own shell by D.
pub fn breaks_set_and_use_up()
    ensures c { BreaksByCMark }
    ensures d { BreaksByDFlag }
    ensures ends { BreaksUseUpTheFlag }
    ensures commands { CommandsUseUpTheFlag }
{}

/// A script that is called begins with its lines, of its file's bytes by its arguments; and after each plain command below the
/// limit the line after that is next, or the one to which it jumps. No event changes the lines of a frame.
pub fn scripts_run_their_lines()
    ensures begin { ScriptsBeginWithTheirLines }
    ensures called { CalledScriptsBeginWithTheirLines }
    ensures next { FramesGoOn }
    ensures jumps { JumpsLeadToTheirLine }
    ensures kept { FramesKeepTheirLines }
{}

/// The Defers that a plain command used are bound: those of its line's variables, of the search for its word and of its arguments,
/// with those to which their texts lead.
pub fn used_defers_are_bound()
    ensures { UsedDefersAreBound }
{}

/// While less than 256 lines wait, a typed line that is not too long comes after them; while 256 wait none does.
pub fn typed_lines_wait()
    ensures taken { LinesAreTakenIn }
    ensures full { FullQueuesTakeNoLine }
{}

/// A redirection does not open a file again that is an open output, be it of the shell itself or of another one: its command returns
/// 20 and 202, and is not executed.
pub fn open_outputs_are_in_use()
    ensures { OpenOutputsAreInUse }
{}

/// A shell that Run makes begins at the lowest free number, in its maker's directory, with copies of its settings, and with the text
/// after Run as its one command, at the limit 10.
pub fn shells_begin_by_their_makers()
    ensures { ShellsBeginByTheirMakers }
{}

/// Where an If that fails, an Else and a Skip lead, and what a word stands for, is what a reference manual says: the lines after it are
/// passed over one by one, each If opens a block and each EndIf closes one; a word is looked up in one place after another.
pub fn jumps_and_search_are_as_in_the_manual()
    ensures ifs { IfsLeadPastTheirBlock }
    ensures elses { ElsesLeadPastTheirBlock }
    ensures skips { SkipsLeadPastTheirLabel }
    ensures words { WordsAreLookedUpInOrder }
{}
