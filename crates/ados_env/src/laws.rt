// Laws of the tables on which commands rest: names, texts, and places of options.
ghost use Rattle.std.specs.Prelude.{◌≡◌, [], ◌∷◌, Some, codes};
ghost use Rattle.ados_text.specs.{Fault.{fault_text_of}, declared.codes.TheConstants.Result2.{NO_FREE_STORE, BAD_TEMPLATE, BAD_NUMBER, ARGUMENT_MISSING, VALUE_MISSING, TOO_MANY_ARGUMENTS, UNMATCHED_QUOTES, LINE_TOO_LONG, NO_PROGRAM_FILE, OBJECT_IN_USE, OBJECT_EXISTS, DIRECTORY_NOT_FOUND, OBJECT_NOT_FOUND, INVALID_NAME, WRONG_TYPE, DIRECTORY_NOT_EMPTY, TOO_MANY_LEVELS, DEVICE_NOT_MOUNTED, COMMENT_TOO_LONG, DISK_FULL, DELETE_PROTECTED, WRITE_PROTECTED, READ_PROTECTED, NOT_IMPLEMENTED, BREAK, NOT_EXECUTABLE, PIPE_FAULT, WAIT_FAULT, ENDED_BY_SIGNAL}};
ghost use Rattle.ados_resident.specs.{Commands.{internal_name}, Names.{internal_named}, declared.internal_commands.InternalCommand.{InternalCommand}};
ghost use Rattle.ados_resident.specs.declared.commands.EnvCommand.TheVariants as command;
ghost use Rattle.ados_env.specs.{Options.{names_at}, declared.options.TheConstants.{ECHO_NOLINE, ECHO_FIRST, ECHO_LEN, EVAL_VALUE1, EVAL_OP, EVAL_VALUE2, EVAL_TO, EVAL_LFORMAT, ASSIGN_LIST, ASSIGN_DISMOUNT, ASSIGN_VOLS, ASSIGN_DIRS, ASSIGN_DEVICES, WHICH_FILE, WHICH_NORES, WHICH_RES, WHICH_ALL}};

/// Each internal command is found by its name.
pub fn internal_commands_are_found()
    ensures { (command : InternalCommand) → internal_named (internal_name command) ≡ Some command }
{}

/// The fault that each command means by its number has this text.
pub fn faults_have_their_texts()
    ensures no_free_store { fault_text_of NO_FREE_STORE.0 ≡ codes "no free store" }
    ensures bad_template { fault_text_of BAD_TEMPLATE.0 ≡ codes "bad template" }
    ensures bad_number { fault_text_of BAD_NUMBER.0 ≡ codes "bad number" }
    ensures argument_missing { fault_text_of ARGUMENT_MISSING.0 ≡ codes "required argument missing" }
    ensures value_missing { fault_text_of VALUE_MISSING.0 ≡ codes "keyword needs a value" }
    ensures too_many_arguments { fault_text_of TOO_MANY_ARGUMENTS.0 ≡ codes "too many arguments" }
    ensures unmatched_quotes { fault_text_of UNMATCHED_QUOTES.0 ≡ codes "unmatched quotes" }
    ensures line_too_long { fault_text_of LINE_TOO_LONG.0 ≡ codes "line too long" }
    ensures no_program_file { fault_text_of NO_PROGRAM_FILE.0 ≡ codes "not a program file" }
    ensures object_in_use { fault_text_of OBJECT_IN_USE.0 ≡ codes "object in use" }
    ensures object_exists { fault_text_of OBJECT_EXISTS.0 ≡ codes "object exists" }
    ensures directory_not_found { fault_text_of DIRECTORY_NOT_FOUND.0 ≡ codes "directory not found" }
    ensures object_not_found { fault_text_of OBJECT_NOT_FOUND.0 ≡ codes "object not found" }
    ensures invalid_name { fault_text_of INVALID_NAME.0 ≡ codes "invalid name" }
    ensures wrong_type { fault_text_of WRONG_TYPE.0 ≡ codes "wrong type of object" }
    ensures directory_not_empty { fault_text_of DIRECTORY_NOT_EMPTY.0 ≡ codes "directory not empty" }
    ensures too_many_levels { fault_text_of TOO_MANY_LEVELS.0 ≡ codes "too many levels" }
    ensures device_not_mounted { fault_text_of DEVICE_NOT_MOUNTED.0 ≡ codes "device not mounted" }
    ensures comment_too_long { fault_text_of COMMENT_TOO_LONG.0 ≡ codes "comment too long" }
    ensures disk_full { fault_text_of DISK_FULL.0 ≡ codes "disk full" }
    ensures delete_protected { fault_text_of DELETE_PROTECTED.0 ≡ codes "delete protected" }
    ensures write_protected { fault_text_of WRITE_PROTECTED.0 ≡ codes "write protected" }
    ensures read_protected { fault_text_of READ_PROTECTED.0 ≡ codes "read protected" }
    ensures not_implemented { fault_text_of NOT_IMPLEMENTED.0 ≡ codes "not implemented" }
    ensures broken { fault_text_of BREAK.0 ≡ codes "break" }
    ensures not_executable { fault_text_of NOT_EXECUTABLE.0 ≡ codes "not executable" }
    ensures pipe_fault { fault_text_of PIPE_FAULT.0 ≡ codes "pipe fault" }
    ensures wait_fault { fault_text_of WAIT_FAULT.0 ≡ codes "wait fault" }
    ensures ended_by_signal { fault_text_of ENDED_BY_SIGNAL.0 ≡ codes "program ended by a signal" }
{}

/// Each option is at the place in its command's template at which the command reads it.
pub fn options_have_their_places()
    ensures echo_noline { names_at command.Echo ECHO_NOLINE ≡ codes "NOLINE" ∷ [] }
    ensures echo_first { names_at command.Echo ECHO_FIRST ≡ codes "FIRST" ∷ [] }
    ensures echo_len { names_at command.Echo ECHO_LEN ≡ codes "LEN" ∷ [] }
    ensures eval_value1 { names_at command.Eval EVAL_VALUE1 ≡ codes "VALUE1" ∷ [] }
    ensures eval_op { names_at command.Eval EVAL_OP ≡ codes "OP" ∷ [] }
    ensures eval_value2 { names_at command.Eval EVAL_VALUE2 ≡ codes "VALUE2" ∷ [] }
    ensures eval_to { names_at command.Eval EVAL_TO ≡ codes "TO" ∷ [] }
    ensures eval_lformat { names_at command.Eval EVAL_LFORMAT ≡ codes "LFORMAT" ∷ [] }
    ensures assign_list { names_at command.Assign ASSIGN_LIST ≡ codes "LIST" ∷ [] }
    ensures assign_dismount { names_at command.Assign ASSIGN_DISMOUNT ≡ codes "DISMOUNT" ∷ [] }
    ensures assign_vols { names_at command.Assign ASSIGN_VOLS ≡ codes "VOLS" ∷ [] }
    ensures assign_dirs { names_at command.Assign ASSIGN_DIRS ≡ codes "DIRS" ∷ [] }
    ensures assign_devices { names_at command.Assign ASSIGN_DEVICES ≡ codes "DEVICES" ∷ [] }
    ensures which_file { names_at command.Which WHICH_FILE ≡ codes "FILE" ∷ [] }
    ensures which_nores { names_at command.Which WHICH_NORES ≡ codes "NORES" ∷ [] }
    ensures which_res { names_at command.Which WHICH_RES ≡ codes "RES" ∷ [] }
    ensures which_all { names_at command.Which WHICH_ALL ≡ codes "ALL" ∷ [] }
{}
