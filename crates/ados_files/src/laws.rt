// Laws of the commands, over their definitions.
ghost use Rattle.std.specs.Prelude.{◌≡◌, ◌≤◌, ◌↔◌, true, List, [], ◌∷◌, take, length, map, codes, Bool, IsTrue};
ghost use Rattle.ados_text.specs.Text.{Bytes, is_same, to_ascii};
ghost use Rattle.ados_pattern.specs.{Matches.{Matches}, Meaning.{Meaning, anywhere}};
ghost use Rattle.ados_readargs.specs.declared.args.Arg.{Arg};
ghost use Rattle.ados_ram.specs.{Files.{Files, OthersStay}, Place.{Place}};
ghost use Rattle.ados_find.specs.{Shared.{SharedState}, Views.{View}};
ghost use Rattle.ados_files.specs.{Copy.{copy_row}, Delete.{delete_row}, Rename.{rename_row}, Hits.{is_hit}, Jobs.{all_jobs}, Search.{searched_files}, Parts.{HasPart}, declared.hits.Wanted.TheVariants.{Inside, Matching}, Rows.{core_template_of, full_template_of, names_at, option_names}, MayChange.{copy_may_change, delete_may_change, rename_may_change}};
ghost use Rattle.ados_resident.specs.declared.commands.FilesCommand.{FilesCommand};
ghost use Rattle.ados_resident.specs.declared.commands.FilesCommand.TheVariants as files;
ghost use Rattle.ados_files.specs.declared.options.TheConstants as place;

/// Copy, Delete and Rename leave other places unchanged, each with its entry: Copy all that are not TO or below it;
/// Delete all that are not at or below an object that one of its arguments names when that argument's turn comes; Rename
/// all that are neither what FROM names nor TO, nor below one of them.
pub fn others_stay()
    ensures copy { (shared : SharedState) (view : View) (args : List Arg) → OthersStay (copy_may_change shared view args) shared.files (copy_row shared view args).shared.files }
    ensures delete { (shared : SharedState) (view : View) (args : List Arg) → OthersStay (delete_may_change shared view args) shared.files (delete_row shared view args).shared.files }
    ensures rename { (shared : SharedState) (view : View) (args : List Arg) → OthersStay (rename_may_change shared view args) shared.files (rename_row shared view args).shared.files }
{}

/// Each option is at the place in its command's template in Full at which the command reads it, and Core's options are the
/// first of Full's.
pub fn options_have_their_places()
    ensures copy_from { names_at files.Copy place.COPY_FROM ≡ codes "FROM" ∷ [] }
    ensures copy_to { names_at files.Copy place.COPY_TO ≡ codes "TO" ∷ [] }
    ensures copy_all { names_at files.Copy place.COPY_ALL ≡ codes "ALL" ∷ [] }
    ensures copy_quiet { names_at files.Copy place.COPY_QUIET ≡ codes "QUIET" ∷ [] }
    ensures copy_clone { names_at files.Copy place.COPY_CLONE ≡ codes "CLONE" ∷ [] }
    ensures copy_com { names_at files.Copy place.COPY_COM ≡ codes "COM" ∷ [] }
    ensures copy_nopro { names_at files.Copy place.COPY_NOPRO ≡ codes "NOPRO" ∷ [] }
    ensures delete_file { names_at files.Delete place.DELETE_FILE ≡ codes "FILE" ∷ [] }
    ensures delete_all { names_at files.Delete place.DELETE_ALL ≡ codes "ALL" ∷ [] }
    ensures delete_quiet { names_at files.Delete place.DELETE_QUIET ≡ codes "QUIET" ∷ [] }
    ensures delete_force { names_at files.Delete place.DELETE_FORCE ≡ codes "FORCE" ∷ [] }
    ensures dir_dir { names_at files.Dir place.DIR_DIR ≡ codes "DIR" ∷ [] }
    ensures dir_dirs { names_at files.Dir place.DIR_DIRS ≡ codes "DIRS" ∷ [] }
    ensures dir_files { names_at files.Dir place.DIR_FILES ≡ codes "FILES" ∷ [] }
    ensures dir_all { names_at files.Dir place.DIR_ALL ≡ codes "ALL" ∷ [] }
    ensures dir_opt { names_at files.Dir place.DIR_OPT ≡ codes "OPT" ∷ [] }
    ensures dir_inter { names_at files.Dir place.DIR_INTER ≡ codes "INTER" ∷ [] }
    ensures filenote_file { names_at files.Filenote place.FILENOTE_FILE ≡ codes "FILE" ∷ [] }
    ensures filenote_comment { names_at files.Filenote place.FILENOTE_COMMENT ≡ codes "COMMENT" ∷ [] }
    ensures filenote_all { names_at files.Filenote place.FILENOTE_ALL ≡ codes "ALL" ∷ [] }
    ensures join_file { names_at files.Join place.JOIN_FILE ≡ codes "FILE" ∷ [] }
    ensures join_to { names_at files.Join place.JOIN_TO ≡ codes "AS" ∷ codes "TO" ∷ [] }
    ensures list_dir { names_at files.List place.LIST_DIR ≡ codes "DIR" ∷ [] }
    ensures list_pat { names_at files.List place.LIST_PAT ≡ codes "P" ∷ codes "PAT" ∷ [] }
    ensures list_quick { names_at files.List place.LIST_QUICK ≡ codes "QUICK" ∷ [] }
    ensures list_files { names_at files.List place.LIST_FILES ≡ codes "FILES" ∷ [] }
    ensures list_dirs { names_at files.List place.LIST_DIRS ≡ codes "DIRS" ∷ [] }
    ensures list_to { names_at files.List place.LIST_TO ≡ codes "TO" ∷ [] }
    ensures list_sub { names_at files.List place.LIST_SUB ≡ codes "SUB" ∷ [] }
    ensures list_lformat { names_at files.List place.LIST_LFORMAT ≡ codes "LFORMAT" ∷ [] }
    ensures list_all { names_at files.List place.LIST_ALL ≡ codes "ALL" ∷ [] }
    ensures list_since { names_at files.List place.LIST_SINCE ≡ codes "SINCE" ∷ [] }
    ensures list_upto { names_at files.List place.LIST_UPTO ≡ codes "UPTO" ∷ [] }
    ensures make_dir_name { names_at files.MakeDir place.MAKE_DIR_NAME ≡ codes "NAME" ∷ [] }
    ensures protect_file { names_at files.Protect place.PROTECT_FILE ≡ codes "FILE" ∷ [] }
    ensures protect_flags { names_at files.Protect place.PROTECT_FLAGS ≡ codes "FLAGS" ∷ [] }
    ensures protect_add { names_at files.Protect place.PROTECT_ADD ≡ codes "ADD" ∷ [] }
    ensures protect_sub { names_at files.Protect place.PROTECT_SUB ≡ codes "SUB" ∷ [] }
    ensures protect_all { names_at files.Protect place.PROTECT_ALL ≡ codes "ALL" ∷ [] }
    ensures rename_from { names_at files.Rename place.RENAME_FROM ≡ codes "FROM" ∷ [] }
    ensures rename_to { names_at files.Rename place.RENAME_TO ≡ codes "TO" ∷ codes "AS" ∷ [] }
    ensures search_from { names_at files.Search place.SEARCH_FROM ≡ codes "FROM" ∷ [] }
    ensures search_text { names_at files.Search place.SEARCH_TEXT ≡ codes "SEARCH" ∷ [] }
    ensures search_all { names_at files.Search place.SEARCH_ALL ≡ codes "ALL" ∷ [] }
    ensures search_nonum { names_at files.Search place.SEARCH_NONUM ≡ codes "NONUM" ∷ [] }
    ensures search_quiet { names_at files.Search place.SEARCH_QUIET ≡ codes "QUIET" ∷ [] }
    ensures search_file { names_at files.Search place.SEARCH_FILE ≡ codes "FILE" ∷ [] }
    ensures search_pattern { names_at files.Search place.SEARCH_PATTERN ≡ codes "PATTERN" ∷ [] }
    ensures sort_from { names_at files.Sort place.SORT_FROM ≡ codes "FROM" ∷ [] }
    ensures sort_to { names_at files.Sort place.SORT_TO ≡ codes "TO" ∷ [] }
    ensures sort_colstart { names_at files.Sort place.SORT_COLSTART ≡ codes "COLSTART" ∷ [] }
    ensures sort_case { names_at files.Sort place.SORT_CASE ≡ codes "CASE" ∷ [] }
    ensures sort_numeric { names_at files.Sort place.SORT_NUMERIC ≡ codes "NUMERIC" ∷ [] }
    ensures type_from { names_at files.«Type» place.TYPE_FROM ≡ codes "FROM" ∷ [] }
    ensures type_to { names_at files.«Type» place.TYPE_TO ≡ codes "TO" ∷ [] }
    ensures type_hex { names_at files.«Type» place.TYPE_HEX ≡ codes "HEX" ∷ [] }
    ensures type_number { names_at files.«Type» place.TYPE_NUMBER ≡ codes "NUMBER" ∷ [] }
    ensures type_opt { names_at files.«Type» place.TYPE_OPT ≡ codes "OPT" ∷ [] }
    ensures core { (command : FilesCommand) → take (length (option_names (core_template_of command))) (option_names (full_template_of command)) ≡ option_names (core_template_of command) }
{}

/// A line is a hit of Search if some part of it is the text, with case ignored; by PATTERN if it has at most 512 bytes and
/// some part of it is what the pattern says.
pub fn hits_are_parts()
    ensures text { (text line : Bytes) → (is_hit (Inside text) line ≡ true) ↔ HasPart (λ part. IsTrue (is_same text part)) line }
    ensures pattern { (pattern : Meaning) (line : Bytes) → (is_hit (Matching (anywhere pattern)) line ≡ true) ↔ (length line ≤ 512) × HasPart (Matches pattern.form) (map to_ascii line) }
{}

/// Search looks in the files that Copy would copy.
pub fn searched_files_are_those_of_copy()
    ensures { (all : Bool) (ram : Files) (places : List Place) → map (λ job. job.source) (all_jobs all ram places) ≡ searched_files all ram places }
{}
