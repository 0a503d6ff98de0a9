// Laws of the files, over their definitions.
ghost use Rattle.std.specs.{Prelude.{◌≡◌, ◌&&◌, ◌||◌, ◌++◌, ◌∷◌, Bool, None}, declared.cmp.Ordering.TheVariants.{Less}};
ghost use Rattle.std.specs.FinMap as map;
ghost use Rattle.ados_text.specs.{Text.{Bytes, Text}, Name.{Name, name_cmp}};
ghost use Rattle.ados_ram.specs.{declared.entries.Bits.{Bits}, declared.limits.Limits.{Limits}, InUse.{InUse}, Place.{Key, Place, key_of, last_name, place_cmp, is_same_key, is_child, is_below, is_at_or_below}, Files.{AreNamed, Files, IsTree, IsWithin, first_files, is_some_file, OthersStay}, FileOperations.{write_of, write_as_of, write_fault, append_of, append_fault, put_open_of, put_open_fault, make_dir_of, make_dir_fault, rename_fault, rename_of, protect_of, comment_of}, Renames.{RenamesMove}, Contents.{children, contents, is_within, directory_files, contents_cmp, ListsJust}};

/// The lists of a directory hold just what they are to hold, each once: its contents are the places below it, each
/// directory after all that is in it, and otherwise in the order of names; its children are the places directly in it,
/// and its files the places of files, both in the order of places.
pub fn contents_in_order()
    ensures contents { (files : Files) (directory : Key) → ListsJust files (is_below directory) contents_cmp (contents directory (map.entries files)) }
    ensures children { (files : Files) (directory : Key) → ListsJust files (is_child directory) place_cmp (children directory (map.entries files)) }
    ensures files { (files : Files) (all : Bool) (directory : Key) → ListsJust files (λ place. is_within all directory place && is_some_file (map.get files place)) place_cmp (directory_files all directory (map.entries files)) }
    ensures inside { (place : Key) (name : Name) (way : Key) → contents_cmp (place ++ name ∷ way) place ≡ Less }
    ensures beside { (place : Key) (one other : Name) (way rest : Key) → name_cmp one other ≡ Less → contents_cmp (place ++ one ∷ way) (place ++ other ∷ rest) ≡ Less }
{}

/// An operation changes the object that it is for, and nothing else: each other place keeps its entry. A rename changes
/// what is at the old place or the new one, or below one of these.
pub fn others_stay()
    ensures write { (files : Files) (key : Key) (name : Name) (bytes : Bytes) → OthersStay (is_same_key key) files (write_of files key name bytes) }
    ensures write_as { (files : Files) (key : Key) (name : Name) (bytes : Bytes) (bits : Bits) → OthersStay (is_same_key key) files (write_as_of files key name bytes bits) }
    ensures append { (files : Files) (key : Key) (name : Name) (bytes : Bytes) → OthersStay (is_same_key key) files (append_of files key name bytes) }
    ensures put_open { (files : Files) (key : Key) (name : Name) (bytes : Bytes) → OthersStay (is_same_key key) files (put_open_of files key name bytes) }
    ensures make_dir { (files : Files) (key : Key) (name : Name) → OthersStay (is_same_key key) files (make_dir_of files key name) }
    ensures delete { (files : Files) (key : Key) → OthersStay (is_same_key key) files (map.remove files key) }
    ensures rename { (files : Files) (from to : Key) (name : Name) → OthersStay (λ place. is_at_or_below from place || is_at_or_below to place) files (rename_of files from to name) }
    ensures protect { (files : Files) (key : Key) (bits : Bits) → OthersStay (is_same_key key) files (protect_of files key bits) }
    ensures comment { (files : Files) (key : Key) (comment : Text) → OthersStay (is_same_key key) files (comment_of files key comment) }
{}

/// A rename that is not refused moves the object and all that is below it, by the same relative paths, and nothing else:
/// the object has its new name, what is below it is as it was, nothing is left at the old place, and each other place
/// keeps its entry.
pub fn renames_move()
    ensures { RenamesMove }
{}

/// Each object is at the key of its names: these are in lower case there, and the last of them is the object's own name.
/// It is so in the initial files, and each operation at a place keeps it.
pub fn objects_keep_their_names()
    ensures first { AreNamed first_files }
    ensures write { (files : Files) (place : Place) (bytes : Bytes) → AreNamed files → AreNamed (write_of files (key_of place) (last_name place) bytes) }
    ensures write_as { (files : Files) (place : Place) (bytes : Bytes) (bits : Bits) → AreNamed files → AreNamed (write_as_of files (key_of place) (last_name place) bytes bits) }
    ensures append { (files : Files) (place : Place) (bytes : Bytes) → AreNamed files → AreNamed (append_of files (key_of place) (last_name place) bytes) }
    ensures put_open { (files : Files) (place : Place) (bytes : Bytes) → AreNamed files → AreNamed (put_open_of files (key_of place) (last_name place) bytes) }
    ensures make_dir { (files : Files) (place : Place) → AreNamed files → AreNamed (make_dir_of files (key_of place) (last_name place)) }
    ensures delete { (files : Files) (key : Key) → AreNamed files → AreNamed (map.remove files key) }
    ensures rename { (busy : InUse) (files : Files) (from to : Place) → IsTree files → rename_fault busy files (key_of from) (key_of to) ≡ None →
        AreNamed files → AreNamed (rename_of files (key_of from) (key_of to) (last_name to)) }
    ensures protect { (files : Files) (key : Key) (bits : Bits) → AreNamed files → AreNamed (protect_of files key bits) }
    ensures comment { (files : Files) (key : Key) (comment : Text) → AreNamed files → AreNamed (comment_of files key comment) }
{}

/// Files stay within the limits: the initial files are within them, and each operation that these limits do not refuse
/// keeps it.
pub fn limits_hold()
    ensures first { (limits : Limits) → IsWithin limits first_files }
    ensures write { (limits : Limits) (is_open : Bool) (files : Files) (key : Key) (name : Name) (bytes : Bytes) → write_fault limits is_open files key name bytes ≡ None →
        IsWithin limits files → IsWithin limits (write_of files key name bytes) }
    ensures write_as { (limits : Limits) (is_open : Bool) (files : Files) (key : Key) (name : Name) (bytes : Bytes) (bits : Bits) → write_fault limits is_open files key name bytes ≡ None →
        IsWithin limits files → IsWithin limits (write_as_of files key name bytes bits) }
    ensures append { (limits : Limits) (is_open : Bool) (files : Files) (key : Key) (name : Name) (bytes : Bytes) → append_fault limits is_open files key name bytes ≡ None →
        IsWithin limits files → IsWithin limits (append_of files key name bytes) }
    ensures put_open { (limits : Limits) (files : Files) (key : Key) (name : Name) (bytes : Bytes) → put_open_fault limits files key name bytes ≡ None →
        IsWithin limits files → IsWithin limits (put_open_of files key name bytes) }
    ensures make_dir { (limits : Limits) (files : Files) (key : Key) (name : Name) → make_dir_fault limits files key name ≡ None →
        IsWithin limits files → IsWithin limits (make_dir_of files key name) }
    ensures delete { (limits : Limits) (files : Files) (key : Key) → IsWithin limits files → IsWithin limits (map.remove files key) }
    ensures rename { (limits : Limits) (busy : InUse) (files : Files) (from to : Key) (name : Name) → IsTree files → rename_fault busy files from to ≡ None →
        IsWithin limits files → IsWithin limits (rename_of files from to name) }
    ensures protect { (limits : Limits) (files : Files) (key : Key) (bits : Bits) → IsWithin limits files → IsWithin limits (protect_of files key bits) }
    ensures comment { (limits : Limits) (files : Files) (key : Key) (comment : Text) → IsWithin limits files → IsWithin limits (comment_of files key comment) }
{}
