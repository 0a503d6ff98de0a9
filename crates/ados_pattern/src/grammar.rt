//! The grammar's laws.

ghost use Rattle.std.specs.Prelude.{◌≡◌, ◌<◌, ◌≤◌, ◌↔◌, ◌⊎◌, ℕ, None, Some, length, IsTrue};
ghost use Rattle.ados_text.specs.Text.{Text};
ghost use Rattle.ados_pattern.specs.{declared.errors.PatternFault.TheVariants.{BadPattern, TooLong}, Fault.{fault_of}, FaultPlace.{FaultAt, IsFirstFault}, Form.{Form}, Grammar.{IsPattern}, Literal.{name_in}, Matches.{Matches}, Matching.{is_match}, Meaning.{meaning_of}};

/// Each text is a pattern or has a first fault, and never both; and a pattern says one form.
pub fn one_reading()
    ensures whole { (text : Text) → ((form : Form) × IsPattern text form) ⊎ ((place : ℕ) × IsFirstFault text place) }
    ensures apart { (text : Text) (form : Form) (place : ℕ) → IsPattern text form → FaultAt text place → ⊥ }
    ensures single { (text : Text) (one other : Form) → IsPattern text one → IsPattern text other → one ≡ other }
{}

/// What definitions compute of a text is what the grammar says of it: a text without a computed fault is a pattern of
/// the computed form and name, a computed fault at a place is the first fault, and each text that a pattern says passes
/// the computed test.
pub fn computed_reading()
    ensures pattern { (text : Text) (form : Form) → (fault_of text ≡ None) × ((meaning_of text).form ≡ form) ↔ (length text ≤ 255) × IsPattern text form }
    ensures name { (text : Text) → fault_of text ≡ None → (meaning_of text).name ≡ name_in (meaning_of text).form }
    ensures bad { (text : Text) (place : ℕ) → (fault_of text ≡ Some (BadPattern place)) ↔ (length text ≤ 255) × IsFirstFault text place }
    ensures long { (text : Text) → (fault_of text ≡ Some TooLong) ↔ (255 < length text) }
    ensures test { (form : Form) (text : Text) → IsTrue (is_match form text) ↔ Matches form text }
{}
