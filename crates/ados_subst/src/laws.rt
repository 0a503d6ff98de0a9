// The laws of scripts, over their definitions.
ghost use Rattle.std.specs.Prelude.{◌≡◌, ◌↔◌, List, true, Err};
ghost use Rattle.ados_text.specs.Text.{Bytes, Text};
ghost use Rattle.ados_subst.specs.{declared.faults.SubstFault.{SubstFault}, FirstFault.{IsFirstFault}, Scripts.{is_dotted, script_of}};

/// A script whose first line begins with a dot has a fault exactly if one of its directives has one, and it is that of
/// the first such directive, by what its line says and what holds above it. Any other script has none.
pub fn first_directive_is_told()
    ensures { (lines : List Text) (args : Bytes) (process : Text) (fault : SubstFault) →
        (script_of lines args process ≡ Err fault) ↔ (is_dotted lines ≡ true) × IsFirstFault args lines fault }
{}
