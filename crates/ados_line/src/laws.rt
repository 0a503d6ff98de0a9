// The laws of lines, over their definitions.
ghost use Rattle.std.specs.Prelude.{◌≡◌, Err};
ghost use Rattle.ados_text.specs.Text.{Text};
ghost use Rattle.ados_line.specs.{declared.faults.LineFault.{LineFault}, Cut.{cut_of}, FirstFault.{IsFirstFault}};

/// A line that is not cut has its fault at the first place that has one: up to there it is pieces without faults, and at
/// that place there is a second input or output, one without a name, `<>`, or a quote that is not closed, in this order.
pub fn first_fault_of_a_cut()
    ensures { (line : Text) (fault : LineFault) → cut_of line ≡ Err fault → IsFirstFault line fault }
{}
