// Laws of the tables on which commands rest.
ghost use Rattle.std.specs.Prelude.{◌≡◌, [], ◌∷◌, Some, codes, option_map, slice_get};
ghost use Rattle.ados_readargs.specs.Template.{options_of};
ghost use Rattle.ados_resident.specs.declared.commands.FlowCommand.TheVariants as command;
ghost use Rattle.ados_flow.specs.{Rows.{full_template_of}, declared.branches.TheConstants.{SKIP_LABEL, SKIP_BACK}};

/// The options of Skip are at the places in its template at which it reads them.
pub fn options_have_their_places()
    ensures skip_label { option_map (λ option. option.names) (slice_get (options_of (full_template_of command.Skip)) SKIP_LABEL) ≡ Some (codes "LABEL" ∷ []) }
    ensures skip_back { option_map (λ option. option.names) (slice_get (options_of (full_template_of command.Skip)) SKIP_BACK) ≡ Some (codes "BACK" ∷ []) }
{}
