// Interference on the mesh chip: the definitions of the rules D, J and L and what follows from them alone, that each
// keeps the laws of a rule among it. Code that answers by these definitions stands in the crates above.
#![tactic(auto)]

ghost use Rattle.std.specs.Prelude.{◌≤◌, List, length};
ghost use Rattle.chip.specs.declared.parameters.FlowParameters.{FlowParameters};
ghost use Rattle.rule.specs.Laws.{Lawful};
ghost use Rattle.interference.specs.Rules.{meaning_D, meaning_J, meaning_L};

// Each rule keeps the laws, whatever the 1 to 20 flows of the chip.
fn rules_keep_the_laws()
    ensures { (fs : List FlowParameters) → 1 ≤ length fs → length fs ≤ 20 → Lawful (meaning_D fs) × Lawful (meaning_J fs) × Lawful (meaning_L fs) }
{}
