// The law of the walk, for every rule.
#![tactic(auto)]

ghost use Rattle.rule.specs.Laws.{Lawful};
ghost use Rattle.rule.specs.Meaning.{Meaning};
ghost use Rattle.walk.specs.WalkLaw.{WalkLaw};

// The law of the walk holds of every rule that keeps its laws.
fn walk_keeps_its_law()
    ensures { (m : Meaning) → Lawful m → WalkLaw m }
{}
