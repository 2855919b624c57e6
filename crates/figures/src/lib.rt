// Worked figures of the rules and of the walk, as tables that hold of their definitions.
#![tactic(auto)]

ghost use Rattle.std.specs.Prelude.{◌≡◌, length};
ghost use Rattle.figures.specs.Figures.{figures, searches, Hold, Ended};

// How many worked figures there are; every one is what its rule answers.
pub fn figure_count() -> u8
    ensures count { result ≡ length figures }
    ensures hold { Hold figures }
{
    11
}

// How many worked searches there are: the walk under each rule ends as told, and its order has the bounds told.
pub fn search_count() -> u8
    ensures count { result ≡ length searches }
    ensures hold { Ended searches }
{
    4
}
