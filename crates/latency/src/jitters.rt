// A table of the interference jitter of the flows that delay a flow.
ghost use Rattle.std.specs.Prelude.{◌≡◌, ℕ, ◌≤◌, true};
ghost use Rattle.rule.specs.FlowSets.{marks_of, members};
ghost use Rattle.rule.specs.Lists.{among};
ghost use Rattle.interference.specs.Tables.{of_flow};

use rule::FlowSet;

// What `jitter` tells of each flow of a set, by its number.
pub(crate) fn jitters<F: Fn(u8) -> u32>(counted: FlowSet, jitter: F) -> [u32; 20]
    requires asked { (j : ℕ) → among j (members (marks_of counted)) ≡ true → F.pre jitter j }
    requires few { (j extra : ℕ) → F.post jitter j extra → extra ≤ 1000000 }
    ensures value { (j : ℕ) → among j (members (marks_of counted)) ≡ true → F.post jitter j (of_flow result j) }
    ensures few { (j : ℕ) → of_flow result j ≤ 1000000 }
{
    let mut extra = [0; 20];
    for j in counted {
        extra[j as usize - 1] = jitter(j);
    }
    extra
}
