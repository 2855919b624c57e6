// The bytes of a plan, and the labels by which plans are compared.
ghost use Rattle.std.specs.Prelude.{◌≡◌, ◌+◌, ◌*◌, ◌≤◌, ◌++◌, length, drop};
ghost use Rattle.std.specs.List.{list_all, zip};
ghost use Rattle.rule.specs.Questions.{asked_label};
ghost use Rattle.search.specs.Plans.{level_bytes, tail_bytes, no_order_bytes, levels_told, fit_reply, fit_after, same_label, same_labels};

use chip::Refusal;
use rule::Rule;
use table::Table;

// How many bytes the field of a level has.
pub const LEVEL_BYTES: usize = 10;

// How many bytes the fields after the levels have.
pub const TAIL_BYTES: usize = 14;

// How many bytes the longest plan has: 20 levels and what follows them.
pub const MAX_PLAN: usize = 214;

// The field of a level. The tag of each kind of field stands once, in the bytes that it begins.
fn level_field(level: u8, label: u16, bound: u32) -> [u8; LEVEL_BYTES]
    ensures { result ≡ level_bytes level label bound }
{
    let mut field = [0x11, 0, 7, level, 0, 0, 0, 0, 0, 0];
    field[4..6].copy_from_slice(&label.to_be_bytes());
    field[6..].copy_from_slice(&bound.to_be_bytes());
    field
}

// The fields of the count of placings and of the end.
fn tail_fields(count: u64) -> [u8; TAIL_BYTES]
    ensures { result ≡ tail_bytes count }
{
    let mut fields = [0x13, 0, 8, 0, 0, 0, 0, 0, 0, 0, 0, 0x05, 0, 0];
    fields[3..11].copy_from_slice(&count.to_be_bytes());
    fields
}

// The fields of all levels: of the flows of an order, and of their bounds.
fn levels<R: Rule>(rule: &R, order: &[u8], bounds: &[u32; 20]) -> Table<u8, MAX_PLAN>
    requires { length order.now ≤ 20 }
    ensures { result.items ≡ levels_told (R.Rule.meaning rule.now) order.now bounds.now (length order.now) }
{
    let mut plan = Table::empty(0);
    for (i, f) in order.iter().enumerate() {
        let label = rule.label(*f).unwrap_or(0);
        let field = level_field(i as u8 + 1, label, bounds[i]);
        plan.extend(&field).unwrap();
    }
    plan
}

// Copies a plan to the front of a buffer; refuses a shorter one.
fn copied(plan: &Table<u8, MAX_PLAN>, buffer: &mut [u8]) -> Result<usize, Refusal>
    ensures reply { result ≡ fit_reply plan.now.items (length buffer.old) }
    ensures after { buffer.new ≡ fit_after plan.now.items buffer.old }
{
    plan.copy_to(buffer).map_err(|_| Refusal::ShortBuffer)
}

// Writes the plan of an order, from its bounds and the count of placings; refuses a buffer shorter than it.
pub(crate) fn write_order<R: Rule>(
    rule: &R,
    order: &[u8],
    bounds: &[u32; 20],
    count: u64,
    buffer: &mut [u8],
) -> Result<usize, Refusal>
    requires { length order.now ≤ 20 }
    ensures reply { result ≡ fit_reply (levels_told (R.Rule.meaning rule.now) order.now bounds.now (length order.now) ++ tail_bytes count) (length buffer.old) }
    ensures after { buffer.new ≡ fit_after (levels_told (R.Rule.meaning rule.now) order.now bounds.now (length order.now) ++ tail_bytes count) buffer.old }
{
    // A buffer that is too short is refused before the rule is asked for a label.
    if buffer.len() < LEVEL_BYTES * order.len() + TAIL_BYTES {
        return Err(Refusal::ShortBuffer);
    }
    let mut plan = levels(rule, order, bounds);
    plan.extend(&tail_fields(count)).unwrap();
    copied(&plan, buffer)
}

// Writes the plan of a search without an order; refuses a buffer shorter than it.
pub(crate) fn write_no_order(count: u64, buffer: &mut [u8]) -> Result<usize, Refusal>
    ensures reply { result ≡ fit_reply (no_order_bytes ++ tail_bytes count) (length buffer.old) }
    ensures after { buffer.new ≡ fit_after (no_order_bytes ++ tail_bytes count) buffer.old }
{
    let mut plan = Table::<u8, MAX_PLAN>::empty(0);
    plan.extend(&[0x12, 0, 0]).unwrap();
    plan.extend(&tail_fields(count)).unwrap();
    copied(&plan, buffer)
}

// Whether a flow of one rule has the label of a flow of another.
fn same_label<R: Rule, Q: Rule>(rule: &R, f: u8, other: &Q, g: u8) -> bool
    ensures { result ≡ same_label (asked_label (R.Rule.meaning rule.now) f) (asked_label (Q.Rule.meaning other.now) g) }
{
    rule.label(f).ok() == other.label(g).ok()
}

// Whether the flows of two orders of one length have the same labels, level by level.
fn labels_agree<R: Rule, Q: Rule>(rule: &R, order: &[u8], other: &Q, theirs: &[u8]) -> bool
    ensures { result ≡ list_all (λ p. same_label (asked_label (R.Rule.meaning rule.now) p.0) (asked_label (Q.Rule.meaning other.now) p.1)) (zip order.now theirs.now) }
{
    order
        .iter()
        .zip(theirs)
        .all(|(f, g)| same_label(rule, *f, other, *g))
}

// Whether the flows of two orders have the same labels, level by level.
pub(crate) fn same_labels<R: Rule, Q: Rule>(
    rule: &R,
    order: &[u8],
    other: &Q,
    theirs: &[u8],
) -> bool
    ensures { result ≡ same_labels (R.Rule.meaning rule.now) order.now (Q.Rule.meaning other.now) theirs.now }
{
    order.len() == theirs.len() && labels_agree(rule, order, other, theirs)
}
