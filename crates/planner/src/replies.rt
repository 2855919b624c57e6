// What the calls from C answer, as plain structs of numbers, since C has no enums that hold values.

// The reply to a call that plans a sheet: the number of the refusal, or 0; how the search stands (0 open, 1 ended with an
// order, 2 ended with "no order"); the byte at which a refused sheet is at fault; the length of the plan written; and
// the placings made.
#[repr(C)]
#[derive(Clone, Copy)]
pub struct PlanReply {
    pub refusal: u32,
    pub outcome: u32,
    pub byte: usize,
    pub length: usize,
    pub placings: u64,
}

// The reply to a call that reads a sheet, and may write it again: the number of the refusal, or 0; the byte at which a
// refused sheet is at fault; and the length of what was written.
#[repr(C)]
#[derive(Clone, Copy)]
pub struct SheetReply {
    pub refusal: u32,
    pub byte: usize,
    pub length: usize,
}

// The reply to a call that compares the plans of two sheets: the number of the refusal, or 0; which sheet is refused, 1
// or 2, or 0 if neither is; the byte at which it is at fault; and whether the plans are equal, 1 if so and else 0.
#[repr(C)]
#[derive(Clone, Copy)]
pub struct SameReply {
    pub refusal: u32,
    pub sheet: u32,
    pub byte: usize,
    pub same: u32,
}
