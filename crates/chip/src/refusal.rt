// The causes for which a call of the library is refused, each with its number.
ghost use Rattle.std.specs.Prelude.{◌≡◌};
ghost use Rattle.chip.specs.Refusals.{number_of};

// Why a call was refused.
#[derive(Clone, Copy, PartialEq, Eq, Debug)]
pub enum Refusal {
    // The input ends in a field or before the end field.
    Truncated = 1,
    // The tag is unknown or out of order.
    Tag = 2,
    // The length is wrong for the tag.
    Length = 3,
    // The rule letter is none that the library knows.
    RuleLetter = 4,
    // The flow's times break their rule.
    Times = 5,
    // An endpoint lies off the mesh, or both are one router.
    Endpoints = 6,
    // The label is 0.
    LabelZero = 7,
    // The label is already on the sheet.
    LabelTaken = 8,
    // A sheet holds at most 20 flows.
    TooManyFlows = 9,
    // The reserve is above 1,000,000 ticks.
    ReserveTooLarge = 10,
    // A pair names no flow of the sheet, or one flow twice.
    PairUnknown = 11,
    // A job holds at most 16 pairs.
    TooManyPairs = 12,
    // Bytes follow the end field.
    TrailingBytes = 13,
    // The buffer is shorter than the output.
    ShortBuffer = 14,
    // An advance of no placings.
    AdvanceOfZero = 15,
    // An advance of a search that has ended.
    AdvanceAfterEnd = 16,
    // A plan or equality asked before the end, or a level asked without an order.
    NoOutcome = 17,
    // A level outside 1 to the number of flows.
    LevelOutside = 18,
    // A question that names a flow outside 1 to the number of flows, one twice, or the asked flow among the others.
    ImproperQuestion = 19,
}

impl Refusal {
    // The number by which every interface of the library tells this cause.
    pub fn number(self) -> u8
        ensures { result ≡ number_of self }
    {
        self as u8
    }
}
