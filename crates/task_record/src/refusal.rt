// Why a call says no: one enum for the lines of "Where a call can say no", of every call, and each case's number beside it.
ghost use Rattle.std.specs.Prelude.{◌≡◌};
ghost use Rattle.planning.specs.Numbers.{refusal};
ghost use Rattle.task_record.specs.Refusals.{refusal_numbers};

// Each case holds its second number, as specs/Refusals.antt words it.
#[derive(Clone, Copy, PartialEq, Eq)]
pub enum Refusal {
    UnexpectedLine(u64),
    WrongForm(u64),
    OutOfRange(u64),
    WrongList(u64),
    ShortRecord(u64),
    WrongCell(u64),
    LargePattern(u64),
    ShortTables(u64),
    NotAdditive(u64),
    WrongState(u64),
    ShortPlan(u64),
    UnfinishedPlan(u64),
    UnknownByte(u64),
    Inapplicable(u64),
    EarlyArrival(u64),
    TrailingBytes(u64),
    TooDeep(u64),
    ShortRow(u64),
}

impl Refusal {
    // Number and second number, as they go to C and to a line of text.
    #[tactic(auto, unfolding(planning::specs::Numbers::refusal))]
    pub fn numbers(self) -> (u64, u64)
        ensures { refusal result.0 result.1 ≡ refusal_numbers self }
    {
        match self {
            Refusal::UnexpectedLine(line) => (1, line),
            Refusal::WrongForm(line) => (2, line),
            Refusal::OutOfRange(line) => (3, line),
            Refusal::WrongList(line) => (4, line),
            Refusal::ShortRecord(length) => (5, length),
            Refusal::WrongCell(offset) => (6, offset),
            Refusal::LargePattern(pattern) => (7, pattern),
            Refusal::ShortTables(needed) => (8, needed),
            Refusal::NotAdditive(action) => (9, action),
            Refusal::WrongState(offset) => (10, offset),
            Refusal::ShortPlan(needed) => (11, needed),
            Refusal::UnfinishedPlan(offset) => (12, offset),
            Refusal::UnknownByte(offset) => (13, offset),
            Refusal::Inapplicable(offset) => (14, offset),
            Refusal::EarlyArrival(offset) => (15, offset),
            Refusal::TrailingBytes(offset) => (16, offset),
            Refusal::TooDeep(offset) => (17, offset),
            Refusal::ShortRow(length) => (18, length),
        }
    }
}
