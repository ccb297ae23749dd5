// The causes of refusal, and the paper's number, place and pointer of each.
ghost use Rattle.std.specs.Prelude.{◌≡◌};
ghost use Rattle.answers.specs.Refusals.{number, place, pointer};

// The causes of refusal, each with its place.
#[derive(Clone, Copy, Debug, PartialEq, Eq)]
pub enum Refusal {
    Length,
    Directory,
    ObjectLength(usize),
    VariableRecord(usize),
    StatementRecord(usize),
    BlockLayout(usize),
    BoundsNotShown { statement: usize, pointer: usize },
    BundleAccess(usize),
    MemorySize,
    DirectoryPair(usize),
    EntryLengths,
    EntryValue(usize),
    RowsDiffer(usize),
    LastCell(usize),
    LoopFact(usize),
    EditPosition(usize),
    RoutineCount,
    Callee(usize),
    Arguments(usize),
}

impl Refusal {
    pub fn number(self) -> u32
        ensures { result ≡ number self }
    {
        match self {
            Refusal::Length => 1,
            Refusal::Directory => 2,
            Refusal::ObjectLength(_) => 3,
            Refusal::VariableRecord(_) => 4,
            Refusal::StatementRecord(_) => 5,
            Refusal::BlockLayout(_) => 6,
            Refusal::BoundsNotShown { .. } => 8,
            Refusal::BundleAccess(_) => 9,
            Refusal::MemorySize | Refusal::DirectoryPair(_) => 10,
            Refusal::EntryLengths => 11,
            Refusal::EntryValue(_) => 12,
            Refusal::RowsDiffer(_) => 13,
            Refusal::LastCell(_) => 16,
            Refusal::LoopFact(_) => 17,
            Refusal::EditPosition(_) => 18,
            Refusal::RoutineCount => 15,
            Refusal::Callee(_) => 19,
            Refusal::Arguments(_) => 20,
        }
    }

    pub fn place(self) -> usize
        ensures { result ≡ place self }
    {
        match self {
            Refusal::Length
            | Refusal::Directory
            | Refusal::MemorySize
            | Refusal::EntryLengths
            | Refusal::RoutineCount => 0,
            Refusal::ObjectLength(at)
            | Refusal::VariableRecord(at)
            | Refusal::StatementRecord(at)
            | Refusal::BlockLayout(at)
            | Refusal::BoundsNotShown { statement: at, .. }
            | Refusal::BundleAccess(at)
            | Refusal::DirectoryPair(at)
            | Refusal::EntryValue(at)
            | Refusal::RowsDiffer(at)
            | Refusal::LastCell(at)
            | Refusal::LoopFact(at)
            | Refusal::EditPosition(at)
            | Refusal::Callee(at)
            | Refusal::Arguments(at) => at,
        }
    }

    // The pointer of refusal 8; of any other refusal 0.
    pub fn pointer(self) -> usize
        ensures { result ≡ pointer self }
    {
        match self {
            Refusal::BoundsNotShown { pointer, .. } => pointer,
            _ => 0,
        }
    }
}
