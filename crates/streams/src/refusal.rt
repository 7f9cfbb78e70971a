// Why a call is refused: the cases of document 01's table and those that document 02 adds, each with its number and its one detail.
ghost use Rattle.std.specs.Prelude.{◌≡◌};
ghost use Rattle.streams.specs.Refusal.{stream_detail, number_of, detail_of, stream_of_detail, refusal_of};

// Which of the two streams a refusal speaks of.
#[derive(Clone, Copy, PartialEq, Eq, Debug)]
pub enum StreamKind {
    Types,
    Ids,
}

#[derive(Clone, Copy, PartialEq, Eq, Debug)]
pub enum Refusal {
    UnknownFlags(u32),
    PointerSize(u32),
    Header(StreamKind),
    Tiling(StreamKind),
    Malformed(u32),
    CrossModule(u32),
    UnlistedKind(u32),
    Missing(u32),
    ArgumentTypeNotArgumentList(u32),
    FunctionIdIsNotProcedureType(u32),
    MemberFunctionIdIsNotMemberFunctionType(u32),
    CircularTypeDefinition(u32),
    TooManyOpen(u32),
    ChainTooLong(u32),
    NoRoom,
    UnknownCommand(u32),
    WrongPlace(u32),
}

impl StreamKind {
    pub fn of(detail: u32) -> StreamKind
        ensures { result ≡ stream_of_detail detail }
    {
        match detail {
            0 => StreamKind::Types,
            _ => StreamKind::Ids,
        }
    }

    pub fn detail(self) -> u32
        ensures { result ≡ stream_detail self }
    {
        match self {
            StreamKind::Types => 0,
            StreamKind::Ids => 1,
        }
    }
}

impl Refusal {
    // The refusal of a number with a detail; 16 for a number of none.
    #[tactic(auto, unfolding(crate::specs::Refusal::refusal_of))]
    pub fn of(number: u32, detail: u32) -> Refusal
        ensures { result ≡ refusal_of number detail }
    {
        match number {
            1 => Refusal::UnknownFlags(detail),
            2 => Refusal::PointerSize(detail),
            3 => Refusal::Header(StreamKind::of(detail)),
            4 => Refusal::Tiling(StreamKind::of(detail)),
            5 => Refusal::Malformed(detail),
            6 => Refusal::CrossModule(detail),
            7 => Refusal::UnlistedKind(detail),
            8 => Refusal::Missing(detail),
            9 => Refusal::ArgumentTypeNotArgumentList(detail),
            10 => Refusal::FunctionIdIsNotProcedureType(detail),
            11 => Refusal::MemberFunctionIdIsNotMemberFunctionType(detail),
            12 => Refusal::CircularTypeDefinition(detail),
            13 => Refusal::TooManyOpen(detail),
            14 => Refusal::ChainTooLong(detail),
            15 => Refusal::NoRoom,
            17 => Refusal::WrongPlace(detail),
            _ => Refusal::UnknownCommand(detail),
        }
    }

    pub fn number(self) -> u32
        ensures { result ≡ number_of self }
    {
        match self {
            Refusal::UnknownFlags(_) => 1,
            Refusal::PointerSize(_) => 2,
            Refusal::Header(_) => 3,
            Refusal::Tiling(_) => 4,
            Refusal::Malformed(_) => 5,
            Refusal::CrossModule(_) => 6,
            Refusal::UnlistedKind(_) => 7,
            Refusal::Missing(_) => 8,
            Refusal::ArgumentTypeNotArgumentList(_) => 9,
            Refusal::FunctionIdIsNotProcedureType(_) => 10,
            Refusal::MemberFunctionIdIsNotMemberFunctionType(_) => 11,
            Refusal::CircularTypeDefinition(_) => 12,
            Refusal::TooManyOpen(_) => 13,
            Refusal::ChainTooLong(_) => 14,
            Refusal::NoRoom => 15,
            Refusal::UnknownCommand(_) => 16,
            Refusal::WrongPlace(_) => 17,
        }
    }

    pub fn detail(self) -> u32
        ensures { result ≡ detail_of self }
    {
        match self {
            Refusal::Header(stream) | Refusal::Tiling(stream) => stream.detail(),
            Refusal::UnknownFlags(n)
            | Refusal::PointerSize(n)
            | Refusal::Malformed(n)
            | Refusal::CrossModule(n)
            | Refusal::UnlistedKind(n)
            | Refusal::Missing(n)
            | Refusal::ArgumentTypeNotArgumentList(n)
            | Refusal::FunctionIdIsNotProcedureType(n)
            | Refusal::MemberFunctionIdIsNotMemberFunctionType(n)
            | Refusal::CircularTypeDefinition(n)
            | Refusal::TooManyOpen(n)
            | Refusal::ChainTooLong(n)
            | Refusal::UnknownCommand(n)
            | Refusal::WrongPlace(n) => n,
            Refusal::NoRoom => 0,
        }
    }
}
