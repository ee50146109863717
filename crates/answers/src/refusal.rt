// Why a call is refused: an error enum, whose values are the numbers of documents 01 and 02. C is told the number.
ghost use Rattle.std.specs.Prelude.{◌≡◌, eqb};
ghost use Rattle.std.specs.List.{find};
ghost use Rattle.answers.specs.Numbers.{numbers};
ghost use Rattle.answers.specs.Refused.{refusal_number, outcome_number, refusals, refusal_for};

#[derive(Clone, Copy, Debug, PartialEq, Eq)]
pub enum Refusal {
    CutShort = 1,
    NotCaf = 2,
    NoData = 3,
    BadSize = 4,
    BadRate = 5,
    BadVersion = 6,
    BadDesc = 7,
    DataPastEnd = 8,
    DataEndsEarly = 9,
    Finished = 10,
    NoHeader = 11,
    HeaderAlready = 12,
    NoFormat = 13,
    NoRoom = 14,
    PacketTooBig = 15,
    BadLabel = 16,
    TooManyLabels = 17,
    BadTag = 18,
    BadWriter = 19,
    OddLength = 20,
    TooLong = 21,
    BadLayout = 22,
    SecondData = 23,
    TailAfterData = 24,
    NotClosed = 25,
    NoGroup = 26,
    WrongWidth = 27,
    BadTray = 28,
    NotForWave = 29,
    CannotCompare = 30,
    LittleRetired = 31,
    BadWave = 32,
    DataBegun = 33,
}

// The number of a call that is not refused.
pub const DONE: u32 = 0;

impl Refusal {
    pub fn number(self) -> u32
        ensures { result ≡ refusal_number self }
    {
        self as u32
    }
}

// What C is told of an outcome.
pub fn number_of(outcome: Result<(), Refusal>) -> u32
    ensures { result ≡ outcome_number outcome }
{
    match outcome {
        Ok(()) => DONE,
        Err(refusal) => refusal.number(),
    }
}

// Every refusal, in the order of the numbers.
pub fn all_refusals() -> [Refusal; 33]
    ensures { result ≡ refusals }
{
    [
        Refusal::CutShort,
        Refusal::NotCaf,
        Refusal::NoData,
        Refusal::BadSize,
        Refusal::BadRate,
        Refusal::BadVersion,
        Refusal::BadDesc,
        Refusal::DataPastEnd,
        Refusal::DataEndsEarly,
        Refusal::Finished,
        Refusal::NoHeader,
        Refusal::HeaderAlready,
        Refusal::NoFormat,
        Refusal::NoRoom,
        Refusal::PacketTooBig,
        Refusal::BadLabel,
        Refusal::TooManyLabels,
        Refusal::BadTag,
        Refusal::BadWriter,
        Refusal::OddLength,
        Refusal::TooLong,
        Refusal::BadLayout,
        Refusal::SecondData,
        Refusal::TailAfterData,
        Refusal::NotClosed,
        Refusal::NoGroup,
        Refusal::WrongWidth,
        Refusal::BadTray,
        Refusal::NotForWave,
        Refusal::CannotCompare,
        Refusal::LittleRetired,
        Refusal::BadWave,
        Refusal::DataBegun,
    ]
}

fn refusal_among(refusals: &[Refusal], number: u32) -> Option<Refusal>
    ensures { result ≡ find (λ r. eqb (refusal_number r) number) refusals.now }
{
    refusals
        .iter()
        .copied()
        .find(|refusal| refusal.number() == number)
}

// The refusal of a number, where it is one's.
pub fn refusal_of(number: u32) -> Option<Refusal>
    ensures { result ≡ refusal_for number }
{
    refusal_among(&all_refusals(), number)
}

// The numbers, in ascending order: 0, and that of each refusal.
pub fn all_numbers() -> [u32; 34]
    ensures { result ≡ numbers }
{
    [
        DONE,
        Refusal::CutShort as u32,
        Refusal::NotCaf as u32,
        Refusal::NoData as u32,
        Refusal::BadSize as u32,
        Refusal::BadRate as u32,
        Refusal::BadVersion as u32,
        Refusal::BadDesc as u32,
        Refusal::DataPastEnd as u32,
        Refusal::DataEndsEarly as u32,
        Refusal::Finished as u32,
        Refusal::NoHeader as u32,
        Refusal::HeaderAlready as u32,
        Refusal::NoFormat as u32,
        Refusal::NoRoom as u32,
        Refusal::PacketTooBig as u32,
        Refusal::BadLabel as u32,
        Refusal::TooManyLabels as u32,
        Refusal::BadTag as u32,
        Refusal::BadWriter as u32,
        Refusal::OddLength as u32,
        Refusal::TooLong as u32,
        Refusal::BadLayout as u32,
        Refusal::SecondData as u32,
        Refusal::TailAfterData as u32,
        Refusal::NotClosed as u32,
        Refusal::NoGroup as u32,
        Refusal::WrongWidth as u32,
        Refusal::BadTray as u32,
        Refusal::NotForWave as u32,
        Refusal::CannotCompare as u32,
        Refusal::LittleRetired as u32,
        Refusal::BadWave as u32,
        Refusal::DataBegun as u32,
    ]
}
