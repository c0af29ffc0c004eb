ghost use Rattle.std.specs.Prelude.{◌≡◌};
ghost use Rattle.sheet.specs.Refusals.{number_of};

// What a sheet, an answer or a call is refused for, by the numbers of document 01 and of the requests.
#[derive(Clone, Copy, PartialEq, Eq)]
pub enum Refusal {
    RouteLength = 1,
    SheetBufferLength = 2,
    TriesLength = 3,
    ExerciseShort = 10,
    ExerciseMark = 11,
    ExerciseVersion = 12,
    OverLimit = 13,
    ExerciseLength = 14,
    Malformed = 15,
    DoubleDriver = 16,
    UnfitList = 18,
    AnswerShort = 20,
    AnswerMark = 21,
    AnswerVersion = 22,
    NoApprentice = 23,
    OtherCellCount = 24,
    AnswerLength = 25,
    OutOfRange = 26,
    ClockWithoutOutput = 30,
    ClearWithoutClock = 31,
    LoadWithoutClock = 32,
    LoadWithoutData = 33,
    EnableWithoutClock = 34,
    BadData = 35,
    CarryInNotFed = 40,
    CarryInWithoutFlag = 41,
    CarryOutNotReadOnce = 42,
    CarryWithDatad = 43,
    CarryInWithDatac = 44,
    PlaceTaken = 50,
    CarryNotNext = 51,
    TooManyClocks = 60,
    TooManyPairs = 61,
    TooManyClears = 62,
    TooManySynchronous = 63,
    TooManyNets = 64,
    NoWay = 65,
    SettingsShort = 70,
    SettingsMark = 71,
    SettingsVersion = 72,
    TooManyEntries = 73,
    SettingsLength = 74,
    OtherFlags = 75,
    BadClassSheet = 76,
    TooFewRows = 77,
    LogShort = 80,
    LogMark = 81,
    LogVersion = 82,
    LogOverLimit = 83,
    LogLength = 84,
    BadEntry = 85,
    TooManyApprentices = 86,
    ListLengths = 87,
}

impl Refusal {
    // Its number.
    pub fn number(self) -> u8
        ensures { result ≡ number_of self }
    {
        self as u8
    }
}
