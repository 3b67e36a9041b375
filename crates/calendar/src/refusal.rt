// Why a step was refused. Each case is named by what it says; `number` is the number that a job prints for it.
ghost use Rattle.std.specs.Prelude.{◌≡◌};
ghost use Rattle.calendar.specs.Refusals.{refusal_number};

#[derive(Clone, Copy, PartialEq, Eq, Debug)]
pub enum Refusal {
    YearOutOfRange = 1,
    MonthOutOfRange = 2,
    NoRegularCapacity = 3,
    CapacityAboveLimit = 4,
    ReductionOutOfRange = 5,
    BidPriceAboveLimit = 6,
    DayOutOfRange = 7,
    UnknownCallKind = 8,
    CallHoursOutOfRange = 9,
    KeyAlreadyBooked = 10,
    BookFull = 11,
    NotAMeterCode = 12,
    AnotherMeter = 13,
    PlaceNotNextFree = 14,
    PastLastPlace = 15,
    ReadingAboveLimit = 16,
    MonthNotFull = 17,
    LeadNotUsable = 18,
    JobTextTooLong = 19,
    CallKindNotTaken = 20,
    BidBeyondCapacity = 21,
    CallLengthNotTaken = 22,
    CalledHoursAboveLimit = 23,
    TooFewDaysToAverage = 24,
    JobIncomplete = 25,
    TrialDayOutsideMonth = 26,
    TrialReadingsNotUsable = 27,
    MalformedLine = 28,
    LineOutOfOrder = 29,
    PrintBufferTooShort = 30,
}

impl Refusal {
    // The number that the job prints for this refusal.
    pub fn number(&self) -> u8
        ensures { result ≡ refusal_number self.now }
    {
        *self as u8
    }
}
