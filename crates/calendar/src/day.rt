// The weekday and the kind of a day. A day is counted from 1 January 2000, which is day 0.
ghost use Rattle.std.specs.Prelude.{◌≡◌};
ghost use Rattle.calendar.specs.CalendarLaws.{GoesRound};
ghost use Rattle.calendar.specs.Days.{weekday_of, kind_of};

#[derive(Clone, Copy, PartialEq, Eq, Debug)]
pub enum Weekday {
    Monday,
    Tuesday,
    Wednesday,
    Thursday,
    Friday,
    Saturday,
    Sunday,
}

// What a tariff distinguishes of days.
#[derive(Clone, Copy, PartialEq, Eq, Debug)]
pub enum DayKind {
    Working,
    Saturday,
    Sunday,
    OffPeak,
}

impl Weekday {
    // The weekday of a day: day 0 is a Saturday.
    pub fn of(day: u32) -> Weekday
        ensures value { result ≡ weekday_of day }
        ensures goes_round { GoesRound day }
    {
        match day % 7 {
            0 => Weekday::Saturday,
            1 => Weekday::Sunday,
            2 => Weekday::Monday,
            3 => Weekday::Tuesday,
            4 => Weekday::Wednesday,
            5 => Weekday::Thursday,
            _ => Weekday::Friday,
        }
    }
}

impl DayKind {
    // The kind of a day: off-peak where it is booked so, else by its weekday.
    pub fn of(day: u32, off_peak: bool) -> DayKind
        ensures { result ≡ kind_of day off_peak }
    {
        if off_peak {
            return DayKind::OffPeak;
        }
        match Weekday::of(day) {
            Weekday::Saturday => DayKind::Saturday,
            Weekday::Sunday => DayKind::Sunday,
            _ => DayKind::Working,
        }
    }
}
