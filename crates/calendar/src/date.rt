// Dates of the years 2000 to 2099 and their day numbers, both ways.
ghost use Rattle.std.specs.Prelude.{◌≡◌, ◌<◌, ◌≤◌, ◌⊎◌, Some, MatchOption};
ghost use Rattle.calendar.specs.CalendarLaws.{LaterIsLarger, OneDate};
ghost use Rattle.calendar.specs.Dates.{date_day, InYear, InMonth, Within};
ghost use Rattle.calendar.specs.Gregorian.{days_in_months};

use crate::month::{Month, days_before_month, days_before_year, days_of_month, is_leap};

// The last day of the calendar, 31 December 2099.
pub const LAST_DAY: u32 = 36_524;

#[derive(Clone, Copy, PartialEq, Eq, Debug)]
pub struct Date {
    pub year: u16,
    pub month: u8,
    pub day: u8,
}

// The number of a date's day, or none where 2000 to 2099 lack it.
pub fn day_number(year: u32, month: u32, day: u32) -> Option<u32>
    ensures value { result ≡ date_day year month day }
    ensures order { LaterIsLarger }
{
    if year < 2000 || year > 2099 || month < 1 || month > 12 || day < 1 {
        return None;
    }
    let leap_year = is_leap(year as u16);
    if day > u32::from(days_of_month(leap_year, month as u8)) {
        return None;
    }
    Some(
        days_before_year(year as u16)
            + u32::from(days_before_month(leap_year, month as u8))
            + (day - 1),
    )
}

// The days of a year.
fn days_of_year(leap_year: bool) -> u16
    ensures { result ≡ days_in_months leap_year 12 }
{
    if leap_year { 366 } else { 365 }
}

// The year that a day from 1 January 2000 on lies in, and the days of that year before it. One function for years and for months, given what a
// unit's length is, would be no plainer: it would take two types of number and a closure, and its clauses would speak of the closure's answers.
fn year_of(day: u32) -> Option<(u16, u16)>
    ensures { MatchOption result (36524 < day) (λ p. InYear day p.0 p.1) }
{
    let mut rest = day;
    for year in 2000..2100u16 {
        let days = u32::from(days_of_year(is_leap(year)));
        if rest < days {
            return Some((year, rest as u16));
        }
        rest -= days;
    }
    None
}

// The month that a day of a year lies in, and the days of that month before it. The days of the year before it are below its length.
fn month_of_year(leap_year: bool, before: u16) -> Option<(u8, u8)>
    ensures { MatchOption result (days_in_months leap_year 12 ≤ before) (λ p. InMonth leap_year before p.0 p.1) }
{
    let mut rest = before;
    for month in 1..13u8 {
        let days = u16::from(days_of_month(leap_year, month));
        if rest < days {
            return Some((month, rest as u8));
        }
        rest -= days;
    }
    None
}

impl Date {
    // The date of a day, or none past 31 December 2099.
    pub fn of(day: u32) -> Option<Date>
        ensures value { MatchOption result (36524 < day) (λ d. date_day d.year d.month d.day ≡ Some day) }
        ensures only { OneDate }
    {
        let (year, before) = year_of(day)?;
        let (month, earlier) = month_of_year(is_leap(year), before)?;
        Some(Date {
            year,
            month,
            day: earlier + 1,
        })
    }
}

impl Month {
    // The month that a day is in, or none where it cannot be billed: in 2000, and past 2099.
    pub fn of_day(day: u32) -> Option<Month>
        ensures { MatchOption result ((day < 366) ⊎ (36524 < day)) (λ m. Within day m.year m.month) }
    {
        let date = Date::of(day)?;
        Month::new(u32::from(date.year), u32::from(date.month)).ok()
    }
}
