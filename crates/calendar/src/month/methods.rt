// What a month answers: its first day, its length, its season.
ghost use Rattle.std.specs.Prelude.{◌≡◌, ◌-◌, ◌^◌, ◌<◌, ◌≤◌};
ghost use Rattle.calendar.specs.CalendarLaws.{Abuts};
ghost use Rattle.calendar.specs.Judging.{Judged};
ghost use Rattle.calendar.specs.Gregorian.{leap, month_length, days_in_years, days_in_months, first_day_of, length_of, season_of, month_refusal};

use super::Month;
use crate::refusal::Refusal;
use crate::season::Season;

// The Gregorian leap years.
pub(crate) fn is_leap(year: u16) -> bool
    ensures { result ≡ leap year }
{
    year % 4 == 0 && (year % 100 != 0 || year % 400 == 0)
}

// The days of a month.
pub(crate) fn days_of_month(leap_year: bool, month: u8) -> u8
    ensures value { result ≡ month_length leap_year month }
    ensures short { result ≤ 31 }
{
    match month {
        2 => { if leap_year { 29 } else { 28 } }
        4 | 6 | 9 | 11 => 30,
        _ => 31,
    }
}

// The days of the years from 2000 to the one before this.
pub(crate) fn days_before_year(year: u16) -> u32
    requires from { 2000 ≤ year }
    requires to { year ≤ 2100 }
    ensures value { result ≡ days_in_years (year - 2000) }
    ensures small { result ≤ 36525 }
{
    let years = u32::from(year - 2000);
    365 * years + (years + 3) / 4
}

// The days of the months of a year before this one.
pub(crate) fn days_before_month(leap_year: bool, month: u8) -> u16
    requires from { 1 ≤ month }
    requires to { month ≤ 12 }
    ensures value { result ≡ days_in_months leap_year (month - 1) }
    ensures small { result ≤ 366 }
{
    let mut days: u16 = 0;
    for earlier in 1..month {
        days += u16::from(days_of_month(leap_year, earlier));
    }
    days
}

impl Month {
    // The month with this number, 1 to 12, of this year.
    pub fn new(year: u32, month: u32) -> Result<Month, Refusal>
        ensures { Judged result (month_refusal year month) (λ m. (m.year ≡ year) × (m.month ≡ month)) }
    {
        if year < 2001 || year > 2099 {
            return Err(Refusal::YearOutOfRange);
        }
        if month < 1 || month > 12 {
            return Err(Refusal::MonthOutOfRange);
        }
        Ok(Month {
            year: year as u16,
            month: month as u8,
        })
    }

    // The day on which this month begins.
    pub fn first_day(&self) -> u32
        ensures value { result ≡ first_day_of self.now.year self.now.month }
        ensures small { result < 2 ^ 16 }
        ensures abuts { Abuts self.now.year self.now.month }
    {
        days_before_year(self.year) + u32::from(days_before_month(is_leap(self.year), self.month))
    }

    // How many days this month has.
    pub fn days(&self) -> u8
        ensures value { result ≡ length_of self.now.year self.now.month }
        ensures short { result ≤ 31 }
    {
        days_of_month(is_leap(self.year), self.month)
    }

    // The season of this month.
    pub fn season(&self) -> Season
        ensures { result ≡ season_of self.now.month }
    {
        if self.month >= 6 && self.month <= 9 {
            Season::Summer
        } else {
            Season::OtherMonths
        }
    }
}
