// The site of a contract: its regular capacity, its month, and what is booked. Days are counted from the first of the lead, the
// 31 days before the month.
ghost use Rattle.std.specs.Prelude.{◌≡◌, ◌+◌, ◌≤◌};
ghost use Rattle.programmes.specs.Sites.{day_number, call_at, eligible};
ghost use Rattle.programmes.specs.SiteModels.{site_model};

use books::{Call, CallKind, OffPeakDay, call_on, is_off_peak};
use calendar::{DayKind, Month};

// The days of the lead.
pub const LEAD_DAYS: u8 = 31;

#[derive(Clone, Copy)]
pub struct Site<'a> {
    pub regular: u32,
    pub month: Month,
    pub off_peak: &'a [OffPeakDay],
    pub calls: &'a [Call],
}

impl Site<'_> {
    // The day right behind the month.
    pub(crate) fn end_day(&self) -> u8
        ensures value { result ≡ 31 + (site_model self.now).days }
        ensures short { result ≤ 62 }
    {
        LEAD_DAYS + self.month.days()
    }

    // The number of a day in the calendar.
    fn day_number(&self, day: u8) -> u32
        ensures { result ≡ day_number (site_model self.now) day }
    {
        (self.month.first_day() + u32::from(day)).saturating_sub(u32::from(LEAD_DAYS))
    }

    // The call of a kind on a day. Where nothing is called, no day's number is worked out.
    pub fn call(&self, kind: CallKind, day: u8) -> Option<Call>
        ensures { result ≡ call_at (site_model self.now) kind day }
    {
        if self.calls.is_empty() {
            return None;
        }
        call_on(self.calls, self.day_number(day), kind)
    }

    // Whether a day may be averaged: a working day without any booked call.
    pub fn is_eligible(&self, day: u8) -> bool
        ensures { result ≡ eligible (site_model self.now) day }
    {
        let number = self.day_number(day);
        DayKind::of(number, is_off_peak(self.off_peak, number)) == DayKind::Working
            && call_on(self.calls, number, CallKind::Programme).is_none()
            && call_on(self.calls, number, CallKind::Flexible).is_none()
    }
}
