// How a call is made, what it says, and which slots it covers.
ghost use Rattle.std.specs.Prelude.{◌≡◌};
ghost use Rattle.calendar.specs.Judging.{Judged};
ghost use Rattle.books.specs.Calls.{IsCall, KindOf, call_refusal, kind_number, call_key, first_slot, end_slot, covers, call_of_day};

use super::{Call, CallKind};
use crate::book::{Entry, find_among};
use calendar::date::LAST_DAY;
use calendar::refusal::Refusal;

// Quarter hours in an hour.
const SLOTS_AN_HOUR: u8 = 4;

impl CallKind {
    // The number of a kind: 1 for the programme, 2 for the flexible layer.
    pub fn number(&self) -> u32
        ensures { result ≡ kind_number self.now }
    {
        *self as u32
    }
}

// The kind of a number.
impl TryFrom<u32> for CallKind {
    type Error = Refusal;

    ghost try_from_gives = { KindOf };

    fn try_from(number: u32) -> Result<CallKind, Refusal> {
        match number {
            1 => Ok(CallKind::Programme),
            2 => Ok(CallKind::Flexible),
            _ => Err(Refusal::UnknownCallKind),
        }
    }
}

impl Call {
    // The call on this day, of this kind, from this hour on for so many hours. The kind arrives as the number that says it, and is judged in its turn.
    pub fn new(day: u32, kind: u32, start: u32, hours: u32) -> Result<Call, Refusal>
        ensures { Judged result (call_refusal day kind start hours) (λ c. IsCall c day kind start hours) }
    {
        if day > LAST_DAY {
            return Err(Refusal::DayOutOfRange);
        }
        let kind = CallKind::try_from(kind)?;
        if start < 4 || start > 22 || hours < 2 || hours > 6 || start + hours > 24 {
            return Err(Refusal::CallHoursOutOfRange);
        }
        Ok(Call {
            day,
            kind,
            start: start as u8,
            hours: hours as u8,
        })
    }

    // Its day.
    pub fn day(&self) -> u32
        ensures { result ≡ self.now.day }
    {
        self.day
    }

    // Its kind.
    pub fn kind(&self) -> CallKind
        ensures { result ≡ self.now.kind }
    {
        self.kind
    }

    // Its length in hours.
    pub fn hours(&self) -> u8
        ensures { result ≡ self.now.hours }
    {
        self.hours
    }

    // The first of its slots.
    pub fn first_slot(&self) -> u8
        ensures { result ≡ first_slot self.now }
    {
        SLOTS_AN_HOUR * self.start
    }

    // The slot behind its last.
    pub fn end_slot(&self) -> u8
        ensures { result ≡ end_slot self.now }
    {
        SLOTS_AN_HOUR * (self.start + self.hours)
    }

    // Whether a slot of its day is one of its slots.
    pub fn covers(&self, slot: u8) -> bool
        ensures { result ≡ covers self.now slot }
    {
        self.first_slot() <= slot && slot < self.end_slot()
    }
}

// A call is booked under its day and kind.
impl Entry for Call {
    ghost keyed = { call_key };

    fn key(&self) -> u32 {
        8 * self.day + self.kind.number()
    }
}

// The call of this kind on a day, if one of these is.
pub fn call_on(calls: &[Call], day: u32, kind: CallKind) -> Option<Call>
    ensures { result ≡ call_of_day calls.now day kind }
{
    if day > LAST_DAY {
        return None;
    }
    find_among(calls, 8 * day + kind.number())
}
