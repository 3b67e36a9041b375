// How an off-peak day is made, and whether a day is among those that are booked.
ghost use Rattle.std.specs.Prelude.{◌≡◌, false, length, is_ok};
ghost use Rattle.calendar.specs.Judging.{Judged};
ghost use Rattle.books.specs.BookModels.{KeepsStorage, book_entries, book_storage};
ghost use Rattle.books.specs.OffPeak.{off_peak_refusal, off_peak_key, off_peak_among, off_peak_answer, after_off_peak};

use super::OffPeakDay;
use crate::book::{Book, Entry, find_among};
use calendar::date::LAST_DAY;
use calendar::refusal::Refusal;

impl OffPeakDay {
    // This day as an off-peak day.
    pub fn new(day: u32) -> Result<OffPeakDay, Refusal>
        ensures { Judged result (off_peak_refusal day) (λ d. d.day ≡ day) }
    {
        if day > LAST_DAY {
            return Err(Refusal::DayOutOfRange);
        }
        Ok(OffPeakDay { day })
    }

    // The first day of the calendar, to fill a book's places with.
    pub fn first() -> OffPeakDay
        ensures { result.day ≡ 0 }
    {
        OffPeakDay { day: 0 }
    }

    // Its day.
    pub fn day(&self) -> u32
        ensures { result ≡ self.now.day }
    {
        self.day
    }
}

// An off-peak day is booked under its day.
impl Entry for OffPeakDay {
    ghost keyed = { off_peak_key };

    fn key(&self) -> u32 {
        OffPeakDay::day(self)
    }
}

// Whether a day is one of these.
pub fn is_off_peak(days: &[OffPeakDay], day: u32) -> bool
    ensures { result ≡ off_peak_among days.now day }
{
    find_among(days, day).is_some()
}

// Books a day as off-peak. Refused, the book and its storage are as they were.
pub fn book_off_peak(book: &mut Book<'_, OffPeakDay>, day: u32) -> Result<(), Refusal>
    ensures answer { result ≡ off_peak_answer (book_entries book.old) (length (book_storage book.old)) day }
    ensures after { book_entries book.new ≡ after_off_peak (book_entries book.old) (length (book_storage book.old)) day }
    ensures refused { is_ok result ≡ false → book_storage book.new ≡ book_storage book.old }
    ensures storage { KeepsStorage book.old book.new }
{
    let entry = OffPeakDay::new(day)?;
    book.add(entry)
}
