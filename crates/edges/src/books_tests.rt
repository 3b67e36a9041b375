// Calls at their limits, and bookings that are granted and refused.
use books::{Book, Call, Entry, OffPeakDay, is_off_peak};
use calendar::Refusal;
use std::test::Fail;

fn call_refusal(day: u32, kind: u32, start: u32, hours: u32) -> Option<Refusal> {
    Call::new(day, kind, start, hours).err()
}

#[test]
fn calls_start_from_4_to_22_and_end_by_24(rt: HostRuntime) {
    assert_eq!(rt; call_refusal(36_525, 3, 3, 1), Some(Refusal::DayOutOfRange));
    assert_eq!(rt;
        call_refusal(36_524, 3, 3, 1),
        Some(Refusal::UnknownCallKind)
    );
    assert_eq!(rt;
        call_refusal(36_524, 1, 3, 2),
        Some(Refusal::CallHoursOutOfRange)
    );
    assert_eq!(rt; call_refusal(36_524, 1, 4, 2), None);
    assert_eq!(rt; call_refusal(36_524, 2, 22, 2), None);
    assert_eq!(rt;
        call_refusal(36_524, 2, 23, 2),
        Some(Refusal::CallHoursOutOfRange)
    );
    assert_eq!(rt;
        call_refusal(9, 1, 10, 1),
        Some(Refusal::CallHoursOutOfRange)
    );
    assert_eq!(rt; call_refusal(9, 1, 10, 6), None);
    assert_eq!(rt;
        call_refusal(9, 1, 10, 7),
        Some(Refusal::CallHoursOutOfRange)
    );
    assert_eq!(rt;
        call_refusal(9, 1, 20, 5),
        Some(Refusal::CallHoursOutOfRange)
    );
}

#[test]
fn a_call_covers_its_quarter_hours(rt: HostRuntime) -> Result<(), Fail> {
    let call = Call::new(9, 2, 20, 4)?;
    assert_eq!(rt; call.covers(79), false);
    assert_eq!(rt; call.covers(80), true);
    assert_eq!(rt; call.covers(95), true);
    assert_eq!(rt; call.covers(96), false);
    assert_eq!(rt; call.key(), 74);
    Ok(())
}

#[test]
fn a_full_book_names_a_present_key_first(rt: HostRuntime) -> Result<(), Fail> {
    let first = OffPeakDay::new(5)?;
    let second = OffPeakDay::new(3)?;
    let third = OffPeakDay::new(4)?;
    let mut places = [first; 2];
    let mut book = Book::open(&mut places);
    assert_eq!(rt; book.add(first).err(), None);
    assert_eq!(rt; book.add(second).err(), None);
    assert_eq!(rt; book.add(first).err(), Some(Refusal::KeyAlreadyBooked));
    assert_eq!(rt; book.add(third).err(), Some(Refusal::BookFull));
    assert_eq!(rt; is_off_peak(book.entries(), 3), true);
    assert_eq!(rt; is_off_peak(book.entries(), 4), false);
    Ok(())
}

#[test]
fn the_order_of_bookings_does_not_matter(rt: HostRuntime) -> Result<(), Fail> {
    let a = OffPeakDay::new(7)?;
    let b = OffPeakDay::new(8)?;
    let c = OffPeakDay::new(9)?;
    let mut left = [a; 3];
    let mut right = [a; 3];
    let mut one = Book::open(&mut left);
    let mut other = Book::open(&mut right);
    one.add(a)?;
    one.add(b)?;
    one.add(c)?;
    other.add(c)?;
    other.add(a)?;
    other.add(b)?;
    assert_eq!(rt; one.entries().len(), 3);
    for (x, y) in one.entries().iter().zip(other.entries()) {
        assert_eq!(rt; x.day(), y.day());
    }
    Ok(())
}
