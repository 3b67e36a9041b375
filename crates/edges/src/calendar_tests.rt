// The calendar at its edges.
use calendar::{Date, DayKind, Month, Refusal, Season, Weekday, day_number};
use std::test::Fail;

fn month(year: u32, month: u32) -> Result<Month, Fail> {
    Ok(Month::new(year, month)?)
}

#[test]
fn months_are_granted_from_2001_to_2099(rt: HostRuntime) -> Result<(), Fail> {
    assert_eq!(rt; Month::new(2000, 12).err(), Some(Refusal::YearOutOfRange));
    assert_eq!(rt; Month::new(2100, 1).err(), Some(Refusal::YearOutOfRange));
    assert_eq!(rt; Month::new(2000, 13).err(), Some(Refusal::YearOutOfRange));
    assert_eq!(rt; Month::new(2024, 0).err(), Some(Refusal::MonthOutOfRange));
    assert_eq!(rt; Month::new(2024, 13).err(), Some(Refusal::MonthOutOfRange));
    assert_eq!(rt; month(2001, 1)?.first_day(), 366);
    assert_eq!(rt; month(2099, 12)?.first_day(), 36_494);
    Ok(())
}

#[test]
fn february_has_29_days_in_leap_years(rt: HostRuntime) -> Result<(), Fail> {
    assert_eq!(rt; month(2023, 2)?.days(), 28);
    assert_eq!(rt; month(2024, 2)?.days(), 29);
    assert_eq!(rt; month(2024, 2)?.first_day(), 8_797);
    assert_eq!(rt; month(2024, 3)?.first_day(), 8_826);
    assert_eq!(rt; day_number(2000, 2, 29), Some(59));
    assert_eq!(rt; day_number(2023, 2, 29), None);
    assert_eq!(rt; day_number(2099, 12, 31), Some(36_524));
    assert_eq!(rt; day_number(2100, 1, 1), None);
    Ok(())
}

#[test]
fn days_have_weekdays_and_dates(rt: HostRuntime) {
    assert_eq!(rt; Weekday::of(0), Weekday::Saturday);
    assert_eq!(rt; Weekday::of(8_948), Weekday::Monday);
    assert_eq!(rt; DayKind::of(8_948, false), DayKind::Working);
    assert_eq!(rt; DayKind::of(8_948, true), DayKind::OffPeak);
    assert_eq!(rt; DayKind::of(8_953, false), DayKind::Saturday);
    let monday = Date {
        year: 2024,
        month: 7,
        day: 1,
    };
    assert_eq!(rt; Date::of(8_948), Some(monday));
    assert_eq!(rt; Date::of(36_525), None);
}

#[test]
fn summer_is_june_to_september(rt: HostRuntime) -> Result<(), Fail> {
    assert_eq!(rt; month(2024, 5)?.season(), Season::OtherMonths);
    assert_eq!(rt; month(2024, 6)?.season(), Season::Summer);
    assert_eq!(rt; month(2024, 9)?.season(), Season::Summer);
    assert_eq!(rt; month(2024, 10)?.season(), Season::OtherMonths);
    Ok(())
}
