#![tactic(auto)]

// Prints every day of the calendar, a line each: its date, its weekday, and the season of its month (none in 2000). Its stored
// output is another implementation's.
use calendar::{Date, Month, Season, Weekday};
use std::io;
use std::io::Write;

// Three letters are this program's format: a `Display` of the library would have to choose one for every caller. So with the seasons.
fn weekday_name(day: u32) -> &'static str {
    match Weekday::of(day) {
        Weekday::Monday => "Mon",
        Weekday::Tuesday => "Tue",
        Weekday::Wednesday => "Wed",
        Weekday::Thursday => "Thu",
        Weekday::Friday => "Fri",
        Weekday::Saturday => "Sat",
        Weekday::Sunday => "Sun",
    }
}

fn season_name(day: u32) -> &'static str {
    match Month::of_day(day) {
        Some(month) => match month.season() {
            Season::Summer => "summer",
            Season::OtherMonths => "other",
        },
        None => "none",
    }
}

fn main(rt: HostRuntime) -> io::Result<()> {
    for day in 0..36_525u32 {
        if let Some(date) = Date::of(day) {
            let year = date.year;
            let month = date.month;
            let number = date.day;
            let weekday = weekday_name(day);
            let season = season_name(day);
            println!(rt; "{day} {year}-{month:02}-{number:02} {weekday} {season}")?;
        }
    }
    Ok(())
}
