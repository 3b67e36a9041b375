// A month that can be billed, January 2001 to December 2099. Only `Month::new` makes one.
ghost use Rattle.std.specs.Prelude.{◌≤◌};

mod methods;

pub(crate) use methods::{days_before_month, days_before_year, days_of_month, is_leap};

#[derive(Clone, Copy)]
pub struct Month {
    year: u16,
    month: u8,
    ghost year_from: { 2001 ≤ year },
    ghost year_to: { year ≤ 2099 },
    ghost month_from: { 1 ≤ month },
    ghost month_to: { month ≤ 12 },
}
