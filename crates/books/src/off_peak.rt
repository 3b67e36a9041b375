// A day that is booked as off-peak, whatever its weekday. Only `OffPeakDay::new` and `OffPeakDay::first` make one.
ghost use Rattle.std.specs.Prelude.{◌≤◌};

mod methods;

pub use methods::{book_off_peak, is_off_peak};

#[derive(Clone, Copy)]
pub struct OffPeakDay {
    day: u32,
    ghost known: { day ≤ 36524 },
}
