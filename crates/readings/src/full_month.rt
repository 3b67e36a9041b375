// A month with a reading in each slot. Only `FullMonth::new` makes one.
ghost use Rattle.std.specs.Prelude.{◌≡◌, true, false, MatchResult};
ghost use Rattle.calendar.specs.declared.refusal.Refusal.TheVariants.{MonthNotFull};
ghost use Rattle.readings.specs.FullMonths.{is_full};

use crate::sheet::{SLOTS_A_DAY, any_above};
use calendar::{Month, Refusal};

#[derive(Clone, Copy)]
pub struct FullMonth<'a> {
    month: Month,
    readings: &'a [u32],
    ghost full: { is_full month.year month.month readings.now ≡ true },
}

impl<'a> FullMonth<'a> {
    // These readings of a month, refused where they are not one for each slot, or one is above the highest.
    pub fn new(month: Month, readings: &'a [u32]) -> Result<FullMonth<'a>, Refusal>
        ensures { MatchResult result (λ f. (f.month ≡ month) × (f.readings.now ≡ readings.now)) (λ e. (is_full month.year month.month readings.now ≡ false) × (e ≡ MonthNotFull)) }
    {
        if readings.len() != SLOTS_A_DAY * usize::from(month.days()) || any_above(readings) {
            return Err(Refusal::MonthNotFull);
        }
        Ok(FullMonth { month, readings })
    }

    // The month.
    pub fn month(&self) -> Month
        ensures { result ≡ self.now.month }
    {
        self.month
    }

    // Its readings.
    pub fn readings(&self) -> &'a [u32]
        ensures { result.now ≡ self.now.readings.now }
    {
        self.readings
    }
}
