// How a metered site is made, and what it holds of a day.
ghost use Rattle.std.specs.Prelude.{◌≡◌, ◌+◌, ◌<◌, ◌≤◌, MatchOption};
ghost use Rattle.calendar.specs.Judging.{Judged};
ghost use Rattle.programmes.specs.Meterings.{site_of, demand_of, metering_refusal, IsDayAmong, IsMetered, ReadsDay};

use super::Metered;
use crate::site::{LEAD_DAYS, Site};
use calendar::Refusal;
use readings::{FullMonth, SLOTS_A_DAY, any_above};

// The readings of a lead.
const LEAD_READINGS: usize = SLOTS_A_DAY * LEAD_DAYS as usize;

// The 96 readings of a day among those from day 0 on, found by their place: `nth` of a chain of chunks was tried, and steps through the days before it.
fn day_among(readings: &[u32], day: u8) -> Option<&[u32]>
    ensures { IsDayAmong readings.now day result }
{
    let at = SLOTS_A_DAY * usize::from(day);
    readings.get(at..at + SLOTS_A_DAY)
}

impl<'a> Metered<'a> {
    // A site with these readings of its lead and of its month.
    pub fn new(site: Site<'a>, lead: &'a [u32], readings: &'a [u32]) -> Result<Metered<'a>, Refusal>
        ensures { Judged result (metering_refusal site.entry lead.now readings.now) (λ m. IsMetered m site.entry lead.now readings.now) }
    {
        let month = FullMonth::new(site.month, readings)?;
        if lead.len() != LEAD_READINGS || any_above(lead) {
            return Err(Refusal::LeadNotUsable);
        }
        let readings = month.readings();
        Ok(Metered {
            site,
            lead,
            readings,
        })
    }

    // The site.
    pub fn site(&self) -> Site<'a>
        ensures { result ≡ self.now.site }
    {
        self.site
    }

    // The 96 readings of a day of the lead or the month, where they stand; none of another day.
    pub fn day_readings(&self, day: u8) -> Option<&'a [u32]>
        ensures { MatchOption result (31 + (site_of self.now).days ≤ day) (λ r. (day < 31 + (site_of self.now).days) × ReadsDay r.now (demand_of self.now day)) }
    {
        match day.checked_sub(LEAD_DAYS) {
            Some(of_month) => day_among(self.readings, of_month),
            None => day_among(self.lead, day),
        }
    }
}
