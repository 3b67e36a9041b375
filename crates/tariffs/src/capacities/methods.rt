// How capacities are made, and what they say.
ghost use Rattle.std.specs.Prelude.{◌≡◌};
ghost use Rattle.calendar.specs.Judging.{Judged};
ghost use Rattle.tariffs.specs.Capacities.{AreCapacities, capacities_refusal, stacked, beyond_half};

use super::Capacities;
use crate::rank::ByRank;
use calendar::Refusal;

// The most kW that the four may have in all.
const LIMIT: u64 = 40_000;

impl Capacities {
    // The four capacities: regular, semi-peak (non-summer under L2), Saturday semi-peak and off-peak.
    pub fn new(
        regular: u32,
        semi_peak: u32,
        saturday: u32,
        off_peak: u32,
    ) -> Result<Capacities, Refusal>
        ensures { Judged result (capacities_refusal regular semi_peak saturday off_peak) (λ c. AreCapacities c regular semi_peak saturday off_peak) }
    {
        if regular == 0 {
            return Err(Refusal::NoRegularCapacity);
        }
        let sum = u64::from(regular)
            + u64::from(semi_peak)
            + u64::from(saturday)
            + u64::from(off_peak);
        if sum > LIMIT {
            return Err(Refusal::CapacityAboveLimit);
        }
        Ok(Capacities {
            regular,
            semi_peak,
            saturday,
            off_peak,
        })
    }

    // The regular capacity.
    pub fn regular(&self) -> u32
        ensures { result ≡ self.now.regular }
    {
        self.regular
    }

    // The semi-peak capacity, non-summer under L2.
    pub(crate) fn semi_peak(&self) -> u32
        ensures { result ≡ self.now.semi_peak }
    {
        self.semi_peak
    }

    // What each rank may draw: its own capacity and those of the ranks before it.
    pub(crate) fn stacked(&self) -> ByRank
        ensures { result ≡ stacked self.now }
    {
        let peak = self.regular;
        let semi_peak = peak + self.semi_peak;
        let saturday = semi_peak + self.saturday;
        ByRank {
            peak,
            semi_peak,
            saturday,
            off_peak: saturday + self.off_peak,
        }
    }

    // What Saturday and off-peak capacity have beyond half of the regular and semi-peak capacity, in half kW.
    pub(crate) fn beyond_half(&self) -> u32
        ensures { result ≡ beyond_half self.now }
    {
        (2 * (self.saturday + self.off_peak)).saturating_sub(self.regular + self.semi_peak)
    }
}
