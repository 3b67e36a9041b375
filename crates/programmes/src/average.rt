// Average demand in grains, and what a reduction of it is worth.
ghost use Rattle.std.specs.Prelude.{◌≡◌, ◌*◌, ◌^◌, ◌/◌, ◌≤◌, length, sum_by, slice_index};
ghost use Rattle.programmes.specs.Averages.{kw_in, slots_in, average_in, averaged, five_day, worth};
ghost use Rattle.programmes.specs.Parts.{holds};
ghost use Rattle.programmes.specs.Meterings.{site_of, demand_of};
ghost use Rattle.programmes.specs.SiteModels.{site_model};

use crate::metered::Metered;
use crate::part::Part;
use crate::site::Site;

// Grains in a kW.
pub const GRAINS_A_KW: u64 = 1_200;

// How many days an average is over.
pub(crate) const DAYS_AVERAGED: usize = 5;

// The sum in kW of a day's readings in a part.
fn kw_in(part: &Part, day: &[u32]) -> u64
    ensures value { result ≡ kw_in (holds part.now) (λ slot. slice_index day.now slot) }
    ensures bound { result ≤ 96 * 2 ^ 32 }
{
    let first = part.first_slot();
    (first..part.end_slot())
        .zip(day.get(usize::from(first)..).unwrap_or(&[]))
        .filter(|(slot, _)| part.holds(*slot))
        .map(|(_, kw)| u64::from(*kw))
        .sum()
}

// How many slots a part has.
pub(crate) fn slots_in(part: &Part) -> u64
    ensures value { result ≡ slots_in (holds part.now) }
    ensures few { result ≤ 96 }
{
    (part.first_slot()..part.end_slot())
        .filter(|slot| part.holds(*slot))
        .count() as u64
}

// A quotient without its fraction; over nothing it counts as 0.
pub(crate) fn quotient(amount: u64, over: u64) -> u64
    ensures { result ≡ amount / over }
{
    amount.checked_div(over).unwrap_or(0)
}

// How many days are averaged for a day: the five latest before it that may be averaged, or fewer where there are no more.
pub(crate) fn days_averaged(site: &Site<'_>, day: u8) -> usize
    ensures { result ≡ length (averaged (site_model site.now) day) }
{
    (0..day)
        .rev()
        .filter(|day| site.is_eligible(*day))
        .take(DAYS_AVERAGED)
        .count()
}

impl Metered<'_> {
    // The sum in kW of a day's readings in a part.
    fn kw_on(&self, part: &Part, day: u8) -> u64
        ensures value { result ≡ kw_in (holds part.now) (demand_of self.now day) }
        ensures bound { result ≤ 96 * 2 ^ 32 }
    {
        kw_in(part, self.day_readings(day).unwrap_or(&[]))
    }

    // The sum of those, over the days averaged for a day. The chain of these days stands here and in `days_averaged`: its type has no name to hand it out by.
    fn averaged_kw(&self, part: &Part, day: u8) -> u64
        ensures value { result ≡ sum_by (λ e. kw_in (holds part.now) (demand_of self.now e)) (averaged (site_of self.now) day) }
        ensures bound { result ≤ 19200000 }
    {
        (0..day)
            .rev()
            .filter(|earlier| self.site.is_eligible(*earlier))
            .take(DAYS_AVERAGED)
            .map(|earlier| self.kw_on(part, earlier))
            .sum()
    }

    // The five-day average of a part for a day, in grains. Its bound, and those of what is made of it, are clauses: in a type for grains each sum
    // and each difference of them would have to be made anew, with the same bounds to show.
    pub(crate) fn five_day(&self, part: &Part, day: u8) -> u64
        ensures value { result ≡ five_day (site_of self.now) (demand_of self.now) (holds part.now) day }
        ensures bound { result ≤ 48000000 }
    {
        let kw = self.averaged_kw(part, day);
        quotient(kw * GRAINS_A_KW, DAYS_AVERAGED as u64 * slots_in(part))
    }

    // The average demand of a day in a part, in grains.
    pub(crate) fn average_in(&self, part: &Part, day: u8) -> u64
        ensures { result ≡ average_in (holds part.now) (demand_of self.now day) }
    {
        let kw = self.kw_on(part, day);
        quotient(kw * GRAINS_A_KW, slots_in(part))
    }
}

// What grains over so many slots come to at a price in cents.
pub(crate) fn worth(grains: u64, slots: u64, cents: u64) -> u64
    requires grains { grains ≤ 48000000 }
    requires slots { slots ≤ 96 }
    requires cents { cents ≤ 1000 }
    ensures value { result ≡ worth grains slots cents }
    ensures bound { result ≤ 3840000000 }
{
    grains * slots * cents / GRAINS_A_KW
}
