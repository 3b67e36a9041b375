// The month's calls of a kind, read day by day: a day has one of them at most.
ghost use Rattle.std.specs.Prelude.{◌≡◌, ◌≤◌, not, ◌||◌, ◌==◌};
ghost use Rattle.programmes.specs.Averages.{some_too_few};
ghost use Rattle.programmes.specs.Bids.{some_length_not_taken, call_count, called_hours};
ghost use Rattle.programmes.specs.SiteModels.{site_model};

use crate::average::{DAYS_AVERAGED, days_averaged};
use crate::site::{LEAD_DAYS, Site};
use books::{Call, CallKind};

// Whether some call of a kind has fewer than five days to average. The walks over the month's calls stand at their uses, here and in the settlements: they
// test, count, or take a step that asks for a day of the month, and one walk given the step would need a clause for each.
pub(crate) fn too_few_days(site: &Site<'_>, kind: CallKind) -> bool
    ensures { result ≡ some_too_few (site_model site.now) kind }
{
    (LEAD_DAYS..site.end_day()).any(|day| {
        site.call(kind, day).is_some() && days_averaged(site, day) < DAYS_AVERAGED
    })
}

// Whether a call lasts neither two nor four hours.
fn is_length_not_taken(call: Call) -> bool
    ensures { result ≡ not (call.hours == 2 || call.hours == 4) }
{
    !matches!(call.hours(), 2 | 4)
}

// Whether some call of the programme lasts neither two nor four hours.
pub(crate) fn length_not_taken(site: &Site<'_>) -> bool
    ensures { result ≡ some_length_not_taken (site_model site.now) }
{
    (LEAD_DAYS..site.end_day()).any(|day| {
        site.call(CallKind::Programme, day)
            .is_some_and(is_length_not_taken)
    })
}

// The calls of the programme, and the hours that they last in all.
#[derive(Clone, Copy)]
pub(crate) struct CallTotals {
    pub count: u32,
    pub hours: u32,
}

pub(crate) fn call_totals(site: &Site<'_>) -> CallTotals
    ensures count { result.count ≡ call_count (site_model site.now) }
    ensures hours { result.hours ≡ called_hours (site_model site.now) }
    ensures few { result.count ≤ 31 }
{
    let mut count = 0;
    let mut hours = 0;
    for day in LEAD_DAYS..site.end_day() {
        if let Some(call) = site.call(CallKind::Programme, day) {
            count += 1;
            hours += u32::from(call.hours());
        }
    }
    CallTotals { count, hours }
}
