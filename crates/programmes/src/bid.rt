// The bid for peak reduction: calls of the programme are answered by a reduction below the five-day average.
ghost use Rattle.std.specs.Prelude.{◌≡◌, ◌≤◌};
ghost use Rattle.programmes.specs.Bids.{bid, basic_credit, basic_rate, call_baseline, call_earns, call_owes, is_missed, reduced};
ghost use Rattle.programmes.specs.Meterings.{site_of, demand_of};
ghost use Rattle.programmes.specs.BidLaws.{bid_laws, bid_bare};

use crate::average::{GRAINS_A_KW, quotient, slots_in, worth};
use crate::metered::Metered;
use crate::month_calls::{CallTotals, call_totals, length_not_taken, too_few_days};
use crate::part::Part;
use crate::programme::{BareProgramme, Programme};
use crate::site::{LEAD_DAYS, Site};
use crate::terms::BidTerms;
use books::{Call, CallKind};
use calendar::Refusal;

// The least regular capacity in kW, and the most hours of calls in a month.
const LEAST_CAPACITY: u32 = 100;

const MOST_HOURS: u32 = 36;

// A reduction below this, 20 kW in grains, counts as 0.
const LEAST_REDUCTION: u64 = 20 * GRAINS_A_KW;

// The least price in cents of what a missed call owes.
const LEAST_EXTRA_PRICE: u32 = 200;

#[derive(Clone, Copy, PartialEq, Eq, Debug)]
pub struct Bid {
    terms: BidTerms,
}

// What a call comes to: what it earns and owes, in units, and whether it was missed.
#[derive(Clone, Copy)]
struct Settled {
    earned: u64,
    owed: u64,
    missed: bool,
}

// The rate of the basic credit, in cents for each kW of the contract reduction.
fn basic_rate(totals: CallTotals) -> u32
    ensures value { result ≡ basic_rate totals.count totals.hours }
    ensures low { result ≤ 6000 }
{
    if totals.count == 0 {
        0
    } else if totals.hours < 16 {
        3_000
    } else {
        6_000
    }
}

// The basic credit in units.
fn basic_credit(reduction: u32, rate: u32, calls: u32, missed: u32) -> u64
    requires reduction { reduction ≤ 40000 }
    requires rate { rate ≤ 6000 }
    requires calls { calls ≤ 31 }
    ensures value { result ≡ basic_credit reduction rate calls missed }
    ensures bound { result ≤ 1152000000 }
{
    let whole = 4 * u64::from(reduction) * u64::from(rate);
    if missed == 0 {
        whole * 6 / 5
    } else {
        quotient(
            whole * u64::from(calls.saturating_sub(missed)),
            u64::from(calls),
        )
    }
}

// A call's baseline in grains: the five-day average of its slots. A metered site, a day and its call stand side by side here and in the layer: a value
// of the three would be taken apart again in each function, and in each of its clauses.
fn call_baseline(metered: &Metered<'_>, day: u8, call: Call) -> u64
    ensures value { result ≡ call_baseline (site_of metered.now) (demand_of metered.now) day call }
    ensures bound { result ≤ 48000000 }
{
    metered.five_day(&Part::Whole(call), day)
}

// A call's reduction in grains: its baseline less the average demand in its slots.
fn call_reduction(metered: &Metered<'_>, day: u8, call: Call) -> u64
    ensures value { result ≡ reduced (site_of metered.now) (demand_of metered.now) day call }
    ensures bound { result ≤ 48000000 }
{
    let average = metered.average_in(&Part::Whole(call), day);
    let below = call_baseline(metered, day, call).saturating_sub(average);
    if below < LEAST_REDUCTION { 0 } else { below }
}

impl Bid {
    // The bid of these terms.
    pub fn new(terms: BidTerms) -> Bid
        ensures { result.terms ≡ terms }
    {
        Bid { terms }
    }

    // What a call of a day comes to.
    fn settle_call(&self, metered: &Metered<'_>, day: u8, call: Call) -> Settled
        ensures earned { result.earned ≡ call_earns self.now.terms.price (site_of metered.now) (demand_of metered.now) day call }
        ensures owed { result.owed ≡ call_owes self.now.terms.reduction self.now.terms.price (site_of metered.now) (demand_of metered.now) day call }
        ensures missed { result.missed ≡ is_missed self.now.terms.reduction (reduced (site_of metered.now) (demand_of metered.now) day call) }
        ensures bounds { (result.earned ≤ 3840000000) × (result.owed ≤ 3840000000) }
    {
        let slots = slots_in(&Part::Whole(call));
        let contract = u64::from(self.terms.reduction()) * GRAINS_A_KW;
        let reduction = call_reduction(metered, day, call);
        let price = self.terms.price();
        Settled {
            earned: worth(reduction, slots, u64::from(price)),
            owed: worth(
                contract.saturating_sub(reduction),
                slots,
                u64::from(price.max(LEAST_EXTRA_PRICE)),
            ),
            missed: reduction < contract,
        }
    }
}

impl Programme for Bid {
    ghost meaning = { λ b. bid b.terms.reduction b.terms.price };

    ghost lawful = { λ b. bid_laws b.terms.reduction b.terms.price b.terms.reduction_to b.terms.price_to };

    fn takes(&self, kind: CallKind) -> bool {
        match kind {
            CallKind::Programme => true,
            CallKind::Flexible => false,
        }
    }

    fn refusal(&self, site: &Site<'_>) -> Option<Refusal> {
        if site.regular < LEAST_CAPACITY || site.regular < self.terms.reduction() {
            return Some(Refusal::BidBeyondCapacity);
        }
        if length_not_taken(site) {
            return Some(Refusal::CallLengthNotTaken);
        }
        if call_totals(site).hours > MOST_HOURS {
            return Some(Refusal::CalledHoursAboveLimit);
        }
        if too_few_days(site, CallKind::Programme) {
            return Some(Refusal::TooFewDaysToAverage);
        }
        None
    }

    fn own_call(&self, site: &Site<'_>, day: u8) -> Option<Call> {
        site.call(CallKind::Programme, day)
    }

    fn baseline(&self, metered: &Metered<'_>, day: u8) -> u64 {
        // No `map_or`: tried with the average and with `call_baseline` in the closure, and the proof learns nothing of what it returns.
        match metered.site.call(CallKind::Programme, day) {
            Some(call) => call_baseline(metered, day, call),
            None => 0,
        }
    }

    fn reduction(&self) -> u32 {
        self.terms.reduction()
    }

    fn price_past(&self) -> u32 {
        self.terms.price()
    }

    fn settle(&self, metered: &Metered<'_>) -> (u64, u64) {
        let site = &metered.site;
        // The days of `call_totals`, and another step: this one fills three sums, and needs the readings.
        let mut earned = 0;
        let mut owed = 0;
        let mut missed = 0;
        for day in LEAD_DAYS..site.end_day() {
            if let Some(call) = site.call(CallKind::Programme, day) {
                let settled = self.settle_call(metered, day, call);
                earned += settled.earned;
                owed += settled.owed;
                missed += u32::from(settled.missed);
            }
        }
        let totals = call_totals(site);
        let basic = basic_credit(
            self.terms.reduction(),
            basic_rate(totals),
            totals.count,
            missed,
        );
        (earned + basic, owed)
    }
}

impl BareProgramme for Bid {
    ghost bare = { λ b. bid_bare b.terms.reduction b.terms.price b.terms.reduction_to b.terms.price_to };
}
