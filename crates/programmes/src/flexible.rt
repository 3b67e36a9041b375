// The flexible layer: calls of its own kind, over any bare programme. A layer is no bare programme, so that none stands over another.
ghost use Rattle.std.specs.Prelude.{◌≡◌, ◌+◌, ◌<◌, ◌≤◌, None};
ghost use Rattle.programmes.specs.Layers.{flexible, shared_credit, apart_credit, flexible_adds};
ghost use Rattle.programmes.specs.Meterings.{site_of, demand_of};
ghost use Rattle.programmes.specs.LayerLaws.{flexible_laws};

use crate::average::{GRAINS_A_KW, slots_in, worth};
use crate::metered::Metered;
use crate::month_calls::too_few_days;
use crate::part::Part;
use crate::programme::{BareProgramme, Programme};
use crate::site::{LEAD_DAYS, Site};
use books::{Call, CallKind};
use calendar::Refusal;

// The price past K of the layer, in cents.
const PRICE: u32 = 1_000;

#[derive(Clone, Copy, PartialEq, Eq, Debug)]
pub struct Flexible<P> {
    lower: P,
}

impl<P: BareProgramme> Flexible<P> {
    // The layer over a programme.
    pub fn new(lower: P) -> Flexible<P>
        ensures { result.lower ≡ lower }
    {
        Flexible { lower }
    }

    // What a call adds in the slots that it shares with the lower programme's own call of the day. Its bound rests on the lower one's law, which is about days
    // of the month.
    fn shared_credit(&self, metered: &Metered<'_>, day: u8, call: Call) -> u64
        requires granted { (P.Programme.meaning self.now.lower).refusal (site_of metered.now) ≡ None }
        requires from { 31 ≤ day }
        requires within { day < 31 + (site_of metered.now).days }
        ensures value { result ≡ shared_credit (P.Programme.meaning self.now.lower) (site_of metered.now) (demand_of metered.now) day call }
        ensures bound { result ≤ 3840000000 }
    {
        let part = Part::Shared(call, self.lower.own_call(&metered.site, day));
        let contract = u64::from(self.lower.reduction()) * GRAINS_A_KW;
        let average = metered.average_in(&part, day);
        let reduction = self.lower.baseline(metered, day).saturating_sub(average);
        let price = PRICE.saturating_sub(self.lower.price_past());
        worth(
            reduction.saturating_sub(contract),
            slots_in(&part),
            u64::from(price),
        )
    }

    // What it adds in its other slots.
    fn apart_credit(&self, metered: &Metered<'_>, day: u8, call: Call) -> u64
        ensures value { result ≡ apart_credit (P.Programme.meaning self.now.lower) (site_of metered.now) (demand_of metered.now) day call }
        ensures bound { result ≤ 3840000000 }
    {
        let part = Part::Apart(call, self.lower.own_call(&metered.site, day));
        let average = metered.average_in(&part, day);
        let reduction = metered.five_day(&part, day).saturating_sub(average);
        worth(reduction, slots_in(&part), u64::from(PRICE))
    }

    // What a call adds to the credit.
    fn added(&self, metered: &Metered<'_>, day: u8, call: Call) -> u64
        requires granted { (P.Programme.meaning self.now.lower).refusal (site_of metered.now) ≡ None }
        requires from { 31 ≤ day }
        requires within { day < 31 + (site_of metered.now).days }
        ensures value { result ≡ flexible_adds (P.Programme.meaning self.now.lower) (site_of metered.now) (demand_of metered.now) day call }
        ensures bound { result ≤ 7680000000 }
    {
        self.shared_credit(metered, day, call) + self.apart_credit(metered, day, call)
    }
}

impl<P: BareProgramme> Programme for Flexible<P> {
    ghost meaning = { λ f. flexible (P.Programme.meaning f.lower) };

    ghost lawful = { λ f. flexible_laws (P.Programme.meaning f.lower) (P.Programme.lawful f.lower) (P.BareProgramme.bare f.lower) };

    fn takes(&self, kind: CallKind) -> bool {
        match kind {
            CallKind::Programme => self.lower.takes(kind),
            CallKind::Flexible => true,
        }
    }

    fn refusal(&self, site: &Site<'_>) -> Option<Refusal> {
        // The layer's own is worked out only where the lower one refuses nothing. No `or_else`: tried, and the proof learns nothing of what its closure returns.
        match self.lower.refusal(site) {
            None => too_few_days(site, CallKind::Flexible).then_some(Refusal::TooFewDaysToAverage),
            refused => refused,
        }
    }

    fn own_call(&self, site: &Site<'_>, day: u8) -> Option<Call> {
        self.lower.own_call(site, day)
    }

    fn baseline(&self, metered: &Metered<'_>, day: u8) -> u64 {
        self.lower.baseline(metered, day)
    }

    fn reduction(&self) -> u32 {
        self.lower.reduction()
    }

    fn price_past(&self) -> u32 {
        PRICE
    }

    fn settle(&self, metered: &Metered<'_>) -> (u64, u64) {
        let (credit, extra) = self.lower.settle(metered);
        let site = &metered.site;
        // A `for`: the step asks for a day of the month, which a closure in a chain would not know of its day.
        let mut added = 0;
        for day in LEAD_DAYS..site.end_day() {
            if let Some(call) = site.call(CallKind::Flexible, day) {
                added += self.added(metered, day, call);
            }
        }
        (credit + added, extra)
    }
}
