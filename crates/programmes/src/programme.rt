// What every programme answers. A programme means a value, its answers as a record, and code above it rests on the laws of that
// value alone. Days are counted from the first of the lead, so the month begins with day 31.
ghost use Rattle.std.specs.Prelude.{◌≡◌, None};
ghost use Rattle.programmes.specs.Meanings.{ProgrammeMeaning, ProgrammeLaws, BareLaws};
ghost use Rattle.programmes.specs.Meterings.{site_of, demand_of};
ghost use Rattle.programmes.specs.SiteModels.{site_model};

use crate::metered::Metered;
use crate::site::Site;
use books::{Call, CallKind};
use calendar::Refusal;

pub trait Programme {
    ghost meaning: { Self → ProgrammeMeaning };

    // Whether it takes calls of a kind.
    fn takes(&self, kind: CallKind) -> bool
        ensures { result ≡ (meaning self.now).takes kind };

    // Why it refuses a site, if it does.
    fn refusal(&self, site: &Site<'_>) -> Option<Refusal>
        ensures { result ≡ (meaning self.now).refusal (site_model site.now) };

    // Its own call of a day.
    fn own_call(&self, site: &Site<'_>, day: u8) -> Option<Call>
        ensures { result ≡ (meaning self.now).own_call (site_model site.now) day };

    // The baseline of its own call of a day, in grains; 0 without one.
    fn baseline(&self, metered: &Metered<'_>, day: u8) -> u64
        ensures { result ≡ (meaning self.now).baseline (site_of metered.now) (demand_of metered.now) day };

    // Its contract reduction K, in kW.
    fn reduction(&self) -> u32
        ensures { result ≡ (meaning self.now).reduction };

    // Its price past K, in cents.
    fn price_past(&self) -> u32
        ensures { result ≡ (meaning self.now).price_past };

    // Its credit and its extra for the month of a site that it does not refuse, in units. That is a fact about a programme and a site together: a type for
    // it would be generic in the programme, and be made anew beneath each layer.
    fn settle(&self, metered: &Metered<'_>) -> (u64, u64)
        requires granted { (meaning self.now).refusal (site_of metered.now) ≡ None }
        ensures credit { result.0 ≡ (meaning self.now).credit (site_of metered.now) (demand_of metered.now) }
        ensures extra { result.1 ≡ (meaning self.now).extra (site_of metered.now) (demand_of metered.now) };

    ghost lawful: { (p : Self) → ProgrammeLaws (meaning p) };
}

// A programme over which a layer may stand.
pub trait BareProgramme: Programme {
    ghost bare: { (p : Self) → BareLaws (Self.Programme.meaning p) };
}
