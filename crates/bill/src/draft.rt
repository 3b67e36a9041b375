// The draft of a bill, as a quote gives it.
ghost use Rattle.std.specs.Prelude.{◌≡◌};

use crate::issued::Issued;
use crate::items::Items;
use readings::MeterCode;

// A quoted bill. Issuing uses it up.
#[derive(Drop)]
pub struct Draft {
    code: MeterCode,
    items: Items,
}

impl Draft {
    // The draft with these lines for this meter.
    pub(crate) fn new(code: MeterCode, items: Items) -> Draft
        ensures code { result.code ≡ code }
        ensures items { result.items ≡ items }
    {
        Draft { code, items }
    }

    // The code of the meter.
    pub fn code(&self) -> MeterCode
        ensures { result ≡ self.now.code }
    {
        self.code
    }

    // The lines of the bill.
    pub fn items(&self) -> Items
        ensures { result ≡ self.now.items }
    {
        self.items
    }

    // The bill, issued under this serial.
    pub fn issue(self, serial: u32) -> Issued
        ensures serial { result.serial ≡ serial }
        ensures draft { result.draft ≡ self }
    {
        Issued::of(self, serial)
    }
}
