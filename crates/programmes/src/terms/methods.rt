// How a bid's terms are made, and what they say.
ghost use Rattle.std.specs.Prelude.{◌≡◌, ◌≤◌};
ghost use Rattle.calendar.specs.Judging.{Judged};
ghost use Rattle.programmes.specs.Bids.{terms_refusal};
ghost use Rattle.programmes.specs.Terms.{AreTerms};

use super::BidTerms;
use calendar::Refusal;

impl BidTerms {
    // The terms of this contract reduction at this price.
    pub fn new(reduction: u32, price: u32) -> Result<BidTerms, Refusal>
        ensures { Judged result (terms_refusal reduction price) (λ t. AreTerms t reduction price) }
    {
        if reduction < 20 || reduction > 40_000 {
            return Err(Refusal::ReductionOutOfRange);
        }
        if price > 1_000 {
            return Err(Refusal::BidPriceAboveLimit);
        }
        Ok(BidTerms { reduction, price })
    }

    // The contract reduction in kW.
    pub fn reduction(&self) -> u32
        ensures value { result ≡ self.now.reduction }
        ensures low { result ≤ 40000 }
    {
        self.reduction
    }

    // The price in cents.
    pub fn price(&self) -> u32
        ensures value { result ≡ self.now.price }
        ensures low { result ≤ 1000 }
    {
        self.price
    }
}
