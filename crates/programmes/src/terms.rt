// A bid's terms: a contract reduction in kW and a price in cents. Only `BidTerms::new` makes them.
ghost use Rattle.std.specs.Prelude.{◌≤◌};

mod methods;

#[derive(Clone, Copy, PartialEq, Eq, Debug)]
pub struct BidTerms {
    reduction: u32,
    price: u32,
    ghost reduction_from: { 20 ≤ reduction },
    ghost reduction_to: { reduction ≤ 40000 },
    ghost price_to: { price ≤ 1000 },
}
