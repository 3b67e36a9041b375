// The bid and the layer over it on worked figures, and what they refuse.
use books::Call;
use calendar::{Month, Refusal};
use programmes::{Bid, BidTerms, Flexible, Metered, NoProgramme, Programme, Site};
use std::test::Fail;

// Monday, 15 July 2024, by its number and counted from the month's first day; the slots of 10 to 12 hours are called.
const MONDAY: u32 = 8_962;

const CALLED_DAY: usize = 14;

// A month at 300 kW, but for eight called slots.
fn july_readings(called: u32) -> [u32; 2976] {
    let mut readings = [300; 2976];
    let midnight = 96 * CALLED_DAY;
    readings[midnight + 40..midnight + 48].fill(called);
    readings
}

// Credit and extra of a programme that does not refuse the site, which is metered here with its lead and its month.
fn settled<P: Programme>(
    programme: &P,
    site: &Site<'_>,
    lead: &[u32],
    readings: &[u32],
) -> Result<(u64, u64), Fail> {
    let metered = Metered::new(*site, lead, readings)?;
    match programme.refusal(&metered.site()) {
        Some(_) => Err(Fail::new("refused")),
        None => Ok(programme.settle(&metered)),
    }
}

#[test]
fn a_bid_earns_its_reduction_and_owes_what_it_misses(rt: HostRuntime) -> Result<(), Fail> {
    let calls = [Call::new(MONDAY, 1, 10, 2)?];
    let site = Site {
        regular: 500,
        month: Month::new(2024, 7)?,
        off_peak: &[],
        calls: &calls,
    };
    let bid = Bid::new(BidTerms::new(100, 500)?);
    let lead = [300; 2976];
    let (credit, extra) = settled(&bid, &site, &lead, &july_readings(180))?;
    assert_eq!(rt; credit, 1_920_000);
    assert_eq!(rt; extra, 0);
    let (credit, extra) = settled(&bid, &site, &lead, &july_readings(220))?;
    assert_eq!(rt; credit, 320_000);
    assert_eq!(rt; extra, 80_000);
    Ok(())
}

#[test]
fn a_flexible_call_adds_to_a_bid_and_to_no_programme(rt: HostRuntime) -> Result<(), Fail> {
    let calls = [Call::new(MONDAY, 1, 10, 2)?, Call::new(MONDAY, 2, 10, 2)?];
    let site = Site {
        regular: 500,
        month: Month::new(2024, 7)?,
        off_peak: &[],
        calls: &calls,
    };
    let layer = Flexible::new(Bid::new(BidTerms::new(100, 500)?));
    let lead = [300; 2976];
    let (credit, extra) = settled(&layer, &site, &lead, &july_readings(180))?;
    assert_eq!(rt; credit, 2_000_000);
    assert_eq!(rt; extra, 0);
    let (credit, extra) = settled(
        &Flexible::new(NoProgramme),
        &site,
        &lead,
        &july_readings(180),
    )?;
    assert_eq!(rt; credit, 960_000);
    assert_eq!(rt; extra, 0);
    Ok(())
}

#[test]
fn terms_are_granted_from_20_kw_and_up_to_1000_cents(rt: HostRuntime) -> Result<(), Fail> {
    assert_eq!(rt;
        BidTerms::new(19, 1_001).err(),
        Some(Refusal::ReductionOutOfRange)
    );
    assert_eq!(rt;
        BidTerms::new(40_001, 0).err(),
        Some(Refusal::ReductionOutOfRange)
    );
    assert_eq!(rt;
        BidTerms::new(20, 1_001).err(),
        Some(Refusal::BidPriceAboveLimit)
    );
    assert_eq!(rt; BidTerms::new(40_000, 1_000)?.price(), 1_000);
    Ok(())
}

#[test]
fn a_bid_judges_capacity_lengths_and_days_to_average(rt: HostRuntime) -> Result<(), Fail> {
    let bid = Bid::new(BidTerms::new(100, 500)?);
    let long = [Call::new(MONDAY, 1, 10, 3)?];
    let month = Month::new(2024, 7)?;
    let mut site = Site {
        regular: 99,
        month,
        off_peak: &[],
        calls: &long,
    };
    assert_eq!(rt; bid.refusal(&site), Some(Refusal::BidBeyondCapacity));
    site.regular = 100;
    assert_eq!(rt; bid.refusal(&site), Some(Refusal::CallLengthNotTaken));
    assert_eq!(rt; site.is_eligible(45), false);
    assert_eq!(rt; site.is_eligible(44), false);
    assert_eq!(rt; site.is_eligible(43), false);
    assert_eq!(rt; site.is_eligible(42), true);
    Ok(())
}
