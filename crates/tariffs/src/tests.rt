// What capacities allow and cost, and an excess in every rank.
use crate::excess::lines_charge;
use crate::{ByRank, Capacities, ContractTariff, L2, Tariff, excess_lines, tenth};
use calendar::Season;
use std::test::Fail;

fn by_rank(peak: u32, semi_peak: u32, saturday: u32, off_peak: u32) -> ByRank {
    ByRank {
        peak,
        semi_peak,
        saturday,
        off_peak,
    }
}

#[test]
fn capacities_allow_and_cost(rt: HostRuntime) -> Result<(), Fail> {
    let stacked = Capacities::new(10, 10, 5, 5)?;
    assert_eq!(rt;
        L2.allowances(Season::Summer, stacked),
        by_rank(10, 20, 25, 30)
    );
    assert_eq!(rt;
        L2.allowances(Season::OtherMonths, stacked),
        by_rank(20, 20, 25, 30)
    );
    let small = Capacities::new(10, 0, 10, 5)?;
    assert_eq!(rt; L2.capacity_charge(Season::Summer, small), 1_133_600);
    assert_eq!(rt; 4 * u64::from(L2.household_price()), 105_000);
    Ok(())
}

#[test]
fn an_excess_is_charged_once(rt: HostRuntime) {
    let allowances = by_rank(10, 20, 25, 30);
    let lines = excess_lines(by_rank(11, 22, 30, 37), allowances);
    assert_eq!(rt; lines, by_rank(1, 1, 3, 2));
    let prices = ByRank {
        peak: 23_620,
        semi_peak: 17_320,
        saturday: 4_720,
        off_peak: 4_720,
    };
    assert_eq!(rt; lines_charge(lines, allowances, prices), 516_320);
    assert_eq!(rt; tenth(24), 2);
    assert_eq!(rt; tenth(25), 3);
}
