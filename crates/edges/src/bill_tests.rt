// The basic charge and the excess of a contract.
use bill::Contract;
use calendar::{Month, Refusal, Season};
use std::test::Fail;
use tariffs::{Capacities, L2};

#[test]
fn an_idle_month_has_half_its_basic_charge(rt: HostRuntime) -> Result<(), Fail> {
    let contract = Contract {
        tariff: &L2,
        capacities: Capacities::new(10, 0, 10, 5)?,
    };
    assert_eq!(rt; contract.basic(Season::Summer, &[0, 1]), 1_238_600);
    assert_eq!(rt; contract.basic(Season::OtherMonths, &[1, 0]), 936_200);
    assert_eq!(rt; contract.basic(Season::Summer, &[0, 0]), 619_300);
    Ok(())
}

#[test]
fn an_excess_is_charged_twice_and_three_times(rt: HostRuntime) -> Result<(), Fail> {
    let month = Month::new(2024, 7)?;
    let contract = Contract {
        tariff: &L2,
        capacities: Capacities::new(10, 0, 10, 5)?,
    };
    let excess = contract.excess(month, &[], &[12; 2976])?;
    assert_eq!(rt; excess.lines.total(), 2);
    assert_eq!(rt; excess.charge, 472_400);
    let short = contract.excess(month, &[], &[12; 2975]);
    assert_eq!(rt; short.err(), Some(Refusal::MonthNotFull));
    Ok(())
}
