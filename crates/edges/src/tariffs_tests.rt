// Tariffs at the edges of their stretches, and capacities at their limits.
use calendar::{DayKind, Refusal, Season};
use std::process::Abort;
use std::test::Fail;
use tariffs::{Capacities, H3, L2, Rank, S3, Tariff};

// The last slot of a stretch, its rank, and the rank of the next slot.
#[derive(Clone, Copy)]
struct Edge(u8, Rank, Rank);

fn check_edges<T: Tariff>(
    rt: &impl Abort,
    tariff: &T,
    season: Season,
    kind: DayKind,
    edges: &[Edge],
) {
    for edge in edges {
        let last = usize::from(edge.0);
        assert_eq!(rt; tariff.rank(season, kind, last), edge.1);
        assert_eq!(rt; tariff.rank(season, kind, last + 1), edge.2);
    }
}

const S3_SUMMER: [Edge; 3] = [
    Edge(35, Rank::OffPeak, Rank::SemiPeak),
    Edge(63, Rank::SemiPeak, Rank::Peak),
    Edge(87, Rank::Peak, Rank::SemiPeak),
];

const S3_OTHER_MONTHS: [Edge; 3] = [
    Edge(23, Rank::OffPeak, Rank::SemiPeak),
    Edge(43, Rank::SemiPeak, Rank::OffPeak),
    Edge(55, Rank::OffPeak, Rank::SemiPeak),
];

const H3_SUMMER: [Edge; 6] = [
    Edge(29, Rank::OffPeak, Rank::SemiPeak),
    Edge(39, Rank::SemiPeak, Rank::Peak),
    Edge(47, Rank::Peak, Rank::SemiPeak),
    Edge(51, Rank::SemiPeak, Rank::Peak),
    Edge(67, Rank::Peak, Rank::SemiPeak),
    Edge(89, Rank::SemiPeak, Rank::OffPeak),
];

const H3_OTHER_MONTHS: [Edge; 2] = [
    Edge(29, Rank::OffPeak, Rank::SemiPeak),
    Edge(89, Rank::SemiPeak, Rank::OffPeak),
];

const L2_WORKING: [Edge; 2] = [
    Edge(29, Rank::OffPeak, Rank::Peak),
    Edge(89, Rank::Peak, Rank::OffPeak),
];

const CONTRACT_SATURDAY: [Edge; 2] = [
    Edge(29, Rank::OffPeak, Rank::SaturdaySemiPeak),
    Edge(89, Rank::SaturdaySemiPeak, Rank::OffPeak),
];

const OFF_PEAK: [Edge; 2] = [
    Edge(29, Rank::OffPeak, Rank::OffPeak),
    Edge(63, Rank::OffPeak, Rank::OffPeak),
];

#[test]
fn stretches_of_s3(rt: HostRuntime) {
    check_edges(&rt, &S3, Season::Summer, DayKind::Working, &S3_SUMMER);
    check_edges(
        &rt,
        &S3,
        Season::OtherMonths,
        DayKind::Working,
        &S3_OTHER_MONTHS,
    );
    check_edges(&rt, &S3, Season::Summer, DayKind::Saturday, &OFF_PEAK);
}

#[test]
fn stretches_of_contract_tariffs(rt: HostRuntime) {
    check_edges(&rt, &H3, Season::Summer, DayKind::Working, &H3_SUMMER);
    check_edges(
        &rt,
        &H3,
        Season::OtherMonths,
        DayKind::Working,
        &H3_OTHER_MONTHS,
    );
    check_edges(
        &rt,
        &H3,
        Season::OtherMonths,
        DayKind::Saturday,
        &CONTRACT_SATURDAY,
    );
    check_edges(&rt, &H3, Season::Summer, DayKind::Sunday, &OFF_PEAK);
    check_edges(&rt, &L2, Season::Summer, DayKind::Working, &L2_WORKING);
    check_edges(&rt, &L2, Season::OtherMonths, DayKind::Working, &L2_WORKING);
    check_edges(
        &rt,
        &L2,
        Season::Summer,
        DayKind::Saturday,
        &CONTRACT_SATURDAY,
    );
    check_edges(&rt, &L2, Season::Summer, DayKind::OffPeak, &OFF_PEAK);
}

#[test]
fn capacities_are_granted_up_to_40_000(rt: HostRuntime) -> Result<(), Fail> {
    assert_eq!(rt;
        Capacities::new(0, 40_000, 1, 0).err(),
        Some(Refusal::NoRegularCapacity)
    );
    assert_eq!(rt;
        Capacities::new(1, 39_999, 0, 1).err(),
        Some(Refusal::CapacityAboveLimit)
    );
    assert_eq!(rt; Capacities::new(1, 39_998, 0, 1)?.regular(), 1);
    Ok(())
}
