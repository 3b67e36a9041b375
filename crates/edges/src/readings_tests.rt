// Codes at their limits, and blocks granted and refused.
use calendar::{Month, Refusal};
use readings::{HIGHEST_READING, MeterCode, Sheet};
use std::test::Fail;

const EAST_A: &[u8] = b"PARK-EAST-12-A";

const EAST_B: &[u8] = b"PARK-EAST-12-B";

// June 2013, of 30 days.
fn june() -> Result<Month, Refusal> {
    Month::new(2013, 6)
}

#[test]
fn codes_have_1_to_24_bytes(rt: HostRuntime) {
    assert_eq!(rt; MeterCode::new(b"").err(), Some(Refusal::NotAMeterCode));
    assert_eq!(rt; MeterCode::new(&[b'X'; 24]).err(), None);
    assert_eq!(rt;
        MeterCode::new(&[b'X'; 25]).err(),
        Some(Refusal::NotAMeterCode)
    );
}

#[test]
fn codes_are_of_bytes_33_to_126(rt: HostRuntime) {
    assert_eq!(rt;
        MeterCode::new(&[65, 32]).err(),
        Some(Refusal::NotAMeterCode)
    );
    assert_eq!(rt; MeterCode::new(&[33, 126]).err(), None);
    assert_eq!(rt;
        MeterCode::new(&[65, 127]).err(),
        Some(Refusal::NotAMeterCode)
    );
}

#[test]
fn codes_are_compared_over_their_whole_length(rt: HostRuntime) -> Result<(), Fail> {
    let code = MeterCode::new(EAST_A)?;
    assert!(rt; code.is(EAST_A));
    assert!(rt; !code.is(EAST_B));
    assert!(rt; !code.is(b"PARK-EAST-12-"));
    assert!(rt; !code.is(b"PARK-EAST-12-AA"));
    Ok(())
}

#[test]
fn a_block_of_another_meter_is_refused(rt: HostRuntime) -> Result<(), Fail> {
    let mut storage = [7; 4];
    let mut sheet = Sheet::open(MeterCode::new(EAST_A)?, june()?, &mut storage);
    assert_eq!(rt; sheet.block(EAST_B, 0, &[1]), Err(Refusal::AnotherMeter));
    assert_eq!(rt; sheet.held(), 0);
    Ok(())
}

#[test]
fn blocks_cut_in_two_ways_leave_the_same(rt: HostRuntime) -> Result<(), Fail> {
    let mut storage = [7; 4];
    let mut sheet = Sheet::open(MeterCode::new(EAST_A)?, june()?, &mut storage);
    assert_eq!(rt; sheet.block(EAST_A, 0, &[1, 2, 3]), Ok(3));
    let mut other_storage = [7; 4];
    let mut other = Sheet::open(MeterCode::new(EAST_A)?, june()?, &mut other_storage);
    assert_eq!(rt; other.block(EAST_A, 0, &[1]), Ok(1));
    assert_eq!(rt; other.block(EAST_A, 1, &[]), Ok(1));
    assert_eq!(rt; other.block(EAST_A, 1, &[2, 3]), Ok(3));
    assert!(rt; sheet.readings() == other.readings());
    assert!(rt; storage == [1, 2, 3, 7]);
    Ok(())
}

#[test]
fn repeats_and_gaps_are_refused(rt: HostRuntime) -> Result<(), Fail> {
    let mut storage = [0; 4];
    let mut sheet = Sheet::open(MeterCode::new(EAST_A)?, june()?, &mut storage);
    assert_eq!(rt; sheet.block(EAST_A, 0, &[1, 2]), Ok(2));
    assert_eq!(rt;
        sheet.block(EAST_A, 0, &[1, 2]),
        Err(Refusal::PlaceNotNextFree)
    );
    assert_eq!(rt;
        sheet.block(EAST_A, 3, &[4]),
        Err(Refusal::PlaceNotNextFree)
    );
    assert_eq!(rt; sheet.held(), 2);
    Ok(())
}

#[test]
fn a_block_past_the_last_place_is_refused(rt: HostRuntime) -> Result<(), Fail> {
    let mut storage = [0; 2];
    let mut sheet = Sheet::open(MeterCode::new(EAST_A)?, june()?, &mut storage);
    assert_eq!(rt; sheet.places(), 2);
    assert_eq!(rt;
        sheet.block(EAST_A, 0, &[1, 2, 3]),
        Err(Refusal::PastLastPlace)
    );
    assert_eq!(rt; sheet.block(EAST_A, 0, &[1, HIGHEST_READING]), Ok(2));
    assert_eq!(rt; sheet.block(EAST_A, 2, &[]), Ok(2));
    assert_eq!(rt; sheet.block(EAST_A, 2, &[1]), Err(Refusal::PastLastPlace));
    Ok(())
}

#[test]
fn a_month_has_a_place_for_each_slot(rt: HostRuntime) -> Result<(), Fail> {
    let mut storage = [0; 3000];
    let sheet = Sheet::open(MeterCode::new(EAST_A)?, june()?, &mut storage);
    assert_eq!(rt; sheet.places(), 2880);
    Ok(())
}

#[test]
fn the_first_refusal_is_the_answer(rt: HostRuntime) -> Result<(), Fail> {
    let above = HIGHEST_READING + 1;
    let mut storage = [0; 1];
    let mut sheet = Sheet::open(MeterCode::new(EAST_A)?, june()?, &mut storage);
    assert_eq!(rt;
        sheet.block(b" ", 1, &[above, 0]),
        Err(Refusal::NotAMeterCode)
    );
    assert_eq!(rt;
        sheet.block(EAST_B, 1, &[above, 0]),
        Err(Refusal::AnotherMeter)
    );
    assert_eq!(rt;
        sheet.block(EAST_A, 1, &[above, 0]),
        Err(Refusal::PlaceNotNextFree)
    );
    assert_eq!(rt;
        sheet.block(EAST_A, 0, &[above, 0]),
        Err(Refusal::PastLastPlace)
    );
    assert_eq!(rt;
        sheet.block(EAST_A, 0, &[above]),
        Err(Refusal::ReadingAboveLimit)
    );
    assert_eq!(rt; sheet.block(EAST_A, 0, &[HIGHEST_READING]), Ok(1));
    Ok(())
}
