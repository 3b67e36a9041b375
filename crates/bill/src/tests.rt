// Bills printed as in the examples, and a print that is refused.
use crate::{Draft, Issued, Items};
use calendar::Refusal;
use readings::MeterCode;
use std::test::Fail;
use tariffs::ByRank;

// A bill of this due over the energies of the example.
fn bill(due: i64) -> Result<Issued, Refusal> {
    let items = Items {
        energies: ByRank {
            peak: 2208,
            semi_peak: 3312,
            saturday: 0,
            off_peak: 6384,
        },
        energy: 4_681_056,
        basic: 30_000,
        excess_lines: ByRank::NONE,
        excess: 0,
        credit: 0,
        extra: 0,
        due,
    };
    Ok(Draft::new(MeterCode::new(b"PARK-EAST-12-A")?, items).issue(1))
}

// What it prints, down to the line of the due.
const PRINTED: &[u8] =
    b"code=PARK-EAST-12-A\nserial=1\nq1=2208\nq2=3312\nq3=0\nq4=6384\nenergy=4681056\nbasic=30000\nx1=0\nx2=0\nx3=0\nx4=0\nexcess=0\ncredit=0\nextra=0\n";

#[test]
fn prints_a_bill(rt: HostRuntime) -> Result<(), Fail> {
    let mut buffer = [b'.'; 512];
    let n = bill(11_778)?.print(&mut buffer).map_err(Refusal::from)?;
    assert_eq!(rt; n, 141);
    assert!(rt; &buffer[0..131] == PRINTED);
    assert!(rt; &buffer[131..141] == b"due=11778\n".as_slice());
    Ok(())
}

#[test]
fn a_negative_due_has_a_minus_sign(rt: HostRuntime) -> Result<(), Fail> {
    let mut buffer = [b'.'; 512];
    let n = bill(-305)?.print(&mut buffer).map_err(Refusal::from)?;
    assert_eq!(rt; n, 140);
    assert!(rt; &buffer[131..140] == b"due=-305\n".as_slice());
    Ok(())
}

#[test]
fn a_short_buffer_gives_the_bill_back(rt: HostRuntime) -> Result<(), Fail> {
    let mut buffer = [b'.'; 511];
    let Err(unprinted) = bill(7)?.print(&mut buffer) else {
        return Err(Fail::new("printed"));
    };
    assert_eq!(rt; unprinted.refusal, Refusal::PrintBufferTooShort);
    assert_eq!(rt; unprinted.bill.serial(), 1);
    assert_eq!(rt; unprinted.bill.items().due, 7);
    assert!(rt; buffer == [b'.'; 511]);
    Ok(())
}

#[test]
fn the_bytes_past_the_print_stay(rt: HostRuntime) -> Result<(), Fail> {
    let mut buffer = [b'.'; 600];
    let n = bill(11_778)?.print(&mut buffer).map_err(Refusal::from)?;
    assert_eq!(rt; n, 141);
    assert!(rt; buffer[140] == b'\n');
    assert!(rt; &buffer[141..600] == [b'.'; 459].as_slice());
    Ok(())
}
