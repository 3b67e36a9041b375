// Lines and their forms, and jobs from their text to their outcome.
use calendar::Refusal;
use job::statement::{ProgrammeName, Statement};
use job::{Stop, run_job};

#[test]
fn months_and_dates(rt: HostRuntime) {
    assert_eq!(rt;
        Statement::read(b"month=2024-07"),
        Some(Statement::Month {
            year: 2024,
            month: 7
        })
    );
    assert_eq!(rt;
        Statement::read(b"month=0000-99"),
        Some(Statement::Month { year: 0, month: 99 })
    );
    assert_eq!(rt; Statement::read(b"month=2024-7"), None);
    assert_eq!(rt;
        Statement::read(b"off=2000-02-29"),
        Some(Statement::OffPeak { day: 59 })
    );
    assert_eq!(rt; Statement::read(b"off=2001-02-29"), None);
}

#[test]
fn other_forms(rt: HostRuntime) {
    assert_eq!(rt; Statement::read(b"flex=2"), None);
    assert_eq!(rt; Statement::read(b"flex"), None);
    assert_eq!(rt; Statement::read(b"run=4"), None);
    assert_eq!(rt;
        Statement::read(b"programme=bid,100,5"),
        Some(Statement::Programme(ProgrammeName::Bid {
            reduction: 100,
            price: 5
        }))
    );
}

// What a job comes to, over room for a month of 31 days and the shortest buffer.
fn outcome(text: &[u8]) -> Result<usize, Stop> {
    let mut storage = [0u32; 2976];
    let mut buffer = [0u8; 512];
    run_job(text, &mut storage, &mut buffer)
}

#[test]
fn jobs_without_their_lines(rt: HostRuntime) {
    assert_eq!(rt;
        outcome(b""),
        Err(Stop::Refused {
            refusal: Refusal::JobIncomplete,
            line: 0
        })
    );
    assert_eq!(rt;
        outcome(b"code=A"),
        Err(Stop::Refused {
            refusal: Refusal::MalformedLine,
            line: 1
        })
    );
    assert_eq!(rt;
        outcome(b"code=A\ntariff=S3\n"),
        Err(Stop::Refused {
            refusal: Refusal::LineOutOfOrder,
            line: 2
        })
    );
    assert_eq!(rt;
        outcome(b"code=A\nmonth=2024-07\ntariff=H3\n"),
        Err(Stop::Unsupported { line: 3 })
    );
}

#[test]
fn jobs_with_runs(rt: HostRuntime) {
    assert_eq!(rt;
        outcome(
            b"code=A\nmonth=2024-07\ntariff=S3\ncaps=0,0,0,0\nprogramme=none\nflex=0\nrun=0,50000\nrun=2977,4\n"
        ),
        Err(Stop::Refused {
            refusal: Refusal::PastLastPlace,
            line: 8
        })
    );
    assert_eq!(rt;
        outcome(
            b"code=A\nmonth=2024-07\ntariff=S3\ncaps=0,0,0,0\nprogramme=none\nflex=0\nrun=2975,4\n"
        ),
        Err(Stop::Refused {
            refusal: Refusal::MonthNotFull,
            line: 0
        })
    );
    assert_eq!(rt;
        outcome(
            b"code=PARK-EAST-12-A\nmonth=2024-07\ntariff=S3\ncaps=0,0,0,0\nprogramme=none\nflex=0\nrun=2976,4\n"
        ),
        Ok(141)
    );
}

#[test]
fn jobs_with_off_peak_days(rt: HostRuntime) {
    assert_eq!(rt;
        outcome(
            b"code=A\nmonth=2024-07\ntariff=S3\ncaps=0,0,0,0\nprogramme=none\nflex=0\noff=2024-07-02\noff=2024-07-01\noff=2024-07-02\n"
        ),
        Err(Stop::Refused {
            refusal: Refusal::KeyAlreadyBooked,
            line: 9
        })
    );
    assert_eq!(rt;
        outcome(
            b"code=A\nmonth=2024-07\ntariff=S3\ncaps=0,0,0,0\nprogramme=none\nflex=0\noff=2024-07-32\n"
        ),
        Err(Stop::Refused {
            refusal: Refusal::MalformedLine,
            line: 7
        })
    );
}
