#![tactic(auto)]

// Settles programmes on cases from standard input, a line each, and writes what each comes to: the credit and the extra in units, or the
// number of a refusal. Its stored output is another implementation's.
//
// A line has whole numbers with blanks between them: the programme (0 none, 1 a bid, 2 the layer over a bid, 3 the layer over none), the
// regular capacity, K and price of the bid, year and month, the demand in kW outside calls, how many days right before the month are
// off-peak, and then for each call its day of the month, kind, start, hours and the demand in kW in its slots.
use books::{Call, OffPeakDay};
use calendar::{Month, Refusal};
use programmes::{Bid, BidTerms, Flexible, Metered, NoProgramme, Programme, Site};
use readings::SLOTS_A_DAY;
use std::alloc::{AllocError, AllocFailed, Global};

// Why a line comes to no settlement.
enum Unsettled {
    // it is refused
    Refused(Refusal),
    // the site cannot be metered
    NotFull,
    // the program itself failed
    Failed(anyhow::Error),
}

impl From<Refusal> for Unsettled {
    fn from(refusal: Refusal) -> Unsettled {
        Unsettled::Refused(refusal)
    }
}

impl From<AllocError> for Unsettled {
    fn from(error: AllocError) -> Unsettled {
        Unsettled::Failed(error.into())
    }
}

impl<T: Drop> From<AllocFailed<T>> for Unsettled {
    fn from(failed: AllocFailed<T>) -> Unsettled {
        Unsettled::from(AllocError::from(failed))
    }
}

// The credit and the extra of a programme over a site, which is metered here with its lead and its month.
fn settled(
    programme: &dyn Programme,
    site: Site<'_>,
    lead: &[u32],
    readings: &[u32],
) -> Result<(u64, u64), Unsettled> {
    let metered = Metered::new(site, lead, readings).map_err(|_| Unsettled::NotFull)?;
    match programme.refusal(&metered.site()) {
        Some(refusal) => Err(Unsettled::Refused(refusal)),
        None => Ok(programme.settle(&metered)),
    }
}

// The numbers of a line.
fn numbers(heap: Global, line: &str) -> anyhow::Result<Vec<u32>> {
    let mut all = Vec::new(heap);
    for word in line.split(' ') {
        all.push(word.parse::<u32>()?)?;
    }
    Ok(all)
}

// The number at a place, 0 where there is none.
fn at(numbers: &[u32], place: usize) -> u32 {
    numbers.get(place).copied().unwrap_or(0)
}

// Where the calls of a line begin, how many numbers each has, and how many are read.
const CALLS_FROM: usize = 8;

const CALL_NUMBERS: usize = 5;

const MOST_CALLS: usize = 64;

// Writes the demand of a call into its slots.
fn draw(readings: &mut [u32], day: u32, call: Call, kw: u32) {
    if let Some(slots) = readings.chunks_exact_mut(SLOTS_A_DAY).nth(day as usize) {
        slots[usize::from(call.first_slot())..usize::from(call.end_slot())].fill(kw);
    }
}

// What a line comes to.
fn come_to(heap: Global, line: &[u32]) -> Result<(u64, u64), Unsettled> {
    let month = Month::new(at(line, 4), at(line, 5))?;
    let base = at(line, 6);
    let lead = vec![in heap; base; 2_976]?;
    let mut readings = vec![in heap; base; SLOTS_A_DAY * usize::from(month.days())]?;
    let mut off_peak = Vec::new(heap);
    for back in 0..at(line, 7) {
        if let Ok(day) = OffPeakDay::new(month.first_day().wrapping_sub(back.wrapping_add(1))) {
            off_peak.push(day)?;
        }
    }
    let mut calls = Vec::new(heap);
    let called = line.get(CALLS_FROM..).unwrap_or(&[]);
    for numbers in called.chunks(CALL_NUMBERS).take(MOST_CALLS) {
        let day = at(numbers, 0).wrapping_sub(1);
        let call = Call::new(
            month.first_day().wrapping_add(day),
            at(numbers, 1),
            at(numbers, 2),
            at(numbers, 3),
        )?;
        draw(&mut readings, day, call, at(numbers, 4));
        calls.push(call)?;
    }
    let site = Site {
        regular: at(line, 1),
        month,
        off_peak: &off_peak,
        calls: &calls,
    };
    let bid = Bid::new(BidTerms::new(at(line, 2), at(line, 3))?);
    let layer = Flexible::new(bid);
    let layer_alone = Flexible::new(NoProgramme);
    let programme: &dyn Programme = match at(line, 0) {
        0 => &NoProgramme,
        1 => &bid,
        2 => &layer,
        _ => &layer_alone,
    };
    settled(programme, site, &lead, &readings)
}

fn main(rt: HostRuntime) -> anyhow::Result<()> {
    for line in rt.lines(rt.alloc()) {
        let line = line?;
        let line = numbers(rt.alloc(), line.as_str())?;
        match come_to(rt.alloc(), &line) {
            Ok((credit, extra)) => println!(rt; "{credit} {extra}")?,
            Err(Unsettled::Refused(refusal)) => println!(rt; "refused {}", refusal.number())?,
            Err(Unsettled::NotFull) => println!(rt; "not full")?,
            Err(Unsettled::Failed(error)) => return Err(error),
        }
    }
    Ok(())
}
