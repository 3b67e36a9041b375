// A job carried out, from its text to the printed bill.
ghost use Rattle.std.specs.Prelude.{◌≡◌, ◌≤◌, length, IfOk, MatchResult};
ghost use Rattle.job.specs.Openings.{Opens, StopsEarly};
ghost use Rattle.job.specs.Jobs.{printed_bytes, buffer_after, job_print, job_ending, storage_after};

use crate::body::{body, print_sheet};
pub use crate::reader::LONGEST_TEXT;
use crate::reader::Reader;
use crate::stop::Stop;
use books::{Book, OffPeakDay};
use calendar::Month;
use readings::{MeterCode, Sheet};

// The places of a job's books.
const BOOK_PLACES: usize = 64;

// The code and the month of a job's sheet, and its lines behind the six first ones.
fn opening(text: &[u8]) -> Result<(MeterCode, Month, Reader<'_>), Stop>
    ensures { MatchResult result (λ p. Opens text.now p.0 p.1 p.2) (λ e. StopsEarly text.now e) }
{
    let first = Reader::of(text)?;
    let (bytes, second) = first.code()?;
    let code = first.judged(MeterCode::new(bytes))?;
    let (year, number, third) = second.month()?;
    let month = second.judged(Month::new(year, number))?;
    Ok((code, month, third.terms()?))
}

// Carries out a job over lent storage for its readings, and prints its bill into the buffer: so many bytes, or why it stopped. The buffer holds
// what it held unless the bill is printed, and the storage what it held behind the readings of the runs that were granted.
pub fn run_job(text: &[u8], storage: &mut [u32], buffer: &mut [u8]) -> Result<usize, Stop>
    ensures answer { result ≡ printed_bytes (job_print text.now (length storage.old) (length buffer.old)) }
    ensures written { buffer.new ≡ buffer_after (job_print text.now (length storage.old) (length buffer.old)) buffer.old }
    ensures stored { storage.new ≡ storage_after (job_ending text.now (length storage.old)) storage.old }
    ensures within { IfOk result (λ count. count ≤ length buffer.old) }
{
    let (code, month, seventh) = opening(text)?;
    let mut places = [OffPeakDay::first(); BOOK_PLACES];
    let mut sheet = Sheet::open(code, month, storage);
    let mut off_peak = Book::open(&mut places);
    body(&mut sheet, &mut off_peak, seventh)?;
    print_sheet(&sheet, &off_peak, buffer)
}
