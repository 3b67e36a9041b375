// The lines of a job behind its six first ones, and the bill of what they leave.
ghost use Rattle.std.specs.Prelude.{◌≡◌, ◌<◌, ◌≤◌, length, MatchResult};
ghost use Rattle.job.specs.JobModels.{Keeps, LeadsTo, HaltsAt, EndsAs, job_model};
ghost use Rattle.job.specs.Jobs.{and_then, bill_of, fitting, printed_bytes, buffer_after};

use crate::reader::Reader;
use crate::statement::Statement;
use crate::stop::Stop;
use bill::plain_quote;
use books::{Book, OffPeakDay, book_off_peak};
use calendar::Refusal;
use readings::Sheet;
use tariffs::S3;

// The serial under which a job's bill is issued.
const SERIAL: u32 = 1;

// Carries out the next line, and answers the lines behind it. Sheet and book stand side by side here and below: one struct of both was tried, and the
// check then told the lender of the storage only its length, since it follows a loan through one struct and not through two.
fn body_line<'t>(
    sheet: &mut Sheet<'_>,
    off_peak: &mut Book<'_, OffPeakDay>,
    reader: Reader<'t>,
) -> Result<Reader<'t>, Stop>
    requires some { 0 < length reader.text.now }
    requires later { 7 ≤ reader.number }
    ensures goes { MatchResult result (LeadsTo sheet.old off_peak.old reader.entry sheet.new off_peak.new) (HaltsAt sheet.old off_peak.old reader.entry sheet.new) }
    ensures keeps { Keeps sheet.old off_peak.old sheet.new off_peak.new }
{
    let (statement, rest) = reader.next()?;
    match statement {
        Statement::Run { count, demand } => {
            reader.judged(sheet.run(count as usize, demand))?;
        }
        Statement::OffPeak { day } => reader.judged(book_off_peak(off_peak, day))?,
        Statement::Lead { .. } | Statement::Call { .. } => return Err(reader.unsupported()),
        _ => return Err(reader.refused(Refusal::LineOutOfOrder)),
    }
    Ok(rest)
}

// Carries out the lines from the seventh on.
pub(crate) fn body(
    sheet: &mut Sheet<'_>,
    off_peak: &mut Book<'_, OffPeakDay>,
    reader: Reader<'_>,
) -> Result<(), Stop>
    requires { reader.number ≡ 7 }
    ensures ends { MatchResult result (λ u. EndsAs sheet.old off_peak.old reader.entry sheet.new off_peak.new) (HaltsAt sheet.old off_peak.old reader.entry sheet.new) }
    ensures keeps { Keeps sheet.old off_peak.old sheet.new off_peak.new }
{
    // No `for`: the step is given the reader, with the number of its line, and gives back what is left.
    let mut rest = reader;
    while !rest.is_empty() {
        rest = body_line(sheet, off_peak, rest)?;
    }
    Ok(())
}

// Quotes a sheet by S3, issues the bill and prints it.
pub(crate) fn print_sheet(
    sheet: &Sheet<'_>,
    off_peak: &Book<'_, OffPeakDay>,
    buffer: &mut [u8],
) -> Result<usize, Stop>
    ensures answer { result ≡ printed_bytes (and_then (bill_of (job_model sheet.now off_peak.now)) (fitting (length buffer.old))) }
    ensures written { buffer.new ≡ buffer_after (and_then (bill_of (job_model sheet.now off_peak.now)) (fitting (length buffer.old))) buffer.old }
{
    let draft = plain_quote(&S3, sheet, off_peak.entries())?;
    Ok(draft.issue(SERIAL).print(buffer)?)
}
