// The lines of a job one by one, and the six that it begins with.
ghost use Rattle.std.specs.Prelude.{◌≡◌, ◌+◌, ◌<◌, ◌≤◌, ◌==◌, length, MatchResult};
ghost use Rattle.calendar.specs.declared.refusal.Refusal.TheVariants.{JobTextTooLong};
ghost use Rattle.job.specs.declared.stop.Stop.TheVariants.{Refused, Unsupported};
ghost use Rattle.job.specs.Reading.{told, Reads, GoesOn, StopsAt};
ghost use Rattle.job.specs.Jobs.{Goes};
ghost use Rattle.job.specs.Says.{says};
ghost use Rattle.job.specs.Statements.{code as said_code, month as said_month};
ghost use Rattle.job.specs.Stopping.{naming, refused_whole};

use super::Reader;
use crate::statement::{Statement, TariffName};
use crate::stop::Stop;
use crate::text::cut;
use calendar::Refusal;

// The longest job text.
pub const LONGEST_TEXT: usize = 60_000;

impl<'t> Reader<'t> {
    // A job text from its first line on, refused where it is too long.
    pub(crate) fn of(text: &'t [u8]) -> Result<Reader<'t>, Stop>
        ensures { MatchResult result (λ r. (r.number ≡ 1) × (r.text.now ≡ text.now)) (λ e. (60000 < length text.now) × (e ≡ refused_whole JobTextTooLong)) }
    {
        if text.len() > LONGEST_TEXT {
            return Err(Stop::from(Refusal::JobTextTooLong));
        }
        Ok(Reader { text, number: 1 })
    }

    // Whether no byte is left.
    pub(crate) fn is_empty(&self) -> bool
        ensures { result ≡ (length self.now.text.now == 0) }
    {
        self.text.is_empty()
    }

    // A refusal that names the next line.
    pub(crate) fn refused(&self, refusal: Refusal) -> Stop
        ensures { result ≡ Refused refusal self.now.number }
    {
        Stop::Refused {
            refusal,
            line: self.number,
        }
    }

    // What was made of the next line; where that was refused, the refusal names the line. `map_err` was tried: the check learns nothing of what its closure
    // gives unless the closure has a clause of its own.
    pub(crate) fn judged<T>(&self, made: Result<T, Refusal>) -> Result<T, Stop>
        ensures { result ≡ naming self.now.number made }
    {
        match made {
            Ok(value) => Ok(value),
            Err(refusal) => Err(self.refused(refusal)),
        }
    }

    // That the next line is not carried out yet.
    pub(crate) fn unsupported(&self) -> Stop
        ensures { result ≡ Unsupported self.now.number }
    {
        Stop::Unsupported { line: self.number }
    }

    // What the next line says, and the lines behind it. `ok_or` with `?` was tried: its proof takes the answer apart three times more, and the code says no more.
    pub(crate) fn next(self) -> Result<(Statement<'t>, Reader<'t>), Stop>
        requires { length self.text.now ≡ 0 → self.number ≤ 6 }
        ensures { MatchResult result (λ p. Reads self.entry (says p.0) p.1) (λ e. StopsAt self.entry e) }
    {
        if self.text.is_empty() {
            return Err(Stop::from(Refusal::JobIncomplete));
        }
        let malformed = self.refused(Refusal::MalformedLine);
        let Some((bytes, text)) = cut(self.text, b'\n') else {
            return Err(malformed);
        };
        let Some(statement) = Statement::read(bytes) else {
            return Err(malformed);
        };
        Ok((
            statement,
            Reader {
                text,
                number: self.number + 1,
            },
        ))
    }

    // The bytes of the code line, and the lines behind it. This reader and the next three differ in the case that they take and in what their
    // clauses say of it, so that one function given the case would be no plainer.
    pub(crate) fn code(self) -> Result<(&'t [u8], Reader<'t>), Stop>
        requires { self.number ≡ 1 }
        ensures { MatchResult result (λ p. Reads self.entry (said_code p.0.now) p.1) (λ e. StopsAt self.entry e) }
    {
        match self.next()? {
            (Statement::Code(bytes), rest) => Ok((bytes, rest)),
            _ => Err(self.refused(Refusal::LineOutOfOrder)),
        }
    }

    // Year and month of the month line, and the lines behind it.
    pub(crate) fn month(self) -> Result<(u32, u32, Reader<'t>), Stop>
        requires { self.number ≡ 2 }
        ensures { MatchResult result (λ p. Reads self.entry (said_month p.0 p.1) p.2) (λ e. StopsAt self.entry e) }
    {
        match self.next()? {
            (Statement::Month { year, month }, rest) => Ok((year, month, rest)),
            _ => Err(self.refused(Refusal::LineOutOfOrder)),
        }
    }

    // The lines behind the tariff line. S3 alone is carried out.
    fn tariff(self) -> Result<Reader<'t>, Stop>
        requires { self.number ≡ 3 }
        ensures { MatchResult result (λ rest. GoesOn self.entry rest) (λ e. StopsAt self.entry e) }
    {
        match self.next()? {
            (Statement::Tariff(TariffName::S3), rest) => Ok(rest),
            (Statement::Tariff(_), _) => Err(self.unsupported()),
            _ => Err(self.refused(Refusal::LineOutOfOrder)),
        }
    }

    // The lines behind a line that is read for its form alone: capacities, programme or flex.
    fn form(self) -> Result<Reader<'t>, Stop>
        requires from { 4 ≤ self.number }
        requires to { self.number ≤ 6 }
        ensures { MatchResult result (λ rest. GoesOn self.entry rest) (λ e. StopsAt self.entry e) }
    {
        let (statement, rest) = self.next()?;
        if statement.place() != self.number {
            return Err(self.refused(Refusal::LineOutOfOrder));
        }
        Ok(rest)
    }

    // The lines behind those from the tariff to flex.
    pub(crate) fn terms(self) -> Result<Reader<'t>, Stop>
        requires { self.number ≡ 3 }
        ensures { MatchResult result (λ rest. Goes 3 (told self.entry) 7 (told rest) × (rest.number ≡ 7)) (λ e. StopsAt self.entry e) }
    {
        self.tariff()?.form()?.form()?.form()
    }
}
