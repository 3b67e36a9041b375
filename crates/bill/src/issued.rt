// The issued bill and its print.
ghost use Rattle.std.specs.Prelude.{◌≡◌, ◌<◌, ◌≤◌, ◌++◌, length, drop, MatchResult};
ghost use Rattle.calendar.specs.declared.refusal.Refusal.TheVariants.{PrintBufferTooShort};
ghost use Rattle.bill.specs.PrintBill.{bill_text};

use crate::draft::Draft;
use crate::items::Items;
use crate::print::put_bill;
use calendar::Refusal;
use readings::MeterCode;

// The bytes that suffice for the print of every bill.
const PRINT_ROOM: usize = 512;

// An issued bill. Printing uses it up.
#[derive(Drop)]
pub struct Issued {
    serial: u32,
    draft: Draft,
}

// A bill that was not printed, and why.
#[derive(Drop)]
pub struct Unprinted {
    pub bill: Issued,
    pub refusal: Refusal,
}

// Why a bill was not printed.
impl From<Unprinted> for Refusal {
    fn from(unprinted: Unprinted) -> Refusal
        ensures { result ≡ unprinted.refusal }
    {
        unprinted.refusal
    }
}

impl Issued {
    // The draft, issued under this serial.
    pub(crate) fn of(draft: Draft, serial: u32) -> Issued
        ensures serial { result.serial ≡ serial }
        ensures draft { result.draft ≡ draft }
    {
        Issued { serial, draft }
    }

    // The number under which the bill was issued.
    pub fn serial(&self) -> u32
        ensures { result ≡ self.now.serial }
    {
        self.serial
    }

    // The code of the meter.
    pub fn code(&self) -> MeterCode
        ensures { result ≡ self.now.draft.code }
    {
        self.draft.code()
    }

    // The lines of the bill.
    pub fn items(&self) -> Items
        ensures { result ≡ self.now.draft.items }
    {
        self.draft.items()
    }

    // Prints the bill from the buffer's start, and answers how many bytes it took. Gives the bill back where the buffer has fewer
    // than 512 bytes, which suffice for every bill.
    pub fn print(self, buffer: &mut [u8]) -> Result<usize, Unprinted>
        ensures answer { MatchResult result (λ n. n ≡ length (bill_text self)) (λ e. (e.bill ≡ self) × (e.refusal ≡ PrintBufferTooShort)) }
        ensures room { MatchResult result (λ n. 512 ≤ length buffer.old) (λ e. length buffer.old < 512) }
        ensures written { MatchResult result (λ n. buffer.new ≡ bill_text self ++ drop (length (bill_text self)) buffer.old) (λ e. buffer.new ≡ buffer.old) }
        ensures suffices { length (bill_text self) ≤ 512 }
    {
        if buffer.len() < PRINT_ROOM {
            return Err(Unprinted {
                bill: self,
                refusal: Refusal::PrintBufferTooShort,
            });
        }
        Ok(put_bill(buffer, self.serial, self.code().as_bytes(), self.items()))
    }
}
