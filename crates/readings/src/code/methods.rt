// How a meter code is made, read and compared.
ghost use Rattle.std.specs.Prelude.{◌≡◌, ◌≤◌, length};
ghost use Rattle.std.specs.Str.{bytes_eq};
ghost use Rattle.calendar.specs.Judging.{Judged};
ghost use Rattle.readings.specs.CodeBytes.{code_bytes};
ghost use Rattle.readings.specs.Codes.{printable, code_refusal};

use super::MeterCode;
use calendar::Refusal;

// The longest code.
const LONGEST: usize = 24;

// Whether each byte is a printable character other than the blank.
fn is_printable(text: &[u8]) -> bool
    ensures { result ≡ printable text.now }
{
    text.iter().all(|b| b.is_ascii_graphic())
}

impl MeterCode {
    // The code of these bytes, all of them.
    pub fn new(text: &[u8]) -> Result<MeterCode, Refusal>
        ensures { Judged result (code_refusal text.now) (λ c. code_bytes c ≡ text.now) }
    {
        let len = text.len();
        if len < 1 || len > LONGEST || !is_printable(text) {
            return Err(Refusal::NotAMeterCode);
        }
        let mut bytes = [0; LONGEST];
        bytes[..len].copy_from_slice(text);
        Ok(MeterCode { bytes, len })
    }

    // The bytes of the code.
    pub fn as_bytes(&self) -> &[u8]
        ensures value { result.now ≡ code_bytes self.now }
        ensures short { length result.now ≤ 24 }
    {
        &self.bytes[..self.len]
    }

    // Whether these bytes are the code, compared over their whole length.
    pub fn is(&self, text: &[u8]) -> bool
        ensures { result ≡ bytes_eq (code_bytes self.now) text.now }
    {
        self.as_bytes() == text
    }
}
