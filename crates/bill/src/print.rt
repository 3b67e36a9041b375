// The lines of a bill, written into a lent buffer.
ghost use Rattle.std.specs.Prelude.{◌≡◌};
ghost use Rattle.bill.specs.PrintText.{rendered};
ghost use Rattle.bill.specs.PrintWrote.{Room, Wrote};
ghost use Rattle.bill.specs.PrintValues.{rows_text};

use crate::items::Items;
use crate::keys::*;
use crate::write::{Value, Writer};

// What each line of a bill shows, in the order of the print.
fn rows<'a>(serial: u32, code: &'a [u8], items: Items) -> [(&'a [u8], Value<'a>); 16]
    ensures { rows_text result ≡ rendered serial code.now items }
{
    let energies = items.energies;
    let excess_lines = items.excess_lines;
    [
        (CODE, Value::Text(code)),
        (SERIAL, Value::from(serial)),
        (ENERGY_PEAK, Value::from(energies.peak)),
        (ENERGY_SEMI_PEAK, Value::from(energies.semi_peak)),
        (ENERGY_SATURDAY, Value::from(energies.saturday)),
        (ENERGY_OFF_PEAK, Value::from(energies.off_peak)),
        (ENERGY, Value::Number(items.energy)),
        (BASIC, Value::Number(items.basic)),
        (EXCESS_PEAK, Value::from(excess_lines.peak)),
        (EXCESS_SEMI_PEAK, Value::from(excess_lines.semi_peak)),
        (EXCESS_SATURDAY, Value::from(excess_lines.saturday)),
        (EXCESS_OFF_PEAK, Value::from(excess_lines.off_peak)),
        (EXCESS, Value::Number(items.excess)),
        (CREDIT, Value::Number(items.credit)),
        (EXTRA, Value::Number(items.extra)),
        (DUE, Value::Signed(items.due)),
    ]
}

// Writes a whole bill from the buffer's start.
pub(crate) fn put_bill(buffer: &mut [u8], serial: u32, code: &[u8], items: Items) -> usize
    requires { Room buffer.old 0 (rendered serial code.now items) }
    ensures { Wrote buffer.old 0 (rendered serial code.now items) result buffer.new }
{
    let mut writer = Writer::new(buffer);
    for (key, value) in rows(serial, code, items) {
        writer.line(key, value);
    }
    writer.count()
}
