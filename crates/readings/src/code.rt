// A meter code: 1 to 24 bytes of 33 to 126. Only `MeterCode::new` makes one, and all of its bytes count.
ghost use Rattle.std.specs.Prelude.{◌≡◌, ◌≤◌, true, take};
ghost use Rattle.readings.specs.Codes.{is_code};

mod methods;

#[derive(Clone, Copy)]
pub struct MeterCode {
    // A place for each byte that a code can have, and how many it has: a code needs no heap.
    bytes: [u8; 24],
    len: usize,
    ghost short: { len ≤ 24 },
    ghost printable: { is_code (take len bytes) ≡ true },
}
