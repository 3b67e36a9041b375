// A call for demand response: a day, a kind, a start hour and a length in hours. Only `Call::new` makes one.
ghost use Rattle.std.specs.Prelude.{◌+◌, ◌≤◌};

mod methods;

pub use methods::call_on;

// A call of the programme, or of the flexible layer over it.
#[derive(Clone, Copy, PartialEq, Eq, Debug)]
pub enum CallKind {
    Programme = 1,
    Flexible = 2,
}

#[derive(Clone, Copy)]
pub struct Call {
    day: u32,
    kind: CallKind,
    start: u8,
    hours: u8,
    ghost known: { day ≤ 36524 },
    ghost start_from: { 4 ≤ start },
    ghost start_to: { start ≤ 22 },
    ghost hours_from: { 2 ≤ hours },
    ghost hours_to: { hours ≤ 6 },
    ghost ends: { start + hours ≤ 24 },
}
