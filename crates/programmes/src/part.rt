// A set of slots of a day: those of a call, or a part of them.
ghost use Rattle.std.specs.Prelude.{◌≡◌};
ghost use Rattle.books.specs.Calls.{first_slot, end_slot};
ghost use Rattle.programmes.specs.Parts.{call_of, holds};

use books::Call;

#[derive(Clone, Copy)]
pub enum Part {
    // all of a call's slots
    Whole(Call),
    // those that it shares with another call, if there is another
    Shared(Call, Option<Call>),
    // those that it does not share
    Apart(Call, Option<Call>),
}

impl Part {
    // The call whose slots it has, or some of them.
    fn call(&self) -> Call
        ensures { result ≡ call_of self.now }
    {
        match self {
            Part::Whole(call) | Part::Shared(call, _) | Part::Apart(call, _) => *call,
        }
    }

    // The first slot of its call. No slot before it belongs to this part.
    pub(crate) fn first_slot(&self) -> u8
        ensures { result ≡ first_slot (call_of self.now) }
    {
        self.call().first_slot()
    }

    // The slot behind the last of its call. No slot from it on belongs to this part.
    pub(crate) fn end_slot(&self) -> u8
        ensures { result ≡ end_slot (call_of self.now) }
    {
        self.call().end_slot()
    }

    // Whether a slot belongs to this part.
    pub fn holds(&self, slot: u8) -> bool
        ensures { result ≡ holds self.now slot }
    {
        match self {
            Part::Whole(call) => call.covers(slot),
            Part::Shared(call, other) => {
                call.covers(slot) && other.is_some_and(|other| other.covers(slot))
            }
            Part::Apart(call, other) => {
                call.covers(slot) && !other.is_some_and(|other| other.covers(slot))
            }
        }
    }
}
