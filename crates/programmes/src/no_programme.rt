// No programme: nothing is taken, refused, credited or charged.
ghost use Rattle.programmes.specs.Bids.{no_programme};
ghost use Rattle.programmes.specs.BidLaws.{no_programme_laws, no_programme_bare};

use crate::metered::Metered;
use crate::programme::{BareProgramme, Programme};
use crate::site::Site;
use books::{Call, CallKind};
use calendar::Refusal;

#[derive(Clone, Copy, PartialEq, Eq, Debug)]
pub struct NoProgramme;

impl Programme for NoProgramme {
    ghost meaning = { λ _. no_programme };

    ghost lawful = { λ p. no_programme_laws };

    fn takes(&self, _kind: CallKind) -> bool {
        false
    }

    fn refusal(&self, _site: &Site<'_>) -> Option<Refusal> {
        None
    }

    fn own_call(&self, _site: &Site<'_>, _day: u8) -> Option<Call> {
        None
    }

    fn baseline(&self, _metered: &Metered<'_>, _day: u8) -> u64 {
        0
    }

    fn reduction(&self) -> u32 {
        0
    }

    fn price_past(&self) -> u32 {
        0
    }

    fn settle(&self, _metered: &Metered<'_>) -> (u64, u64) {
        (0, 0)
    }
}

impl BareProgramme for NoProgramme {
    ghost bare = { λ p. no_programme_bare };
}
