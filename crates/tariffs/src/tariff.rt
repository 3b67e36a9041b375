// What every tariff answers. A tariff means a value, its answers as a record, and code above it rests on the laws of that value alone.
ghost use Rattle.std.specs.Prelude.{◌≡◌};
ghost use Rattle.tariffs.specs.Meaning.{TariffMeaning, TariffLaws};

use crate::rank::{ByRank, Rank};
use calendar::{DayKind, Season};

pub trait Tariff {
    ghost meaning: { Self → TariffMeaning };

    // The rank of a slot of a day.
    fn rank(&self, season: Season, kind: DayKind, slot: usize) -> Rank
        ensures { result ≡ (meaning self.now).rank season kind slot };

    // What the four rank energies, in quarters, cost in units.
    fn energy_charge(&self, season: Season, energies: ByRank) -> u64
        ensures { result ≡ (meaning self.now).energy_charge season energies };

    // The household price in cents a month.
    fn household_price(&self) -> u32
        ensures { result ≡ (meaning self.now).household_price };

    ghost lawful: { (t : Self) → TariffLaws (meaning t) };
}
