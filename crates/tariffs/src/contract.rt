// What a contract tariff answers beyond a tariff. As with a tariff, code above it rests on the laws of its meaning alone.
ghost use Rattle.std.specs.Prelude.{◌≡◌};
ghost use Rattle.tariffs.specs.declared.rank.Rank.TheVariants.{OffPeak};
ghost use Rattle.tariffs.specs.Contract.{ContractMeaning, ContractLaws, rank_of_kind, saturday_rank};

use crate::capacities::Capacities;
use crate::rank::{ByRank, Rank};
use crate::tariff::Tariff;
use calendar::{DayKind, Season};

pub trait ContractTariff: Tariff {
    ghost contract: { Self → ContractMeaning };

    // What each rank may draw under capacities, in kW. Season and capacities stand side by side here and below: one comes with the month and the other
    // with the contract, and a value of both would only be made for each question anew.
    fn allowances(&self, season: Season, capacities: Capacities) -> ByRank
        ensures { result ≡ (contract self.now).allowances season capacities };

    // What capacities cost in units.
    fn capacity_charge(&self, season: Season, capacities: Capacities) -> u64
        ensures { result ≡ (contract self.now).capacity_charge season capacities };

    // The price of an excess in each rank, in cents for each kW.
    fn excess_prices(&self, season: Season) -> ByRank
        ensures { result ≡ (contract self.now).excess_prices season };

    ghost contract_lawful: { (t : Self) → ContractLaws (contract t) };
}

// The rank of a slot of a Saturday, the same in every contract tariff.
fn saturday_rank(slot: usize) -> Rank
    ensures { result ≡ saturday_rank slot }
{
    match slot {
        30..=89 => Rank::SaturdaySemiPeak,
        _ => Rank::OffPeak,
    }
}

// The rank of a slot of a day that is no working day, the same in every contract tariff: what H3 and L2 share. The rank on a working day is no argument,
// since it would then be worked out for every day.
pub(crate) fn resting_rank(kind: DayKind, slot: usize) -> Rank
    ensures { result ≡ rank_of_kind OffPeak kind slot }
{
    match kind {
        DayKind::Saturday => saturday_rank(slot),
        _ => Rank::OffPeak,
    }
}
