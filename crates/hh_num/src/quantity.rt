//! Quantities of the market as scaled whole numbers. Each kind has a type of its own.

ghost use Rattle.std.specs.Prelude.{◌≡◌, ◌≤◌, ◌∷◌, ◌++◌, ℤ, ℕ, SomeIff, OnOk, OnErr, FitsSigned};
ghost use Rattle.std.specs.Int.{w64};
ghost use Rattle.std.proofs.Common.{rules};
ghost use Rattle.hh_num.specs.Fixed.{fixed_text, flush_right};
ghost use Rattle.hh_num.specs.Quantities.{amounts_of_cash, energies, multipliers, net_volumes, percentages, prices, volumes};
ghost use Rattle.hh_num.specs.Ranges.{IsBetween, fixed_between};

use crate::fixed::{read_fixed, write_field, write_fixed};
use std::alloc::AllocError;
use std::marker::{Model, PhantomData};

/// What a scaled number counts: how many decimals its text has, and its range in units.
pub trait Quantity {
    ghost decimals: { ℕ };

    ghost least: { ℤ };

    ghost most: { ℤ };

    /// The digits behind the point: a unit is 10^-decimals.
    fn decimals() -> u32
        ensures { result ≡ decimals };

    /// The least number of units.
    fn least() -> i64
        ensures { result ≡ least };

    /// The greatest number of units.
    fn most() -> i64
        ensures { result ≡ most };

    ghost few_decimals: { decimals ≤ 10 };

    ghost in_words: { FitsSigned w64 least × FitsSigned w64 most };
}

/// A whole number of units of one quantity, within its range. Contracts see the number.
#[derive(Clone, Copy, Debug, PartialEq, Eq, PartialOrd, Ord)]
pub struct Scaled<Q: Quantity> {
    units: i64,
    quantity: PhantomData<Q>,
}

impl<Q: Quantity> Model for Scaled<Q> {
    ghost Value = { ℤ };

    ghost view = { λ x. x.units };

    ghost invariant = { λ x. IsBetween Q.least Q.most x.units };

    ghost inverse = { λ z. record { units = z; quantity = record {} } };
}

impl<Q: Quantity> Scaled<Q> {
    /// The number with these units, or `None` if they are outside the range.
    pub fn new(units: i64) -> Option<Self>
        ensures { SomeIff result (IsBetween Q.least Q.most units) units }
    {
        if Q::least() <= units && units <= Q::most() {
            Some(Scaled::of(units))
        } else {
            None
        }
    }

    /// The number with these units, which must be in the range.
    pub fn of(units: i64) -> Self
        requires { IsBetween Q.least Q.most units }
        ensures { result ≡ units }
    {
        Scaled {
            units,
            quantity: PhantomData,
        }
    }

    /// The number of units.
    pub fn units(self) -> i64
        ensures value { result ≡ self }
        ensures range { IsBetween Q.least Q.most self }
    {
        self.units
    }

    /// The number that a decimal text writes, in the grammar of `read_fixed` and with at most the
    /// quantity's decimals. `None` for any other text, and if the number is out of the range.
    pub fn read(text: &[u8]) -> Option<Self>
        ensures { result ≡ fixed_between Q.decimals Q.least Q.most text.now }
    {
        Scaled::new(read_fixed(text, Q::decimals())?)
    }

    /// Appends the number's one spelling, with all its decimals. `Err` only if memory is refused:
    /// the text is then as it was.
    pub fn write_to(self, text: &mut Vec<u8>) -> Result<(), AllocError>
        ensures ok { OnOk result (text.new.items ≡ text.old.items ++ fixed_text Q.decimals self) }
        ensures err { OnErr result (text.new.items ≡ text.old.items) }
    {
        write_fixed(self.units, Q::decimals(), text)
    }

    /// Appends a mark, and behind it the number's one spelling, with blanks before it to fill a width of
    /// at most 39. `Err` only if memory is refused: the text is then as it was.
    pub fn write_field(self, mark: u8, width: usize, text: &mut Vec<u8>) -> Result<(), AllocError>
        requires { width ≤ 39 }
        ensures ok { OnOk result (text.new.items
            ≡ text.old.items ++ mark ∷ flush_right width (fixed_text Q.decimals self)) }
        ensures err { OnErr result (text.new.items ≡ text.old.items) }
    {
        write_field(self.units, Q::decimals(), mark, width, text)
    }
}

/// Volumes of energy: MWh with 3 decimals, at most 10,000 MWh in size, as whole kWh.
#[derive(Clone, Copy, Debug, PartialEq, Eq, PartialOrd, Ord)]
pub struct Volume;

impl Quantity for Volume {
    ghost decimals = { volumes.decimals };

    ghost least = { volumes.least };

    ghost most = { volumes.most };

    ghost few_decimals = { Prim.search rules };

    ghost in_words = { Prim.search rules };

    fn decimals() -> u32 {
        3
    }

    fn least() -> i64 {
        -10_000_000
    }

    fn most() -> i64 {
        10_000_000
    }
}

/// A volume in kWh.
pub type Kwh = Scaled<Volume>;

/// Net volumes of contracts: MWh with 3 decimals, at most 100,000,000 MWh in size, as whole kWh.
#[derive(Clone, Copy, Debug, PartialEq, Eq, PartialOrd, Ord)]
pub struct NetVolume;

impl Quantity for NetVolume {
    ghost decimals = { net_volumes.decimals };

    ghost least = { net_volumes.least };

    ghost most = { net_volumes.most };

    ghost few_decimals = { Prim.search rules };

    ghost in_words = { Prim.search rules };

    fn decimals() -> u32 {
        3
    }

    fn least() -> i64 {
        -100_000_000_000
    }

    fn most() -> i64 {
        100_000_000_000
    }
}

/// A net volume of contracts in kWh: what is sold less what is bought.
pub type NetKwh = Scaled<NetVolume>;

/// Settled energy: MWh with 10 decimals, as whole ticks of 10^-10 MWh.
#[derive(Clone, Copy, Debug, PartialEq, Eq, PartialOrd, Ord)]
pub struct Energy;

impl Quantity for Energy {
    ghost decimals = { energies.decimals };

    ghost least = { energies.least };

    ghost most = { energies.most };

    ghost few_decimals = { Prim.search rules };

    ghost in_words = { Prim.search rules };

    fn decimals() -> u32 {
        10
    }

    fn least() -> i64 {
        i64::MIN
    }

    fn most() -> i64 {
        i64::MAX
    }
}

/// An energy in ticks, 10^10 to the MWh, so that kWh times a scaled loss multiplier is ticks.
pub type Ticks = Scaled<Energy>;

/// Cash: whole pence, positive if the account pays.
#[derive(Clone, Copy, Debug, PartialEq, Eq, PartialOrd, Ord)]
pub struct Cash;

impl Quantity for Cash {
    ghost decimals = { amounts_of_cash.decimals };

    ghost least = { amounts_of_cash.least };

    ghost most = { amounts_of_cash.most };

    ghost few_decimals = { Prim.search rules };

    ghost in_words = { Prim.search rules };

    fn decimals() -> u32 {
        0
    }

    fn least() -> i64 {
        i64::MIN
    }

    fn most() -> i64 {
        i64::MAX
    }
}

/// An amount in pence.
pub type Pence = Scaled<Cash>;

/// Prices: pounds per MWh with 5 decimals, at most 99,999.99999 in size.
#[derive(Clone, Copy, Debug, PartialEq, Eq, PartialOrd, Ord)]
pub struct EnergyPrice;

impl Quantity for EnergyPrice {
    ghost decimals = { prices.decimals };

    ghost least = { prices.least };

    ghost most = { prices.most };

    ghost few_decimals = { Prim.search rules };

    ghost in_words = { Prim.search rules };

    fn decimals() -> u32 {
        5
    }

    fn least() -> i64 {
        -9_999_999_999
    }

    fn most() -> i64 {
        9_999_999_999
    }
}

/// A price in 10^-5 pound per MWh.
pub type Price = Scaled<EnergyPrice>;

/// Transmission loss multipliers: 7 decimals, 0 to 2.
#[derive(Clone, Copy, Debug, PartialEq, Eq, PartialOrd, Ord)]
pub struct LossMultiplier;

impl Quantity for LossMultiplier {
    ghost decimals = { multipliers.decimals };

    ghost least = { multipliers.least };

    ghost most = { multipliers.most };

    ghost few_decimals = { Prim.search rules };

    ghost in_words = { Prim.search rules };

    fn decimals() -> u32 {
        7
    }

    fn least() -> i64 {
        0
    }

    fn most() -> i64 {
        20_000_000
    }
}

/// A loss multiplier in 10^-7.
pub type Tlm = Scaled<LossMultiplier>;

/// Percentages: 5 decimals, 0 to 100.
#[derive(Clone, Copy, Debug, PartialEq, Eq, PartialOrd, Ord)]
pub struct Percentage;

impl Quantity for Percentage {
    ghost decimals = { percentages.decimals };

    ghost least = { percentages.least };

    ghost most = { percentages.most };

    ghost few_decimals = { Prim.search rules };

    ghost in_words = { Prim.search rules };

    fn decimals() -> u32 {
        5
    }

    fn least() -> i64 {
        0
    }

    fn most() -> i64 {
        10_000_000
    }
}

/// A percentage in 10^-5 percent.
pub type Percent = Scaled<Percentage>;
