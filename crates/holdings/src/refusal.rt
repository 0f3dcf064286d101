ghost use Rattle.std.specs.Prelude.{◌≡◌};
ghost use Rattle.holdings.specs.Refusals.{number_of_refusal, fault_of_record};
ghost use Rattle.holdings.specs.declared.refusal.HoldingFault.TheVariants.{NoMemory as memory};

use marc_types::{NoMemory, RecordFault, Refusal};

/// Why a record isn't taken as a holding.
#[derive(Clone, Copy, Debug, PartialEq, Eq)]
pub enum HoldingRefusal {
    /// A reason that there is against other records too.
    OfRecord(Refusal),
    /// It names no bibliographic record that it could belong to.
    NoTarget,
}

impl HoldingRefusal {
    /// The number that the console prints.
    pub fn number(&self) -> u8
        ensures { result ≡ number_of_refusal self.now }
    {
        match self {
            HoldingRefusal::OfRecord(refusal) => refusal.number(),
            HoldingRefusal::NoTarget => 17,
        }
    }
}

/// Why no holding came of a record: it is refused, or memory ran out.
#[derive(Clone, Copy, Debug, PartialEq, Eq)]
pub enum HoldingFault {
    Refused(HoldingRefusal),
    NoMemory,
}

impl HoldingFault {
    ghost use Rattle.holdings.specs.declared.refusal.HoldingFault.TheVariants.{Refused};
    ghost use Rattle.holdings.specs.declared.refusal.HoldingRefusal.TheVariants.{OfRecord};

    /// The refusal for a reason that there is against other records too.
    pub(crate) fn of_record(refusal: Refusal) -> HoldingFault
        ensures { result ≡ Refused (OfRecord refusal) }
    {
        HoldingFault::Refused(HoldingRefusal::OfRecord(refusal))
    }
}

impl From<NoMemory> for HoldingFault {
    ghost from_gives = { λ _ fault. fault ≡ memory };

    fn from(_error: NoMemory) -> HoldingFault {
        HoldingFault::NoMemory
    }
}

impl From<RecordFault> for HoldingFault {
    ghost from_gives = { λ of_record fault. fault ≡ fault_of_record of_record };

    fn from(fault: RecordFault) -> HoldingFault {
        match fault {
            RecordFault::Refused(refusal) => HoldingFault::of_record(refusal),
            RecordFault::NoMemory => HoldingFault::NoMemory,
        }
    }
}
