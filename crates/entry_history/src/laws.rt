//! Laws of payloads and histories: each is the contract of a function that does nothing, or only looks at the texts of a record.
ghost use Rattle.std.specs.Prelude.{◌≡◌, ℕ, List, [], ◌∷◌, ◌++◌, ◌<◌, ◌^◌, All};
ghost use Rattle.marc_types.specs.declared.entry.Entry.{Entry};
ghost use Rattle.entry_record.specs.History.{IsAdmitted};
ghost use Rattle.entry_history.specs.Format.{payload_of};
ghost use Rattle.entry_history.specs.Payloads.{IsEntry, CanFollow, Holds, IsHistory};

use entry_record::Prepared;
use marc_types::Entry;
use reading::laws::a_written_record_reads_as_itself;

/// A payload that is valid behind some entries holds one list of entries.
#[tactic(auto, using(crate::proofs::Histories::holds_once))]
pub fn a_payload_holds_one_list()
    ensures { (version : ℕ) (before entries others : List Entry) (payload : List ℕ) →
        Holds version before entries payload → Holds version before others payload → entries ≡ others }
{}

/// Payloads have one history.
#[tactic(auto, using(crate::proofs::Histories::history_once))]
pub fn payloads_have_one_history()
    ensures { (version : ℕ) (before all others : List Entry) (payloads : List (List ℕ)) →
        IsHistory version before payloads all → IsHistory version before payloads others → all ≡ others }
{}

/// One more payload that is valid behind a history adds its entries to it.
#[tactic(auto, using(crate::proofs::Histories::history_more))]
pub fn one_more_payload_adds_its_entries()
    ensures { (version : ℕ) (before all entries : List Entry) (payloads : List (List ℕ)) (payload : List ℕ) →
        IsHistory version before payloads all → Holds version all entries payload →
        IsHistory version before (payloads ++ payload ∷ []) (all ++ entries) }
{}

/// What is read back of an entry's payload is the entry: behind each history that its run can follow the payload is valid and
/// holds the entry, and nothing else.
#[tactic(auto, using(crate::proofs::Alone::held_alone, crate::proofs::Alone::read_back))]
pub fn a_payload_is_read_as_its_entry()
    ensures holds { (before : List Entry) (e : Entry) → IsEntry e → CanFollow before e.run → Holds 2 before (e ∷ []) (payload_of e) }
    ensures alone { (before entries : List Entry) (e : Entry) → IsEntry e → CanFollow before e.run
        → Holds 2 before entries (payload_of e) → entries ≡ e ∷ [] }
{}

/// Entries of one payload are one entry.
#[tactic(auto, using(crate::proofs::Alone::payload_once))]
pub fn a_payload_is_of_one_entry()
    ensures { (one other : Entry) → IsEntry one → IsEntry other → payload_of one ≡ payload_of other → one ≡ other }
{}

fn numbers_fit(run: u64, ordinal: u64, loader: u32)
    ensures run { run < 2 ^ 64 }
    ensures ordinal { ordinal < 2 ^ 64 }
    ensures loader { loader < 2 ^ 32 }
{
    let _numbers = (run, ordinal, loader);
}

/// An admitted entry can stand in a payload. This is a law for proofs; the call only looks at the entry.
#[tactic(auto, using(entry_record::proofs::Admitted::admitted_fits))]
pub fn can_stand_in_a_payload(entry: &Entry)
    requires { IsAdmitted entry.now }
    ensures { IsEntry entry.now }
{
    numbers_fit(entry.run, entry.ordinal, entry.loader);
    a_written_record_reads_as_itself(&entry.rec);
}

/// Each admitted entry can stand in a payload. This is a law for proofs; the call only looks at the entries.
pub fn each_can_stand_in_a_payload(items: &[Prepared])
    ensures { All IsEntry items.now }
{
    for item in items {
        can_stand_in_a_payload(item.entry());
    }
}
