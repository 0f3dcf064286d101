//! Laws of parts: each is the contract of a function that does nothing.
ghost use Rattle.std.specs.Prelude.{◌≡◌, ℕ, ◌+◌, ◌*◌, ◌≤◌, Bool, List, length, map, All, None, sum, if◌then◌else◌};
ghost use Rattle.std.specs.List.{flat_map, count_by};
ghost use Rattle.marc_types.specs.declared.key.Class.TheVariants.{Bibliographic};
ghost use Rattle.marc_types.specs.declared.key.Key.{Key};
ghost use Rattle.marc_types.specs.declared.entry.Entry.{Entry};
ghost use Rattle.entry_record.specs.History.{IsAdmitted};
ghost use Rattle.catalogue_rules.specs.State.{State, linkable_authorities};
ghost use Rattle.catalogue_rules.specs.Settle.{state_of};
ghost use Rattle.catalogue_rules.specs.Receipt.{Standing, kept_under};
ghost use Rattle.catalogue_rules.specs.Output.{export_of, report_of, ambiguous_lines, awaiting_lines, shared_lines, cross_lines, total_line, count_all};
ghost use Rattle.catalogue_parts.specs.Parts.{cut, ranges, PartJob, InParts, TakesNone, AgreeByKeys};
ghost use Rattle.catalogue_parts.specs.Joined.{joined_number, joined_report, line_of_totals, totals_of, AreJoined, AreCounted, HaveTotals, TellTogether};

/// Bounds make one part more than they are, and each key is in exactly one of these parts, whatever the bounds are.
pub fn bounds_make_parts()
    ensures many { (bounds : List Key) → length (ranges bounds) ≡ length bounds + 1 }
    ensures one { (bounds : List Key) (key : Key) → count_by (λ mine. mine key) (ranges bounds) ≡ 1 }
{}

/// A job that takes the entries of a part, in their order, comes to that part of the whole's state: all authorities, and the part's
/// bibliographic records, each with the same fields and links. Its loaders, its runs and the numbers of its pieces don't matter.
pub fn a_job_comes_to_its_part_of_the_state()
    ensures { (j : PartJob) → state_of j.job ≡ cut j.mine (state_of j.whole) }
{}

/// So the authorities, their headings and what fields can be linked to are the same in each part.
pub fn each_part_has_all_authorities()
    ensures records { (j : PartJob) → (state_of j.job).authorities ≡ (state_of j.whole).authorities }
    ensures headings { (j : PartJob) → linkable_authorities (state_of j.job) ≡ linkable_authorities (state_of j.whole) }
{}

/// And a bibliographic record stands in its part as it stands in the whole, field by field and link by link, and in no other.
pub fn a_record_stands_in_its_part_alone()
    ensures { (j : PartJob) (key : Key) → kept_under Bibliographic key (state_of j.job)
        ≡ (if j.mine key then kept_under Bibliographic key (state_of j.whole) else None) }
{}

/// The rows of the parts, one part after the other, are the whole's.
pub fn rows_are_joined()
    ensures { (p : InParts) → flat_map (λ job. (state_of job).bibliographic) p.jobs ≡ (state_of p.whole).bibliographic }
{}

/// The exports of the parts, joined, are byte for byte the whole's: what stands in each, which is the export of a job that takes no
/// bibliographic record, once, and then what each has behind it.
pub fn exports_are_joined()
    ensures { (keep : Key → Bool) (p : InParts) (none : List Entry) → TakesNone p none → AreJoined (export_of keep) p none }
{}

/// The lines of ambiguous headings, and of those that await a key, are joined as exports are.
pub fn lines_are_joined()
    ensures ambiguous { (p : InParts) (none : List Entry) → TakesNone p none → AreJoined ambiguous_lines p none }
    ensures awaiting { (p : InParts) (none : List Entry) → TakesNone p none → AreJoined awaiting_lines p none }
{}

/// The lines of authorities that share a form, or are found under each other's, are the same in each part.
pub fn lines_of_authorities_are_the_same()
    ensures shared { (j : PartJob) → shared_lines (linkable_authorities (state_of j.job)) ≡ shared_lines (linkable_authorities (state_of j.whole)) }
    ensures cross { (j : PartJob) → cross_lines (linkable_authorities (state_of j.job)) ≡ cross_lines (linkable_authorities (state_of j.whole)) }
{}

/// How many headings stand so in the whole: those of the authorities once, and of each part what it has beyond them.
pub fn headings_are_counted_together()
    ensures { (test : Standing → Bool) (p : InParts) (none : List Entry) → TakesNone p none → AreCounted (count_all test) p none }
{}

/// So the numbers of the whole's last line come from those of the parts' reports, and of the report of the authorities alone.
pub fn totals_are_joined()
    ensures { (p : InParts) (none : List Entry) → TakesNone p none → HaveTotals p none }
{}

/// The last line of a report tells these numbers.
pub fn a_report_tells_its_totals()
    ensures { (s : State) → total_line s ≡ line_of_totals (totals_of s) }
{}

/// The whole report is made of these: lines joined, lines that every part has, and the line of the joined numbers.
pub fn reports_are_joined()
    ensures { (p : InParts) (none : List Entry) → TakesNone p none
        → joined_report (state_of none) (map state_of p.jobs) ≡ report_of (state_of p.whole) }
{}

/// A joined number is the sum of the parts' numbers, less what stands in all of them, which the sum has once for each part but one more.
#[tactic(auto, using(crate::proofs::Joined::number_is_sum))]
pub fn a_joined_number_is_a_sum()
    ensures { (shared : ℕ) (numbers : List ℕ) → All (λ n. shared ≤ n) numbers
        → joined_number shared numbers + length numbers * shared ≡ shared + sum numbers }
{}

/// Two histories that have, for each key, its bibliographic entries and all authorities in one order have one state. So records of
/// different keys may be loaded side by side, in whatever turn, where the authorities come in one order before them.
#[tactic(auto, using(crate::proofs::Same::same_state))]
pub fn keys_apart_may_come_in_any_turn()
    ensures { (one other : List Entry) → All IsAdmitted one → All IsAdmitted other → AgreeByKeys one other → state_of one ≡ state_of other }
{}

/// Of bibliographic records that come behind a history, the commits tell the same of their own headings in the parts, summed, as in the
/// whole: how many are linked, ambiguous and unlinked.
pub fn commits_tell_the_same_together()
    ensures linked { TellTogether (λ r. r.linked) }
    ensures ambiguous { TellTogether (λ r. r.ambiguous) }
    ensures unlinked { TellTogether (λ r. r.unlinked) }
{}
