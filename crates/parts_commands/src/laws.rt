//! Laws of what is joined: each is the contract of a function that does nothing.
ghost use Rattle.std.specs.Prelude.{◌≡◌, ℕ, List, map, All, Some};
ghost use Rattle.marc_types.specs.declared.entry.Entry.{Entry};
ghost use Rattle.marc_types.specs.declared.key.Key.{Key};
ghost use Rattle.entry_record.specs.History.{IsAdmitted};
ghost use Rattle.catalogue_rules.specs.Output.{all_keys, export_of, total_line};
ghost use Rattle.catalogue_rules.specs.Settle.{state_of};
ghost use Rattle.catalogue_parts.specs.declared.totals.Totals.{Totals};
ghost use Rattle.catalogue_parts.specs.Joined.{line_of_totals};
ghost use Rattle.catalogue_parts.specs.Parts.{ranges, no_records, IsJobOf, AreJobsOf};
ghost use Rattle.parts_commands.specs.Exports.{AreJoinedTo, ExportsDiffer};
ghost use Rattle.parts_commands.specs.Jobs.{AreRecords, AreReportsOfJobs, AreTexts};
ghost use Rattle.parts_commands.specs.Reports.{AreJoined, FileOf, ReportsDiffer};

/// The reports of jobs that took the parts of a history, and of one that took its authorities alone, can be joined, and what they come to
/// is told by the last line of the whole's report.
pub fn joined_reports_tell_the_whole()
    ensures line { (file : FileOf) (first : List ℕ) (names : List (List ℕ)) (t : Totals) (bounds : List Key) (whole none : List Entry) (jobs : List (List Entry))
        → All IsAdmitted whole → IsJobOf whole no_records none → AreJobsOf whole (ranges bounds) jobs → AreReportsOfJobs file first names none jobs
        → AreJoined file first names t → line_of_totals t ≡ total_line (state_of whole) }
    ensures joined { (file : FileOf) (first : List ℕ) (names : List (List ℕ)) (place : ℕ) (name : List ℕ) (bounds : List Key) (whole none : List Entry)
        (jobs : List (List Entry)) → All IsAdmitted whole → IsJobOf whole no_records none → AreJobsOf whole (ranges bounds) jobs
        → AreReportsOfJobs file first names none jobs → ReportsDiffer file first names place name → ⊥ }
{}

/// The exports of jobs that took the parts of a history can be joined, and what is joined of them is, byte for byte, the whole's export.
pub fn joined_exports_are_the_whole_export()
    ensures whole { (file : FileOf) (names : List (List ℕ)) (due : List ℕ) (bounds : List Key) (whole : List Entry) (jobs : List (List Entry))
        → All IsAdmitted whole → AreRecords (state_of whole) → AreJobsOf whole (ranges bounds) jobs
        → map file names ≡ map (λ job. Some (export_of all_keys (state_of job))) jobs
        → AreJoinedTo file names due → due ≡ export_of all_keys (state_of whole) }
    ensures joined { (file : FileOf) (names : List (List ℕ)) (place : ℕ) (name : List ℕ) (bounds : List Key) (whole : List Entry) (jobs : List (List Entry))
        → All IsAdmitted whole → AreRecords (state_of whole) → AreTexts (state_of whole) → AreJobsOf whole (ranges bounds) jobs
        → map file names ≡ map (λ job. Some (export_of all_keys (state_of job))) jobs
        → ExportsDiffer file names place name → ⊥ }
{}
