ghost use Rattle.std.specs.Prelude.{◌≡◌, ℕ, List};
ghost use Rattle.marc8_latin.specs.declared.fault.Marc8Fault.{Marc8Fault};
ghost use Rattle.marc8_latin.specs.Text.{IsText, IsFault};

/// Bytes have one reading: one text, or one fault at one place.
pub fn one_reading()
    ensures text { (bytes first second : List ℕ) → IsText bytes first → IsText bytes second → first ≡ second }
    ensures kind { (bytes text : List ℕ) (fault : Marc8Fault) → IsText bytes text → ¬ (IsFault bytes fault) }
    ensures fault { (bytes : List ℕ) (first second : Marc8Fault) → IsFault bytes first → IsFault bytes second → first ≡ second }
{}
