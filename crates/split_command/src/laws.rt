//! Laws of a split: each is the contract of a function that does nothing.
ghost use Rattle.std.specs.Prelude.{◌≡◌, ℕ, ◌≤◌, ◌==◌, List, [], length, Some, slice_get};
ghost use Rattle.marc_types.specs.declared.key.Key.{Key};
ghost use Rattle.marc_stream.specs.Pieces.{Item, items};
ghost use Rattle.file_entries.specs.Files.{IsJudged};
ghost use Rattle.file_entries.specs.declared.refused.RefusedItem.{RefusedItem};
ghost use Rattle.catalogue_parts.specs.Parts.{Part, ranges};
ghost use Rattle.split_command.specs.Cut.{IsCut};
ghost use Rattle.split_command.specs.Shares.{Piece, own, dealt, entries_of, numbered, part_number};

/// What a file is cut into is its judgement: the entries of its pieces are the accepted ones, and the refused items are the same.
pub fn a_cut_is_a_judgement()
    ensures { (library : List ℕ) (all : List Item) (pieces : List Piece) (refused : List RefusedItem)
        → IsCut library all pieces refused → IsJudged library 0 all (entries_of pieces) refused }
{}

/// The file of a share, read by itself, has the accepted entries that are the share's own, up to their numbers, in their order, and no
/// other; and nothing in it is refused.
pub fn a_share_is_read_as_what_is_its_own()
    ensures { (library bytes : List ℕ) (pieces : List Piece) (refused : List RefusedItem) (bounds : List Key) (share : ℕ)
        → IsCut library (items bytes) pieces refused
        → IsJudged library 0 (items (dealt bounds share pieces)) (numbered 1 (entries_of (own bounds share pieces))) [] }
{}

/// A key is that of the part which has its number, and of no other; and there is such a part.
pub fn a_key_has_one_part()
    ensures own { (bounds : List Key) (part : ℕ) (mine : Part) (key : Key) → slice_get (ranges bounds) part ≡ Some mine
        → mine key ≡ (part_number bounds key == part) }
    ensures within { (bounds : List Key) (key : Key) → part_number bounds key ≤ length bounds }
{}
