//! Laws of the index: how it follows the authorities of a catalogue. Each is the contract of a function that does nothing.
ghost use Rattle.std.specs.Prelude.{◌≡◌, ℕ, List, [], None};
ghost use Rattle.marc_types.specs.declared.form.Form.{Form};
ghost use Rattle.marc_types.specs.declared.key.Key.{Key};
ghost use Rattle.form_index.specs.Index.{Indexed, IsInOrder, Taken, TakesOut, no_index, row_under};
ghost use Rattle.catalogue_rules.specs.Settle.{Arrival};
ghost use Rattle.catalogue_rules.specs.State.{State};
ghost use Rattle.catalogue_rules.specs.Valid.{IsAscending};
ghost use Rattle.catalogue_tables.specs.Following.{FollowsAuthority, TellsAuthorities};
ghost use Rattle.catalogue_tables.specs.IndexLaws.{FollowsByPutting, FollowsTheSecond, PlacingExchanges, StaysToldWithNumbers, StaysToldWithRows, TellsBehindAuthority, TellsBehindEntry, TellsRowsOfState, WayBackStays};

/// An index without rows tells of nobody.
pub fn a_blank_index_tells_of_nobody()
    ensures { (names : List Form) (keys : List Key) (x : Indexed) → x ≡ no_index → IsInOrder keys x → TellsAuthorities names keys x [] }
{}

/// What the index tells stays while forms and keys get numbers.
pub fn what_is_told_of_authorities_stays()
    ensures { StaysToldWithNumbers }
{}

/// A row that was taken out is nobody's.
pub fn a_taken_row_is_nobodys()
    ensures { (names : List Form) (keys : List Key) (row : Taken) (old new : Indexed)
        → TakesOut keys row old new → FollowsAuthority names row.number None old new }
{}

/// Where no row stands, there is nobody to follow.
pub fn a_missing_row_is_nobodys()
    ensures { (names : List Form) (number : ℕ) (x : Indexed) → row_under number x ≡ None → FollowsAuthority names number None x x }
{}

/// A row that was put is the authority's whose forms it has.
pub fn a_put_row_is_its_authoritys()
    ensures { FollowsByPutting }
{}

/// Of two exchanges under one number the second counts.
pub fn the_second_exchange_counts()
    ensures { FollowsTheSecond }
{}

/// An index that told of the authorities before tells of those now, once it has followed the one that has changed.
pub fn the_index_follows_an_authority()
    ensures { TellsBehindAuthority }
{}

/// Once a record is in its place, or gone, the authority under its key is the one that it brought, and the others are as they were.
pub fn placing_a_record_exchanges_its_authority()
    ensures { (a : Arrival) (s : State) → IsAscending s.authorities → PlacingExchanges a s }
{}

/// An index that told of a state's authorities tells of those of the state with an authority's record in its place, or gone, once it
/// has followed the entry. Forms may have got numbers.
pub fn the_index_follows_an_entry()
    ensures { TellsBehindEntry }
{}

/// What the index tells stays where no row changes.
pub fn what_is_told_stays_with_the_rows()
    ensures { StaysToldWithRows }
{}

/// An index that tells of a state's authorities tells of their rows: of all, and of those with a bare heading.
pub fn the_index_tells_the_rows_of_a_state()
    ensures { TellsRowsOfState }
{}

/// A way back stays one while keys get numbers.
pub fn a_way_back_stays()
    ensures { WayBackStays }
{}
