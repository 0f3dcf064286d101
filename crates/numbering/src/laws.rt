//! Laws of numbers: each is the contract of a function that does nothing.
ghost use Rattle.std.specs.Prelude.{◌≡◌, ◌==◌, true, Some, slice_get, IsSomeAnd};
ghost use Rattle.std.specs.List.{IsDistinct};
ghost use Rattle.numbering.specs.Numbers.{is_known, number_of, IsNumberOf};

use crate::Numbering;
use std::hash::Hash;

/// Numbers tell things apart: a known thing has the same number as any thing that is the same, and as no other.
pub fn numbers_tell_things_apart<T: Eq + Hash>(numbering: &Numbering<T>, thing: &T, other: &T)
    requires { is_known T.eq numbering.now thing.now ≡ true }
    ensures { (number_of T.eq numbering.now thing.now == number_of T.eq numbering.now other.now) ≡ T.eq thing.now other.now }
{}

/// At each place stands the thing that has the place as its number.
pub fn each_place_is_a_number<T: Eq + Hash>(numbering: &Numbering<T>, number: u32, thing: &T)
    requires distinct { IsDistinct T.eq numbering.now }
    requires placed { slice_get numbering.now number ≡ Some thing.now }
    ensures { IsNumberOf T.eq numbering.now thing.now number }
{}

/// At the number of a known thing stands one that is the same.
pub fn each_number_is_a_place<T: Eq + Hash>(numbering: &Numbering<T>, thing: &T)
    requires { is_known T.eq numbering.now thing.now ≡ true }
    ensures { IsSomeAnd (slice_get numbering.now (number_of T.eq numbering.now thing.now)) (λ found. T.eq thing.now found ≡ true) }
{}
