ghost use Rattle.std.specs.Prelude.{◌≡◌, ℕ, ◌+◌, ◌-◌, ◌<◌, ◌≤◌, ◌↔◌, List, length, take, drop, max, Option, Some, None, true, false, IsErr, IfOk, OnOk, OnErr};
ghost use Rattle.std.specs.Option.{option_map};
ghost use Rattle.outside.specs.Fault.{HasCause};
ghost use Rattle.outside.specs.Disk.{DiskView, longest_disk, longest_write, patch, Torn, TornCut, Follows, ContentFollows, NoNewImage, OnlyContent, Elapses, SameSyncs, SyncsNow, Unchanged};

use crate::Failed;

/// The most bytes that a disk has.
pub const LONGEST_DISK: u64 = 1 << 40;

/// The most bytes that one write takes.
pub const LONGEST_WRITE: u64 = 1 << 32;

/// Bytes that outlast a crash, as far as they are synced. A call that fails may have happened in any part.
pub trait Disk {
    // What a disk is, for the clauses: its content, and what a crash may leave.
    ghost seen: { Self → DiskView };

    /// How many bytes there are.
    fn len(&self) -> u64
        ensures { result ≡ (seen self.now).len };

    /// Moves the bytes from `at` on into the front of `buf`, and answers how many. `Ok(0)` is the end of the disk.
    fn read_at(&mut self, at: u64, buf: &mut [u8]) -> Result<usize, Failed>
        requires { 0 < length buf.old }

        // The bytes that were moved are those that stand there.
        ensures at_most { IfOk result (λ n. n ≤ length buf.new) }
        ensures there { IfOk result (λ n. n ≤ (seen self.old).len - at) }
        ensures bytes { IfOk result (λ n. (b : List ℕ) → (seen self.old).content ≡ Some b → take n buf.new ≡ take n (drop at b)) }
        ensures end { IfOk result (λ n. (n ≡ 0) ↔ ((seen self.old).len ≤ at)) }
        ensures unchanged { Unchanged (seen self.old) (seen self.new) }
        ensures cause { HasCause (seen self.old).faults (seen self.new).faults result };

    /// Writes the bytes from `at` on, at most [`LONGEST_WRITE`], over what is there and past the end. Until a sync succeeds, a crash may leave any
    /// bytes in their place. Where they would pass [`LONGEST_DISK`], it fails and changes nothing.
    fn write_at(&mut self, at: u64, bytes: &[u8]) -> Result<(), Failed>
        requires within { at ≤ (seen self.old).len }
        requires at_most { length bytes.now ≤ longest_write }
        ensures content { OnOk result ((seen self.new).content ≡ option_map (patch at bytes.now) (seen self.old).content) }
        ensures len { OnOk result ((seen self.new).len ≡ max (seen self.old).len (at + length bytes.now)) }
        ensures too_long { longest_disk < at + length bytes.now → IsErr result }
        ensures too_long_unchanged { longest_disk < at + length bytes.now → Unchanged (seen self.old) (seen self.new) }

        // A failed call may have happened in any part.
        ensures no_shorter { (seen self.old).len ≤ (seen self.new).len }
        ensures no_longer { (seen self.new).len ≤ max (seen self.old).len (at + length bytes.now) }
        ensures torn { OnErr result (ContentFollows (Torn at (length bytes.now)) (seen self.old) (seen self.new)) }
        ensures crash { Follows (Torn at (length bytes.now)) (seen self.old) (seen self.new) }
        ensures time { Elapses (seen self.old) (seen self.new) }
        ensures syncs { SameSyncs (seen self.old) (seen self.new) }
        ensures cause { HasCause (seen self.old).faults (seen self.new).faults result };

    /// Cuts the bytes from `len` on off. Until a sync succeeds, a crash may leave any bytes in their place.
    fn cut(&mut self, len: u64) -> Result<(), Failed>
        requires { len ≤ (seen self.old).len }
        ensures content { OnOk result ((seen self.new).content ≡ option_map (take len) (seen self.old).content) }
        ensures len { OnOk result ((seen self.new).len ≡ len) }

        // A failed call may have happened in any part.
        ensures no_shorter { len ≤ (seen self.new).len }
        ensures no_longer { (seen self.new).len ≤ (seen self.old).len }
        ensures torn { OnErr result (ContentFollows (TornCut len) (seen self.old) (seen self.new)) }
        ensures crash { Follows (TornCut len) (seen self.old) (seen self.new) }
        ensures time { Elapses (seen self.old) (seen self.new) }
        ensures syncs { SameSyncs (seen self.old) (seen self.new) }
        ensures cause { HasCause (seen self.old).faults (seen self.new).faults result };

    /// After `Ok` a crash leaves the content, and nothing else.
    fn sync(&mut self) -> Result<(), Failed>
        ensures durable { OnOk result (OnlyContent (seen self.new)) }
        ensures synced { OnOk result (SyncsNow (seen self.old) (seen self.new)) }
        ensures failed { OnErr result (SameSyncs (seen self.old) (seen self.new)) }
        ensures content { (seen self.new).content ≡ (seen self.old).content }
        ensures len { (seen self.new).len ≡ (seen self.old).len }
        ensures crash { NoNewImage (seen self.old) (seen self.new) }
        ensures time { Elapses (seen self.old) (seen self.new) }
        ensures cause { HasCause (seen self.old).faults (seen self.new).faults result };

    // No disk has more bytes than the most.
    ghost bounded: { (disk : Self) → (seen disk).len ≤ longest_disk };

    // The content has as many bytes as the disk, and is what a crash may leave.
    ghost content_len: { (disk : Self) (b : List ℕ) → (seen disk).content ≡ Some b → length b ≡ (seen disk).len };

    ghost content_is_image: { (disk : Self) (b : List ℕ) → (seen disk).content ≡ Some b → (seen disk).image b };

    // A disk that tells no moments leaves its content, and has no syncs.
    ghost undated_content: { (disk : Self) → (seen disk).dated ≡ false → OnlyContent (seen disk) };

    ghost undated_syncs: { (disk : Self) (t : ℕ) → (seen disk).dated ≡ false → (seen disk).synced t ≡ None };

    // This moment is one of those since an earlier one, and the last of them.
    ghost counts_now: { (disk : Self) (t : ℕ) (c : List ℕ) → (seen disk).dated ≡ true → t ≤ (seen disk).moment
        → (seen disk).image c → (seen disk).left t c };

    ghost only_now: { (disk : Self) (c : List ℕ) → (seen disk).left (seen disk).moment c → (seen disk).image c };

    // What a crash since a later moment may leave, a crash since an earlier one may leave.
    ghost left_since_earlier: { (disk : Self) (t u : ℕ) (c : List ℕ) → t ≤ u → (seen disk).left u c → (seen disk).left t c };

    // A sync since a moment comes after it, and the first is no later than the first since any later moment.
    ghost synced_after: { (disk : Self) (t s : ℕ) → (seen disk).synced t ≡ Some s → t < s };

    ghost synced_by_now: { (disk : Self) (t s : ℕ) → (seen disk).synced t ≡ Some s → s ≤ (seen disk).moment };

    ghost synced_first: { (disk : Self) (t u r : ℕ) → t ≤ u → (seen disk).synced u ≡ Some r
        → (s : ℕ) × ((seen disk).synced t ≡ Some s) × (s ≤ r) };
}
