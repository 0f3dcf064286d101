ghost use Rattle.std.specs.Prelude.{◌≡◌, ◌≢◌, ℕ, ◌+◌, ◌-◌, ◌<◌, ◌≤◌, ◌||◌, not, nat_eq, nat_lt, List, length, take, drop, min, max, Some, IsOk, IfOk, OnOk, OnErr, is_err, IsErr, ◌↔◌};
ghost use Rattle.std.specs.Option.{option_map};
ghost use Rattle.outside.specs.Disk.{longest_disk, longest_write, patch, Torn, TornCut, Follows, ContentFollows, NoNewImage, Elapses, SameSyncs, SyncsNow, OnlyContent, Unchanged};
ghost use Rattle.outside.specs.Fault.{HasCause, counted};

use crate::held::Held;
use outside::{Disk, Failed, NoMemory, copy_front};
use std::alloc::Global;

/// A disk in memory with room for `ROOM` bytes, which fails for want of room, and after that. It tells its content, and no moments.
#[derive(Debug, Drop)]
pub struct SureDisk<const ROOM: usize> {
    held: Held<ROOM>,
    faults: u64,
    ghost full: { faults ≢ 0 → length held.buffer.items ≡ ROOM },
    ghost short: { ROOM + longest_write ≤ longest_disk },
}

impl<const ROOM: usize> SureDisk<ROOM> {
    ghost use Rattle.outside_sure.specs.SureDisk.{disk_state};

    /// A disk of these bytes; takes its memory here.
    pub fn new(alloc: Global, bytes: &[u8]) -> Result<Self, NoMemory>
        requires within { length bytes.now ≤ ROOM }
        requires short { ROOM + longest_write ≤ longest_disk }
        ensures { IfOk result (λ disk. disk_state disk ≡ record { bytes = bytes.now; faults = 0 }) }
    {
        Ok(SureDisk {
            held: Held::of_bytes(alloc, bytes)?,
            faults: 0,
        })
    }

    /// A disk of what is held; takes no memory.
    pub(crate) fn of_held(held: Held<ROOM>) -> Self
        requires { ROOM + longest_write ≤ longest_disk }
        ensures { disk_state result ≡ record { bytes = held.entry.buffer.items; faults = 0 } }
    {
        SureDisk { held, faults: 0 }
    }

    pub(crate) fn into_held(self) -> Held<ROOM>
        ensures { result ≡ self.entry.held }
    {
        self.held
    }

    /// What it has.
    pub fn bytes(&self) -> &[u8]
        ensures { result.now ≡ (disk_state self.now).bytes }
    {
        self.held.bytes()
    }

    /// The faults so far.
    pub fn faults(&self) -> u64
        ensures { result ≡ (disk_state self.now).faults }
    {
        self.faults
    }
}

impl<const ROOM: usize> Disk for SureDisk<ROOM> {
    ghost use Rattle.outside_sure.specs.SureDisk.{disk_state, sure_disk_view};
    ghost use Rattle.outside_sure.specs.SureLaws as laws;
    ghost use Rattle.outside.proofs.Disks.{told_len};
    ghost use Rattle.std.proofs.Common.{refl, arith};

    ghost seen = { sure_disk_view };

    fn len(&self) -> u64 {
        self.held.len() as u64
    }

    #[tactic(auto, using(crate::specs::SureLaws::unchanged))]
    fn read_at(&mut self, at: u64, buf: &mut [u8]) -> Result<usize, Failed>
        requires { 0 < length buf.old }
        ensures at_most { IfOk result (λ n. n ≤ length buf.new) }
        ensures there { IfOk result (λ n. n ≤ (sure_disk_view self.old).len - at) }
        ensures bytes { IfOk result (λ n. (b : List ℕ) → (sure_disk_view self.old).content ≡ Some b → take n buf.new ≡ take n (drop at b)) }
        ensures end { IfOk result (λ n. (n ≡ 0) ↔ ((sure_disk_view self.old).len ≤ at)) }
        ensures unchanged { Unchanged (sure_disk_view self.old) (sure_disk_view self.new) }
        ensures cause { HasCause (sure_disk_view self.old).faults (sure_disk_view self.new).faults result }

        // It never fails, and gives all that the buffer takes.
        ensures ok { IsOk result }
        ensures count { IfOk result (λ n. n ≡ min (length buf.old) ((sure_disk_view self.old).len - at)) }
        ensures same { disk_state self.new ≡ disk_state self.old }
    {
        let bytes = self.held.bytes();
        if at >= bytes.len() as u64 {
            return Ok(0);
        }
        Ok(copy_front(&bytes[at as usize..], buf))
    }

    #[tactic(auto, using(crate::specs::SureLaws::unchanged, crate::specs::SureLaws::elapses, crate::specs::SureLaws::same_syncs, crate::specs::SureLaws::follows, crate::specs::SureLaws::content_follows, crate::proofs::Helds::torn_full, outside::proofs::Disks::torn_self, crate::proofs::Helds::all_fits, crate::proofs::Helds::fills, crate::specs::SureLaws::length_patched))]
    fn write_at(&mut self, at: u64, bytes: &[u8]) -> Result<(), Failed>
        requires within { at ≤ (sure_disk_view self.old).len }
        requires at_most { length bytes.now ≤ longest_write }
        ensures content { OnOk result ((sure_disk_view self.new).content ≡ option_map (patch at bytes.now) (sure_disk_view self.old).content) }
        ensures len { OnOk result ((sure_disk_view self.new).len ≡ max (sure_disk_view self.old).len (at + length bytes.now)) }
        ensures too_long { longest_disk < at + length bytes.now → IsErr result }
        ensures too_long_unchanged { longest_disk < at + length bytes.now → Unchanged (sure_disk_view self.old) (sure_disk_view self.new) }
        ensures no_shorter { (sure_disk_view self.old).len ≤ (sure_disk_view self.new).len }
        ensures no_longer { (sure_disk_view self.new).len ≤ max (sure_disk_view self.old).len (at + length bytes.now) }
        ensures torn { OnErr result (ContentFollows (Torn at (length bytes.now)) (sure_disk_view self.old) (sure_disk_view self.new)) }
        ensures crash { Follows (Torn at (length bytes.now)) (sure_disk_view self.old) (sure_disk_view self.new) }
        ensures time { Elapses (sure_disk_view self.old) (sure_disk_view self.new) }
        ensures syncs { SameSyncs (sure_disk_view self.old) (sure_disk_view self.new) }
        ensures cause { HasCause (sure_disk_view self.old).faults (sure_disk_view self.new).faults result }

        // It fails exactly where it had a fault before, or the bytes would pass the room. The first time it takes what fits, then nothing.
        ensures fails { is_err result ≡ (not (nat_eq self.old.faults 0) || nat_lt ROOM (at + length bytes.now)) }
        ensures first { self.old.faults ≡ 0 → self.new.held.buffer.items ≡ take ROOM (patch at bytes.now self.old.held.buffer.items) }
        ensures later { self.old.faults ≢ 0 → self.new.held.buffer.items ≡ self.old.held.buffer.items }
        ensures count { self.new.faults ≡ counted result self.old.faults }
    {
        if self.faults != 0 {
            self.faults = self.faults.saturating_add(1);
            return Err(Failed);
        }
        self.held.write_at(at as usize, bytes);
        if bytes.len() as u64 > ROOM as u64 - at {
            self.faults = 1;
            return Err(Failed);
        }
        Ok(())
    }

    #[tactic(auto, using(crate::specs::SureLaws::elapses, crate::specs::SureLaws::same_syncs, crate::specs::SureLaws::follows, crate::specs::SureLaws::content_follows, outside::proofs::Disks::torn_cut, outside::proofs::Disks::cut_self, crate::specs::SureLaws::length_cut))]
    fn cut(&mut self, len: u64) -> Result<(), Failed>
        requires { len ≤ (sure_disk_view self.old).len }
        ensures content { OnOk result ((sure_disk_view self.new).content ≡ option_map (take len) (sure_disk_view self.old).content) }
        ensures len { OnOk result ((sure_disk_view self.new).len ≡ len) }
        ensures no_shorter { len ≤ (sure_disk_view self.new).len }
        ensures no_longer { (sure_disk_view self.new).len ≤ (sure_disk_view self.old).len }
        ensures torn { OnErr result (ContentFollows (TornCut len) (sure_disk_view self.old) (sure_disk_view self.new)) }
        ensures crash { Follows (TornCut len) (sure_disk_view self.old) (sure_disk_view self.new) }
        ensures time { Elapses (sure_disk_view self.old) (sure_disk_view self.new) }
        ensures syncs { SameSyncs (sure_disk_view self.old) (sure_disk_view self.new) }
        ensures cause { HasCause (sure_disk_view self.old).faults (sure_disk_view self.new).faults result }

        // It fails exactly where it had a fault before, and then changes nothing but its count.
        ensures fails { is_err result ≡ not (nat_eq self.old.faults 0) }
        ensures failed { OnErr result (self.new.held.buffer.items ≡ self.old.held.buffer.items) }
        ensures count { self.new.faults ≡ counted result self.old.faults }
    {
        if self.faults == 0 {
            self.held.cut(len as usize);
            return Ok(());
        }
        self.faults = self.faults.saturating_add(1);
        Err(Failed)
    }

    #[tactic(auto, using(crate::specs::SureLaws::elapses, crate::specs::SureLaws::syncs_now, crate::specs::SureLaws::same_syncs, crate::specs::SureLaws::only_content, crate::specs::SureLaws::no_new_image))]
    fn sync(&mut self) -> Result<(), Failed>
        ensures durable { OnOk result (OnlyContent (sure_disk_view self.new)) }
        ensures synced { OnOk result (SyncsNow (sure_disk_view self.old) (sure_disk_view self.new)) }
        ensures failed { OnErr result (SameSyncs (sure_disk_view self.old) (sure_disk_view self.new)) }
        ensures content { (sure_disk_view self.new).content ≡ (sure_disk_view self.old).content }
        ensures len { (sure_disk_view self.new).len ≡ (sure_disk_view self.old).len }
        ensures crash { NoNewImage (sure_disk_view self.old) (sure_disk_view self.new) }
        ensures time { Elapses (sure_disk_view self.old) (sure_disk_view self.new) }
        ensures cause { HasCause (sure_disk_view self.old).faults (sure_disk_view self.new).faults result }

        // It never fails, and changes nothing.
        ensures ok { IsOk result }
        ensures same { disk_state self.new ≡ disk_state self.old }
    {
        Ok(())
    }

    ghost bounded = { λ d. laws.short_enough d.held.within d.short };

    ghost content_len = { λ d b told. told_len d.held.buffer.items b told };

    ghost content_is_image = { λ d b told. laws.is_image d.held.buffer.items b told };

    ghost undated_content = { λ d undated. laws.only_content d.held.buffer.items d.faults };

    ghost undated_syncs = { λ d t undated. refl };

    ghost counts_now = { λ d t c dated le image. laws.never_dated dated };

    ghost only_now = { λ d c left. absurd left };

    ghost left_since_earlier = { λ d t u c le left. absurd left };

    ghost synced_after = { λ d t s is. laws.syncs_none s is };

    ghost synced_by_now = { λ d t s is. laws.syncs_none s is };

    ghost synced_first = { λ d t u r le is. laws.syncs_none r is };
}
