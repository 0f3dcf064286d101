ghost use Rattle.std.specs.Prelude.{◌≡◌, ℕ, ◌+◌, ◌-◌, ◌<◌, ◌≤◌, List, length, take, drop, max, Some, None, IsOk, IfOk, IfSome, OnOk, OnErr, IsErr, ◌↔◌};
ghost use Rattle.std.specs.Option.{option_map};
ghost use Rattle.outside.specs.Disk.{longest_disk, longest_write, patch, Torn, TornCut, Follows, ContentFollows, NoNewImage, Elapses, SameSyncs, SyncsNow, OnlyContent, Unchanged};
ghost use Rattle.outside.specs.Fault.{HasCause};

use outside::{Disk, Failed, LONGEST_DISK, copy_front};
use std::alloc::{AllocError, Global};

/// A disk of bytes that were read. What is written to it stays in memory, where nothing else sees it. Only its writes fail, for want of
/// memory or of length. It tells its content, and no moments.
#[derive(Drop)]
pub struct ByteDisk {
    alloc: Global,
    bytes: Vec<u8>,
    faults: u64,
    ghost short: { length bytes.items ≤ longest_disk },
}

/// The bytes with these in the place of those from `at` on, and past the end.
fn patched(alloc: Global, old: &[u8], at: usize, bytes: &[u8]) -> Result<Vec<u8>, AllocError>
    ensures { IfOk result (λ new. new.items ≡ patch at bytes.now old.now) }
{
    let mut new = old[..at.min(old.len())].to_vec(alloc)?;
    new.extend_from_slice(bytes)?;
    if at < old.len() && bytes.len() < old.len() - at {
        new.extend_from_slice(&old[at + bytes.len()..])?;
    }
    Ok(new)
}

impl ByteDisk {
    /// A disk of these bytes; none where they are more than a disk has.
    pub fn new(alloc: Global, bytes: Vec<u8>) -> Option<Self>
        ensures bytes { IfSome result (λ disk. disk.bytes.items ≡ bytes.items) }
        ensures fresh { IfSome result (λ disk. disk.faults ≡ 0) }
        ensures none { result ≡ None → longest_disk < length bytes.items }
    {
        if bytes.len() as u64 > LONGEST_DISK {
            return None;
        }
        Some(ByteDisk {
            alloc,
            bytes,
            faults: 0,
        })
    }
}

impl Disk for ByteDisk {
    ghost use Rattle.memory_files.specs.ByteDisk.{byte_disk_view};
    ghost use Rattle.outside_sure.specs.SureLaws as laws;
    ghost use Rattle.outside.proofs.Disks.{told_len};
    ghost use Rattle.std.proofs.Common.{refl};

    ghost seen = { byte_disk_view };

    fn len(&self) -> u64 {
        self.bytes.len() as u64
    }

    #[tactic(auto, using(outside_sure::specs::SureLaws::unchanged))]
    fn read_at(&mut self, at: u64, buf: &mut [u8]) -> Result<usize, Failed>
        requires { 0 < length buf.old }
        ensures at_most { IfOk result (λ n. n ≤ length buf.new) }
        ensures there { IfOk result (λ n. n ≤ (byte_disk_view self.old).len - at) }
        ensures bytes { IfOk result (λ n. (b : List ℕ) → (byte_disk_view self.old).content ≡ Some b → take n buf.new ≡ take n (drop at b)) }
        ensures end { IfOk result (λ n. (n ≡ 0) ↔ ((byte_disk_view self.old).len ≤ at)) }
        ensures unchanged { Unchanged (byte_disk_view self.old) (byte_disk_view self.new) }
        ensures cause { HasCause (byte_disk_view self.old).faults (byte_disk_view self.new).faults result }

        // It never fails.
        ensures ok { IsOk result }
    {
        let bytes = self.bytes.as_slice();
        if at >= bytes.len() as u64 {
            return Ok(0);
        }
        Ok(copy_front(&bytes[at as usize..], buf))
    }

    #[tactic(auto, using(outside_sure::specs::SureLaws::unchanged, outside_sure::specs::SureLaws::elapses, outside_sure::specs::SureLaws::same_syncs, outside_sure::specs::SureLaws::follows, outside_sure::specs::SureLaws::content_follows, outside::proofs::Disks::torn_self, outside::proofs::Disks::torn_patch, outside_sure::specs::SureLaws::length_patched))]
    fn write_at(&mut self, at: u64, bytes: &[u8]) -> Result<(), Failed>
        requires within { at ≤ (byte_disk_view self.old).len }
        requires at_most { length bytes.now ≤ longest_write }
        ensures content { OnOk result ((byte_disk_view self.new).content ≡ option_map (patch at bytes.now) (byte_disk_view self.old).content) }
        ensures len { OnOk result ((byte_disk_view self.new).len ≡ max (byte_disk_view self.old).len (at + length bytes.now)) }
        ensures too_long { longest_disk < at + length bytes.now → IsErr result }
        ensures too_long_unchanged { longest_disk < at + length bytes.now → Unchanged (byte_disk_view self.old) (byte_disk_view self.new) }
        ensures no_shorter { (byte_disk_view self.old).len ≤ (byte_disk_view self.new).len }
        ensures no_longer { (byte_disk_view self.new).len ≤ max (byte_disk_view self.old).len (at + length bytes.now) }
        ensures torn { OnErr result (ContentFollows (Torn at (length bytes.now)) (byte_disk_view self.old) (byte_disk_view self.new)) }
        ensures crash { Follows (Torn at (length bytes.now)) (byte_disk_view self.old) (byte_disk_view self.new) }
        ensures time { Elapses (byte_disk_view self.old) (byte_disk_view self.new) }
        ensures syncs { SameSyncs (byte_disk_view self.old) (byte_disk_view self.new) }
        ensures cause { HasCause (byte_disk_view self.old).faults (byte_disk_view self.new).faults result }

        // A call that fails changes nothing but its count.
        ensures failed { OnErr result (self.new.bytes.items ≡ self.old.bytes.items) }
    {
        if bytes.len() as u64 > LONGEST_DISK - at {
            self.faults = self.faults.saturating_add(1);
            return Err(Failed);
        }
        match patched(self.alloc, self.bytes.as_slice(), at as usize, bytes) {
            Ok(next) => {
                self.bytes = next;
                Ok(())
            }
            Err(_) => {
                self.faults = self.faults.saturating_add(1);
                Err(Failed)
            }
        }
    }

    #[tactic(auto, using(outside_sure::specs::SureLaws::elapses, outside_sure::specs::SureLaws::same_syncs, outside_sure::specs::SureLaws::follows, outside_sure::specs::SureLaws::content_follows, outside::proofs::Disks::torn_cut, outside::proofs::Disks::cut_self, outside_sure::specs::SureLaws::length_cut))]
    fn cut(&mut self, len: u64) -> Result<(), Failed>
        requires { len ≤ (byte_disk_view self.old).len }
        ensures content { OnOk result ((byte_disk_view self.new).content ≡ option_map (take len) (byte_disk_view self.old).content) }
        ensures len { OnOk result ((byte_disk_view self.new).len ≡ len) }
        ensures no_shorter { len ≤ (byte_disk_view self.new).len }
        ensures no_longer { (byte_disk_view self.new).len ≤ (byte_disk_view self.old).len }
        ensures torn { OnErr result (ContentFollows (TornCut len) (byte_disk_view self.old) (byte_disk_view self.new)) }
        ensures crash { Follows (TornCut len) (byte_disk_view self.old) (byte_disk_view self.new) }
        ensures time { Elapses (byte_disk_view self.old) (byte_disk_view self.new) }
        ensures syncs { SameSyncs (byte_disk_view self.old) (byte_disk_view self.new) }
        ensures cause { HasCause (byte_disk_view self.old).faults (byte_disk_view self.new).faults result }

        // It never fails.
        ensures ok { IsOk result }
    {
        self.bytes.truncate(len as usize);
        Ok(())
    }

    #[tactic(auto, using(outside_sure::specs::SureLaws::elapses, outside_sure::specs::SureLaws::syncs_now, outside_sure::specs::SureLaws::same_syncs, outside_sure::specs::SureLaws::only_content, outside_sure::specs::SureLaws::no_new_image))]
    fn sync(&mut self) -> Result<(), Failed>
        ensures durable { OnOk result (OnlyContent (byte_disk_view self.new)) }
        ensures synced { OnOk result (SyncsNow (byte_disk_view self.old) (byte_disk_view self.new)) }
        ensures failed { OnErr result (SameSyncs (byte_disk_view self.old) (byte_disk_view self.new)) }
        ensures content { (byte_disk_view self.new).content ≡ (byte_disk_view self.old).content }
        ensures len { (byte_disk_view self.new).len ≡ (byte_disk_view self.old).len }
        ensures crash { NoNewImage (byte_disk_view self.old) (byte_disk_view self.new) }
        ensures time { Elapses (byte_disk_view self.old) (byte_disk_view self.new) }
        ensures cause { HasCause (byte_disk_view self.old).faults (byte_disk_view self.new).faults result }

        // It never fails, and changes nothing.
        ensures ok { IsOk result }
    {
        Ok(())
    }

    ghost bounded = { λ d. d.short };

    ghost content_len = { λ d b told. told_len d.bytes.items b told };

    ghost content_is_image = { λ d b told. laws.is_image d.bytes.items b told };

    ghost undated_content = { λ d undated. laws.only_content d.bytes.items d.faults };

    ghost undated_syncs = { λ d t undated. refl };

    ghost counts_now = { λ d t c dated le image. laws.never_dated dated };

    ghost only_now = { λ d c left. absurd left };

    ghost left_since_earlier = { λ d t u c le left. absurd left };

    ghost synced_after = { λ d t s is. laws.syncs_none s is };

    ghost synced_by_now = { λ d t s is. laws.syncs_none s is };

    ghost synced_first = { λ d t u r le is. laws.syncs_none r is };
}
