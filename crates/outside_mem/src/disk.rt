ghost use Rattle.std.specs.Prelude.{◌≡◌, ◌+◌, ◌-◌, ◌<◌, ◌≤◌, [], length, take, drop, min, max, true, false, is_err, IsErr, IfOk, OnOk, OnErr};
ghost use Rattle.outside.specs.Disk.{longest_disk, Torn, TornCut, Follows, ContentFollows, NoNewImage, OnlyContent, Elapses, SameSyncs, SyncsNow, Unchanged};
ghost use Rattle.outside.specs.Fault.{HasCause};
ghost use Rattle.outside_mem.specs.Calls.{is_next_listed, after_call, fresh_calls};
ghost use Rattle.outside_mem.specs.Disk.{IsRun, IsImageAfter, image_after, synced_content, after_change, changes_until, with_write, with_cut, with_sync, FailsWith};
ghost use Rattle.outside_mem.specs.declared.change.Change.TheVariants.{Write, Cut, Sync};
ghost use Rattle.outside_mem.specs.DiskLaws as laws;
ghost use Rattle.outside.proofs.Disks.{told_len};

use crate::calls::Calls;
use crate::change::Change;
use crate::crash::patched;
use crate::tape::Tape;
use outside::{Bytes, Disk, Failed, LONGEST_DISK, NoMemory, copy_front};
use std::alloc::{AllocError, Global};

/// A disk in memory, which tells its bytes and its moments. Each write, cut and sync adds the moment after it, also one
/// that fails because it is listed; one that finds no memory fails, and adds none.
#[derive(Debug, Drop)]
pub struct MemDisk {
    alloc: Global,
    tape: Tape,
    calls: Calls,
    ghost run: { IsRun tape.first tape.changes tape.bytes },
}

impl MemDisk {
    /// A disk of at most [`LONGEST_DISK`] bytes. The calls whose numbers, counted from 0 over reads, writes, cuts and syncs,
    /// stand in `fails` fail.
    pub fn new(alloc: Global, bytes: Vec<u8>, fails: Vec<u64>) -> Self
        requires { length bytes.items ≤ longest_disk }
        ensures tape { result.tape ≡ record { first = bytes.items; changes = []; bytes = bytes.items } }
        ensures calls { result.calls ≡ fresh_calls fails.items }
    {
        MemDisk {
            alloc,
            tape: Tape::new(alloc, bytes),
            calls: Calls::new(fails),
        }
    }

    /// What it has.
    pub fn bytes(&self) -> &[u8]
        ensures { result.now ≡ self.now.tape.bytes }
    {
        self.tape.bytes()
    }

    /// The faults so far.
    pub fn faults(&self) -> u64
        ensures { result ≡ self.now.calls.faults }
    {
        self.calls.faults()
    }

    /// The number of moments. Moment 0 is the start, and each change has the moment after it.
    pub fn moments(&self) -> u64
        ensures { result ≡ length self.now.tape.changes + 1 }
    {
        self.tape.moments()
    }

    /// An image that a crash at that moment may leave: choice 0 keeps what isn't synced as before, 1 as written, any other
    /// fills it with FF.
    #[tactic(auto, using(crate::proofs::Crashes::crash_image, crate::proofs::Crashes::kept_image))]
    pub fn crash(&self, alloc: Global, moment: u64, choice: u8) -> Result<Vec<u8>, NoMemory>
        requires { moment < length self.now.tape.changes + 1 }
        ensures chosen { IfOk result (λ image. image.items ≡ image_after choice self.now.tape.first (changes_until moment self.now.tape)) }
        ensures kept { IfOk result (λ image. choice ≡ 0
            → image.items ≡ synced_content self.now.tape.first (changes_until moment self.now.tape)) }
        ensures image { IfOk result (λ image. IsImageAfter self.now.tape.first (changes_until moment self.now.tape) image.items) }
    {
        Ok(self.tape.image_at(alloc, moment as usize, choice)?)
    }

    #[tactic(auto, using(crate::specs::DiskLaws::run_write))]
    fn write(&mut self, at: u64, bytes: &[u8], done: bool) -> Result<(), AllocError>
        requires within { at ≤ length self.old.tape.bytes }
        requires short { at + length bytes.now ≤ longest_disk }
        ensures ok { OnOk result (self.new.tape ≡ with_write at bytes.now done self.old.tape) }
        ensures err { OnErr result (self.new.tape ≡ self.old.tape) }
        ensures calls { self.new.calls ≡ self.old.calls }
    {
        let next = if done {
            patched(self.alloc, self.tape.bytes(), at as usize, bytes)?
        } else {
            self.tape.bytes().to_vec(self.alloc)?
        };
        let change = Change::Write(at, Bytes::from_vec(bytes.to_vec(self.alloc)?), done);
        self.tape.change(self.alloc, change, next)
    }

    #[tactic(auto, using(crate::specs::DiskLaws::run_cut))]
    fn cut_to(&mut self, len: u64, done: bool) -> Result<(), AllocError>
        requires within { len ≤ length self.old.tape.bytes }
        ensures ok { OnOk result (self.new.tape ≡ with_cut len done self.old.tape) }
        ensures err { OnErr result (self.new.tape ≡ self.old.tape) }
        ensures calls { self.new.calls ≡ self.old.calls }
    {
        let next = if done {
            self.tape.bytes()[..len as usize].to_vec(self.alloc)?
        } else {
            self.tape.bytes().to_vec(self.alloc)?
        };
        self.tape.change(self.alloc, Change::Cut(len, done), next)
    }

    #[tactic(auto, using(crate::specs::DiskLaws::run_sync))]
    fn sync_all(&mut self, done: bool) -> Result<(), AllocError>
        ensures ok { OnOk result (self.new.tape ≡ with_sync done self.old.tape) }
        ensures err { OnErr result (self.new.tape ≡ self.old.tape) }
        ensures calls { self.new.calls ≡ self.old.calls }
    {
        let next = self.tape.bytes().to_vec(self.alloc)?;
        self.tape.change(self.alloc, Change::Sync(done), next)
    }

    // Counts a call that was made, and answers whether it failed.
    fn counted(&mut self, failed: bool) -> Result<(), Failed>
        ensures answer { is_err result ≡ failed }
        ensures calls { self.new.calls ≡ after_call self.old.calls failed }
        ensures tape { self.new.tape ≡ self.old.tape }
        ensures cause { HasCause self.old.calls.faults self.new.calls.faults result }
    {
        if failed {
            self.calls.count_fault();
            return Err(Failed);
        }
        self.calls.count_success();
        Ok(())
    }
}

impl Disk for MemDisk {
    ghost use Rattle.outside_mem.specs.MemDisk.{disk_view};

    ghost seen = { disk_view };

    fn len(&self) -> u64 {
        self.tape.bytes().len() as u64
    }

    fn read_at(&mut self, at: u64, buf: &mut [u8]) -> Result<usize, Failed>
        requires { 0 < length buf.old }
        ensures unchanged { Unchanged (disk_view self.old) (disk_view self.new) }
        ensures cause { HasCause self.old.calls.faults self.new.calls.faults result }

        // It fails exactly where the call is listed, and else gives all that the buffer takes.
        ensures listed { is_err result ≡ is_next_listed self.old.calls }
        ensures calls { self.new.calls ≡ after_call self.old.calls (is_err result) }
        ensures count { IfOk result (λ n. n ≡ min (length buf.old) (length self.old.tape.bytes - at)) }
        ensures bytes { IfOk result (λ n. take n buf.new ≡ take n (drop at self.old.tape.bytes)) }
        ensures tape { self.new.tape ≡ self.old.tape }
    {
        if self.calls.is_next_listed() {
            self.calls.count_fault();
            return Err(Failed);
        }
        self.calls.count_success();
        let bytes = self.tape.bytes();
        if at >= bytes.len() as u64 {
            return Ok(0);
        }
        Ok(copy_front(&bytes[at as usize..], buf))
    }

    fn write_at(&mut self, at: u64, bytes: &[u8]) -> Result<(), Failed>
        requires { at ≤ length self.old.tape.bytes }
        ensures len { OnOk result (length self.new.tape.bytes ≡ max (length self.old.tape.bytes) (at + length bytes.now)) }
        ensures no_shorter { length self.old.tape.bytes ≤ length self.new.tape.bytes }
        ensures no_longer { length self.new.tape.bytes ≤ max (length self.old.tape.bytes) (at + length bytes.now) }
        ensures torn { OnErr result (ContentFollows (Torn at (length bytes.now)) (disk_view self.old) (disk_view self.new)) }
        ensures crash { Follows (Torn at (length bytes.now)) (disk_view self.old) (disk_view self.new) }
        ensures time { Elapses (disk_view self.old) (disk_view self.new) }
        ensures syncs { SameSyncs (disk_view self.old) (disk_view self.new) }
        ensures cause { HasCause self.old.calls.faults self.new.calls.faults result }

        // It fails where the call is listed, and where the bytes would pass the longest disk, which changes nothing.
        ensures listed { is_next_listed self.old.calls ≡ true → IsErr result }
        ensures too_long { longest_disk < at + length bytes.now → IsErr result }
        ensures too_long_unchanged { longest_disk < at + length bytes.now → self.new.tape ≡ self.old.tape }
        ensures calls { self.new.calls ≡ after_call self.old.calls (is_err result) }

        // It adds one moment. A call that isn't listed and finds no memory fails, and changes nothing.
        ensures ok { OnOk result (self.new.tape ≡ after_change self.old.tape (Write at bytes.now true)) }
        ensures failed { OnErr result (FailsWith (is_next_listed self.old.calls) (Write at bytes.now false) self.old.tape self.new.tape) }
    {
        if bytes.len() as u64 > LONGEST_DISK - at {
            return self.counted(true);
        }
        let done = !self.calls.is_next_listed();
        let failed = self.write(at, bytes, done).is_err() || !done;
        self.counted(failed)
    }

    fn cut(&mut self, len: u64) -> Result<(), Failed>
        requires { len ≤ length self.old.tape.bytes }
        ensures len { OnOk result (length self.new.tape.bytes ≡ len) }
        ensures no_shorter { len ≤ length self.new.tape.bytes }
        ensures no_longer { length self.new.tape.bytes ≤ length self.old.tape.bytes }
        ensures torn { OnErr result (ContentFollows (TornCut len) (disk_view self.old) (disk_view self.new)) }
        ensures crash { Follows (TornCut len) (disk_view self.old) (disk_view self.new) }
        ensures time { Elapses (disk_view self.old) (disk_view self.new) }
        ensures syncs { SameSyncs (disk_view self.old) (disk_view self.new) }
        ensures cause { HasCause self.old.calls.faults self.new.calls.faults result }

        // It fails where the call is listed, and adds one moment. Any other fails for want of memory, and changes nothing.
        ensures listed { is_next_listed self.old.calls ≡ true → IsErr result }
        ensures calls { self.new.calls ≡ after_call self.old.calls (is_err result) }
        ensures ok { OnOk result (self.new.tape ≡ after_change self.old.tape (Cut len true)) }
        ensures failed { OnErr result (FailsWith (is_next_listed self.old.calls) (Cut len false) self.old.tape self.new.tape) }
    {
        let done = !self.calls.is_next_listed();
        let failed = self.cut_to(len, done).is_err() || !done;
        self.counted(failed)
    }

    fn sync(&mut self) -> Result<(), Failed>
        ensures durable { OnOk result (OnlyContent (disk_view self.new)) }
        ensures synced { OnOk result (SyncsNow (disk_view self.old) (disk_view self.new)) }
        ensures unsynced { OnErr result (SameSyncs (disk_view self.old) (disk_view self.new)) }
        ensures bytes { self.new.tape.bytes ≡ self.old.tape.bytes }
        ensures crash { NoNewImage (disk_view self.old) (disk_view self.new) }
        ensures time { Elapses (disk_view self.old) (disk_view self.new) }
        ensures cause { HasCause self.old.calls.faults self.new.calls.faults result }

        // It fails where the call is listed, and adds one moment. Any other fails for want of memory, and changes nothing.
        ensures listed { is_next_listed self.old.calls ≡ true → IsErr result }
        ensures calls { self.new.calls ≡ after_call self.old.calls (is_err result) }
        ensures ok { OnOk result (self.new.tape ≡ after_change self.old.tape (Sync true)) }
        ensures failed { OnErr result (FailsWith (is_next_listed self.old.calls) (Sync false) self.old.tape self.new.tape) }
    {
        let done = !self.calls.is_next_listed();
        let failed = self.sync_all(done).is_err() || !done;
        self.counted(failed)
    }

    ghost bounded = { λ d. d.run.short };

    ghost content_len = { λ d b told. told_len d.tape.bytes b told };

    ghost content_is_image = { λ d b told. laws.told_image d.tape.first d.tape.changes d.tape.bytes b d.run told };

    ghost undated_content = { λ d undated. laws.never_undated undated };

    ghost undated_syncs = { λ d t undated. laws.never_undated undated };

    ghost counts_now = { λ d t c dated le image. laws.counts_now d.tape.first d.tape.changes t c le image };

    ghost only_now = { λ d c left. laws.only_now d.tape.first d.tape.changes c left };

    ghost left_since_earlier = { λ d t u c le left. laws.left_since_earlier d.tape.first d.tape.changes t u c le left };

    ghost synced_after = { λ d t s is. laws.synced_after d.tape.changes t s is };

    ghost synced_by_now = { λ d t s is. laws.synced_by_now d.tape.changes t s is };

    ghost synced_first = { λ d t u r le is. laws.synced_first d.tape.changes t u r le is };
}
