ghost use Rattle.std.specs.Prelude.{◌≡◌, ℕ, ◌+◌, ◌-◌, ◌<◌, ◌≤◌, ◌↔◌, true, length, max, IfOk, IsErr, OnOk, OnErr};
ghost use Rattle.outside.specs.Disk.{longest_disk, Elapses, SameSyncs, Unchanged};
ghost use Rattle.outside.specs.Fault.{HasCause, Rose, count_sum, counted};

use crate::cause::Cause;
use crate::count::raised;
use crate::watch::Watch;
use outside::{Disk, Failed, LONGEST_DISK};
use std::fs::File;
use std::os::unix::fs::FileExt;
use std::time::Clock;

/// A file that is read and written at any place. It keeps the length that was found at its opening, and what the calls made
/// of it.
#[derive(Drop)]
pub struct FileDisk<R> {
    file: File,
    len: u64,
    faults: u64,
    cause: Option<Cause>,
    // whether a sync failed, behind which all fail: the system may show what isn't on the disk
    has_failed_sync: bool,
    // who tells how far its reading has come
    watch: Option<Watch<R>>,
    // the most bytes that one cut takes off
    most_cut: u64,
    ghost short: { len ≤ longest_disk },
}

impl<R: Eprint + Clock> FileDisk<R> {
    /// Fails where the file's length can't be had, or is greater than [`LONGEST_DISK`].
    pub fn new(file: File) -> Result<Self, Cause>
        ensures fresh { IfOk result (λ disk. (⟦<FileDisk<R> as Disk>⟧.seen disk).faults ≡ 0) }
    {
        match file.metadata() {
            Ok(found) if found.len() <= LONGEST_DISK => Ok(FileDisk {
                len: found.len(),
                file,
                faults: 0,
                cause: None,
                has_failed_sync: false,
                watch: None,
                most_cut: u64::MAX,
            }),
            Ok(_) => Err(Cause::LongerThanTebibyte),
            Err(error) => Err(Cause::of(&error)),
        }
    }

    /// How many calls failed.
    pub fn faults(&self) -> u64
        ensures { result ≡ (⟦<FileDisk<R> as Disk>⟧.seen self.now).faults }
    {
        self.faults
    }

    /// Why the last call that failed did.
    pub fn cause(&self) -> Option<Cause> {
        self.cause
    }

    /// Whether a sync failed.
    pub fn has_failed_sync(&self) -> bool {
        self.has_failed_sync
    }

    // A fault more, which had that cause.
    fn fail(&mut self, cause: Cause) -> Failed
        ensures faults { self.new.faults ≡ count_sum self.old.faults 1 }
        ensures rose { Rose self.old.faults self.new.faults }
        ensures later { self.old.faults ≤ self.new.faults }
        ensures len { self.new.len ≡ self.old.len }
        ensures remembers { self.new.has_failed_sync ≡ self.old.has_failed_sync }
    {
        self.cause = Some(cause);
        self.faults = raised(self.faults);
        Failed
    }
}

impl<R: Drop> FileDisk<R> {
    /// From now on that tells how far the file's reading has come.
    pub fn watch(&mut self, watch: Option<Watch<R>>)
        ensures len { self.new.len ≡ self.old.len }
        ensures faults { self.new.faults ≡ self.old.faults }
        ensures remembers { self.new.has_failed_sync ≡ self.old.has_failed_sync }
    {
        self.watch = watch;
    }

    /// From now on a cut that would take off more bytes fails: no crash leaves so many behind a journal's end.
    pub fn limit_cut(&mut self, most: u64)
        ensures len { self.new.len ≡ self.old.len }
        ensures faults { self.new.faults ≡ self.old.faults }
        ensures remembers { self.new.has_failed_sync ≡ self.old.has_failed_sync }
    {
        self.most_cut = most;
    }
}

impl<R: Eprint + Clock> Disk for FileDisk<R> {
    ghost use Rattle.outside_real.specs.View.{file_disk_view};
    ghost use Rattle.outside_real.specs.DiskLaws as laws;
    ghost use Rattle.std.proofs.Common.{refl};

    ghost seen = { file_disk_view };

    ghost bounded = { λ d. d.short };

    ghost content_len = { λ d b told. laws.tells_none b told };

    ghost content_is_image = { λ d b told. laws.tells_none b told };

    ghost undated_content = { λ d undated b c told image. laws.tells_none b told };

    ghost undated_syncs = { λ d t undated. refl };

    ghost counts_now = { λ d t c dated le image. image };

    ghost only_now = { λ d c left. left };

    ghost left_since_earlier = { λ d t u c le left. left };

    ghost synced_after = { λ d t s is. laws.syncs_none s is };

    ghost synced_by_now = { λ d t s is. laws.syncs_none s is };

    ghost synced_first = { λ d t u r le is. laws.syncs_none r is };

    fn len(&self) -> u64 {
        self.len
    }

    fn read_at(&mut self, at: u64, buf: &mut [u8]) -> Result<usize, Failed>
        requires { 0 < length buf.old }
        ensures at_most { IfOk result (λ n. n ≤ length buf.new) }
        ensures there { IfOk result (λ n. n ≤ self.old.len - at) }
        ensures end { IfOk result (λ n. (n ≡ 0) ↔ (self.old.len ≤ at)) }
        ensures unchanged { Unchanged (file_disk_view self.old) (file_disk_view self.new) }
        ensures cause { HasCause self.old.faults self.new.faults result }

        // A fault counts once. A sync that failed is remembered.
        ensures counts { self.new.faults ≡ counted result self.old.faults }
        ensures remembers { self.new.has_failed_sync ≡ self.old.has_failed_sync }
    {
        if at >= self.len {
            return Ok(0);
        }
        let most = (self.len - at).min(buf.len() as u64) as usize;
        match self.file.read_at(&mut buf[..most], at) {
            Ok(count) if count > 0 => {
                reach(&mut self.watch, at.saturating_add(count as u64));
                Ok(count)
            }
            Ok(_) => Err(self.fail(Cause::Other)),
            Err(error) => Err(self.fail(Cause::of(&error))),
        }
    }

    fn write_at(&mut self, at: u64, bytes: &[u8]) -> Result<(), Failed>
        requires { at ≤ self.old.len }
        ensures len { OnOk result (self.new.len ≡ max self.old.len (at + length bytes.now)) }
        ensures too_long { longest_disk < at + length bytes.now → IsErr result }
        ensures time { Elapses (file_disk_view self.old) (file_disk_view self.new) }
        ensures syncs { SameSyncs (file_disk_view self.old) (file_disk_view self.new) }
        ensures cause { HasCause self.old.faults self.new.faults result }

        // After a fault the length is as it was, and the fault counts once. A sync that failed is remembered.
        ensures failed { OnErr result (self.new.len ≡ self.old.len) }
        ensures counts { self.new.faults ≡ counted result self.old.faults }
        ensures remembers { self.new.has_failed_sync ≡ self.old.has_failed_sync }
    {
        let count = bytes.len() as u64;
        if count > LONGEST_DISK - at {
            return Err(self.fail(Cause::NoSpace));
        }
        if let Err(error) = self.file.write_all_at(bytes, at) {
            return Err(self.fail(Cause::of(&error)));
        }
        self.len = self.len.max(at + count);
        Ok(())
    }

    fn cut(&mut self, len: u64) -> Result<(), Failed>
        requires { len ≤ self.old.len }
        ensures len { OnOk result (self.new.len ≡ len) }
        ensures time { Elapses (file_disk_view self.old) (file_disk_view self.new) }
        ensures syncs { SameSyncs (file_disk_view self.old) (file_disk_view self.new) }
        ensures cause { HasCause self.old.faults self.new.faults result }

        // After a fault the length is as it was, and the fault counts once. A sync that failed is remembered.
        ensures failed { OnErr result (self.new.len ≡ self.old.len) }
        ensures counts { self.new.faults ≡ counted result self.old.faults }
        ensures remembers { self.new.has_failed_sync ≡ self.old.has_failed_sync }
    {
        if self.len - len > self.most_cut {
            return Err(self.fail(Cause::MoreBehind));
        }
        if let Err(error) = self.file.set_len(len) {
            return Err(self.fail(Cause::of(&error)));
        }
        self.len = len;
        Ok(())
    }

    fn sync(&mut self) -> Result<(), Failed>
        ensures len { self.new.len ≡ self.old.len }
        ensures time { Elapses (file_disk_view self.old) (file_disk_view self.new) }
        ensures syncs { SameSyncs (file_disk_view self.old) (file_disk_view self.new) }
        ensures cause { HasCause self.old.faults self.new.faults result }

        // A fault counts once. Behind one all syncs fail: the system may let the next succeed though what was written is lost.
        ensures counts { self.new.faults ≡ counted result self.old.faults }
        ensures remembers { OnErr result (self.new.has_failed_sync ≡ true) }
        ensures behind { self.old.has_failed_sync ≡ true → IsErr result }
    {
        if self.has_failed_sync {
            self.faults = raised(self.faults);
            return Err(Failed);
        }
        match self.file.sync_data() {
            Ok(()) => Ok(()),
            Err(error) => {
                self.has_failed_sync = true;
                Err(self.fail(Cause::of(&error)))
            }
        }
    }
}

// A file was read up to there.
fn reach<R: Eprint + Clock>(watch: &mut Option<Watch<R>>, place: u64) {
    if let Some(watch) = watch {
        watch.reach(place, 0);
    }
}
