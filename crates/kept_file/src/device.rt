// A file of the operating system as a device. Each method makes its calls, and then notes them with
// their answer.
ghost use Rattle.std.specs.Prelude.{◌≡◌, ◌≤◌, ◌∷◌, [], All, length, drop, IfOk, IsOk, IsTrue, ◌↔◌, ◌^◌};
ghost use Rattle.kept_log.specs.Device.{HasCause, Rose};
ghost use Rattle.kept_file.specs.Events.{Asked, IsQuiet, WasDone, seen_of, Leaves, LeftSince, was_done};
ghost use Rattle.kept_file.specs.Moments.{counts_last, only_last};
ghost use Rattle.kept_file.specs.declared.record.Call.TheVariants.{Held};

use crate::OpenError;
use crate::file::{open_whole, write_all};
use crate::record::{Call, Record};
use kept_log::{Device, Failed, Reading};
use std::alloc::Global;
use std::fs::File;
use std::marker::{Model, PhantomData};

/// A file under this process's lock. The first call that fails shuts it: from then on every call fails,
/// and nothing more is asked of the file. `M` says how a crash is read.
#[derive(Drop)]
pub struct FileDevice<M: Reading> {
    file: File,
    calls: Record,
    faults: u64,
    reading: PhantomData<M>,
}

impl<M: Reading> Model for FileDevice<M> {
    ghost Value = { Asked };

    ghost view = { λ f. record { calls = f.calls; faults = f.faults } };

    ghost invariant = { λ f. IsQuiet (record { calls = f.calls; faults = f.faults }) };
}

impl<M: Reading> FileDevice<M> {
    /// Opens the file of this name, or makes it, takes its lock, puts it on the disk, and reads it whole.
    pub fn open(
        rt: &HostRuntime,
        alloc: Global,
        path: &str,
    ) -> Result<(FileDevice<M>, Vec<u8>), OpenError>
        ensures held { IfOk result (λ r. r.0 ≡ record { calls = (Held, r.1.items) ∷ []; faults = 0 }) }
        ensures long { IfOk result (λ r. length r.1.items ≤ 2 ^ 31) }
    {
        let (file, bytes) = open_whole(rt, alloc, path)?;
        let mut calls = Record::new();
        calls.note(Call::Held, &bytes);
        let device = FileDevice {
            file,
            calls,
            faults: 0,
            reading: PhantomData,
        };
        Ok((device, bytes))
    }

    /// In the record no call stands behind one that failed.
    pub fn asks_nothing_after_a_fault(&self)
        ensures { All WasDone (drop 1 self.now.calls) }
    {
        let _ = &self.faults;
    }

    // A failure.
    fn fail(&mut self) -> Failed
        ensures { (self.new.calls ≡ self.old.calls) × Rose self.old.faults self.new.faults }
    {
        self.faults = self.faults.saturating_add(1);
        Failed
    }

    // Notes a call. One that wasn't done is a failure.
    fn note(&mut self, call: Call, bytes: &[u8], is_done: bool) -> Result<(), Failed>
        requires told { was_done call ≡ is_done }
        requires faultless { self.old.faults ≡ 0 }
        ensures calls { self.new.calls ≡ (call, bytes.now) ∷ self.old.calls }
        ensures ok { IsOk result ↔ IsTrue is_done }
        ensures cause { HasCause self.old.faults self.new.faults result }
    {
        self.calls.note(call, bytes);
        if is_done {
            Ok(())
        } else {
            self.faults = 1;
            Err(Failed)
        }
    }
}

impl<M: Reading> Device for FileDevice<M> {
    ghost seen = { λ f. seen_of f.calls };

    ghost may_leave = { λ f. Leaves M.is_mixing f.calls };

    ghost moment = { λ f. length f.calls };

    ghost left_since = { λ f. LeftSince M.is_mixing f.calls };

    ghost faults = { λ f. f.faults };

    ghost is_mixing = { M.is_mixing };

    ghost counts_now = { λ f t c le now. counts_last M.is_mixing f.calls t c le now };

    ghost only_now = { λ f c left. only_last M.is_mixing f.calls c left };

    fn mixes() -> bool {
        M::mixes()
    }

    fn write_at(&mut self, at: usize, bytes: &[u8]) -> Result<(), Failed> {
        if self.faults > 0 {
            return Err(self.fail());
        }
        let is_done = write_all(&self.file, at, bytes).is_ok();
        self.note(Call::Wrote { at, is_done }, bytes, is_done)
    }

    fn cut(&mut self, len: usize) -> Result<(), Failed> {
        if self.faults > 0 {
            return Err(self.fail());
        }
        let is_done = self.file.set_len(len as u64).is_ok();
        self.note(Call::CutTo { len, is_done }, &[], is_done)
    }

    fn sync(&mut self) -> Result<(), Failed> {
        if self.faults > 0 {
            return Err(self.fail());
        }
        let is_done = self.file.sync_data().is_ok();
        self.note(Call::Synced { is_done }, &[], is_done)
    }
}
