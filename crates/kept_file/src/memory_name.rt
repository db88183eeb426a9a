//! A name in memory.
ghost use Rattle.std.specs.Prelude.{◌≡◌, ◌≤◌, ◌++◌, ◌∷◌, [], length, ⊤, IfOk, IsOk, IsErr, OnOk};
ghost use Rattle.std.specs.Prelude.{OnErr};
ghost use Rattle.kept_file.specs.Crashes.{LeavesThis, Replaces};
ghost use Rattle.kept_file.specs.Memory.{Adds, FileData, MayLeave, StaysButCalls, contents};
ghost use Rattle.m2m_io.specs.Counts.{CountsFaults, after_call, fails_next, no_calls};

use crate::{Failed, KeptName, MemFile};
use std::alloc::{AllocError, Global};
use std::marker::Model;

/// A name in memory. It keeps each content that a crash might have left under it. It fails at the
/// calls that are to fail, and where the memory that a call needs is refused. Its files fail at no
/// call.
#[derive(Debug, Drop)]
pub struct MemName {
    alloc: Global,
    seen: Vec<u8>,
    images: Vec<Vec<u8>>,
    synced: usize,
    filler: u8,
    made: u64,
    fails: Vec<u64>,
    faults: u64,
}

impl Model for MemName {
    ghost use Rattle.std.specs.Prelude.{◌≤◌, length, drop};
    ghost use Rattle.std.specs.List.{Contains};
    ghost use Rattle.kept_file.specs.Memory.{FileData, contents};

    ghost Value = { FileData };

    ghost view = { λ f. record {
      seen = f.seen.items;
      images = contents f.images.items;
      synced = f.synced;
      calls = record { made = f.made; fails = f.fails.items; faults = f.faults };
    } };

    // A crash may leave the file that has the name.
    ghost invariant = { λ f. Contains (drop f.synced (contents f.images.items)) f.seen.items };
}

impl MemName {
    /// A name of a file of these bytes, all of them on the disk. What a crash tears of its files
    /// has `filler` in it. The calls whose numbers, from 1, are in `fails` fail.
    pub fn new(alloc: Global, bytes: &[u8], filler: u8, fails: Vec<u64>) -> Result<Self, AllocError>
        ensures name { IfOk result (λ name. name ≡ record {
          seen = bytes.now;
          images = bytes.now ∷ [];
          synced = 0;
          calls = no_calls fails.items;
        }) }
        ensures kept { IfOk result (λ name. LeavesThis name.seen (MayLeave name)) }
    {
        let image = bytes.to_vec(alloc)?;
        let mut images = Vec::new(alloc);
        images.push(image)?;
        Ok(MemName {
            alloc,
            seen: bytes.to_vec(alloc)?,
            images,
            synced: 0,
            filler,
            made: 0,
            fails,
            faults: 0,
        })
    }

    /// Each content that a crash might have left so far, in order.
    pub fn images(&self) -> &[Vec<u8>]
        ensures { contents result.now ≡ self.now.images }
    {
        &self.images
    }

    /// Counts a call, and tells whether it is one of those that are to fail.
    fn begin(&mut self) -> bool
        ensures fails { result ≡ fails_next self.old.calls }
        ensures left { MayLeave self.old self.old.seen }
        ensures after { self.new ≡ record self.old { calls = after_call self.old.calls } }
    {
        self.made = self.made.saturating_add(1);
        self.fails.contains(&self.made)
    }

    /// Counts a fault.
    fn fail(&mut self) -> Result<(), Failed>
        ensures never { IsErr result }
        ensures stays { StaysButCalls self.old self.new }
        ensures faults { CountsFaults result self.old.calls.faults self.new.calls.faults }
    {
        self.faults = self.faults.saturating_add(1);
        Err(Failed)
    }

    /// One more content that a crash may leave.
    fn add(&mut self, image: Vec<u8>) -> Result<(), AllocError>
        ensures ok { OnOk result
            (self.new ≡ record self.old { images = self.old.images ++ image.items ∷ [] }) }
        ensures err { OnErr result (self.new ≡ self.old) }
    {
        self.images.push(image)?;
        Ok(())
    }

    /// These bytes as one more content that a crash may leave; it gives a copy of them.
    fn add_given(&mut self, bytes: &[u8]) -> Result<Vec<u8>, AllocError>
        ensures given { IfOk result (λ given. given.items ≡ bytes.now) }
        ensures left { IfOk result (λ given. MayLeave self.new given.items) }
        ensures adds { Adds (Replaces bytes.now) self.old self.new }
        ensures seen { self.new.seen ≡ self.old.seen }
        ensures calls { self.new.calls ≡ self.old.calls }
    {
        let alloc = self.alloc;
        let given = bytes.to_vec(alloc)?;
        let image = bytes.to_vec(alloc)?;
        self.add(image)?;
        Ok(given)
    }

    /// Has the name be that of a file with these bytes, unless the call is to fail or found no
    /// memory. A crash may leave it already.
    fn finish(&mut self, fails: bool, given: Result<Vec<u8>, AllocError>) -> Result<(), Failed>
        requires { IfOk given (λ after. MayLeave self.old after.items) }
        ensures ok { OnOk result (IfOk given (λ after. self.new.seen ≡ after.items)) }
        ensures given { OnOk result (IsOk given) }
        ensures images { self.new.images ≡ self.old.images }
        ensures synced { self.new.synced ≡ self.old.synced }
        ensures faults { CountsFaults result self.old.calls.faults self.new.calls.faults }
    {
        if fails {
            return self.fail();
        }
        match given {
            Ok(after) => {
                self.seen = after;
                Ok(())
            }
            Err(_) => self.fail(),
        }
    }

    /// The content of the file that has the name, as one more that a crash may leave.
    fn add_seen(&mut self) -> Result<(), AllocError>
        ensures ok { OnOk result
            (self.new ≡ record self.old { images = self.old.images ++ self.old.seen ∷ [] }) }
        ensures err { OnErr result (self.new ≡ self.old) }
    {
        let alloc = self.alloc;
        let image = self.seen.to_vec(alloc)?;
        self.add(image)
    }

    /// Leaves the file that has the name as the one that a crash may leave under it.
    fn settle(&mut self) -> Result<(), AllocError>
        ensures ok { OnOk result (self.new ≡ record self.old {
          images = self.old.images ++ self.old.seen ∷ [];
          synced = length self.old.images;
        }) }
        ensures err { OnErr result (self.new ≡ self.old) }
    {
        let synced = self.images.len();
        self.add_seen()?;
        self.synced = synced;
        Ok(())
    }

    /// A file without a byte.
    fn blank(&self) -> Result<MemFile, AllocError>
        ensures seen { IfOk result (λ file. file.seen ≡ []) }
        ensures durable { IfOk result (λ file. LeavesThis [] (MayLeave file)) }
    {
        MemFile::new(self.alloc, &[], self.filler, Vec::new(self.alloc))
    }
}

impl KeptName<MemFile> for MemName {
    ghost use Rattle.kept_file.specs.Memory.{LeftSince, MayLeave};

    ghost tells = { ⊤ };

    ghost seen = { λ f. f.seen };

    ghost may_leave = { MayLeave };

    ghost moment = { λ f. f.synced };

    ghost left_since = { LeftSince };

    ghost faults = { λ f. f.calls.faults };

    ghost only_now = { λ told name c left. left };

    fn make(&mut self) -> Result<MemFile, Failed> {
        if self.begin() {
            self.fail()?;
        }
        match self.blank() {
            Ok(file) => Ok(file),
            Err(_) => {
                self.fail()?;
                unreachable!()
            }
        }
    }

    fn give(&mut self, file: &MemFile) -> Result<(), Failed> {
        let fails = self.begin();
        let given = self.add_given(file.seen());
        self.finish(fails, given)
    }

    fn sync(&mut self) -> Result<(), Failed> {
        if self.begin() {
            return self.fail();
        }
        match self.settle() {
            Ok(()) => Ok(()),
            Err(_) => self.fail(),
        }
    }
}
