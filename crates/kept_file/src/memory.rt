//! A file in memory.
ghost use Rattle.std.specs.Prelude.{◌≡◌, ◌≤◌, ◌++◌, ◌∷◌, [], length, take, drop, map, OnOk, OnErr};
ghost use Rattle.std.specs.Prelude.{IfOk, IsOk, IsErr, ⊤, false};
ghost use Rattle.kept_file.specs.Crashes.{LeavesThis, Overwrites, Replaces, TornCut, TornWrite};
ghost use Rattle.kept_file.specs.Memory.{Adds, FileData, MayLeave, StaysButCalls, contents};
ghost use Rattle.m2m_io.specs.Counts.{CountsFaults, after_call, fails_next, no_calls};

use crate::{FileFault, KeptFile, NamedFile};
use m2m_io::Failed;
use std::alloc::{AllocError, Global};
use std::marker::Model;

/// A file in memory. It keeps each content that a crash might have left. It fails at the calls that
/// are to fail, and where the memory that a call needs is refused; of a call that failed, a crash
/// may leave all that it might of one that succeeded.
#[derive(Debug, Drop)]
pub struct MemFile {
    alloc: Global,
    seen: Vec<u8>,
    images: Vec<Vec<u8>>,
    synced: usize,
    filler: u8,
    made: u64,
    fails: Vec<u64>,
    faults: u64,
}

impl Model for MemFile {
    ghost use Rattle.std.specs.Prelude.{◌≤◌, length, drop};
    ghost use Rattle.std.specs.List.{Contains};
    ghost use Rattle.kept_file.specs.Memory.{FileData, contents};

    ghost Value = { FileData };

    ghost view = { λ f. record {
      seen = f.seen.items;
      images = contents f.images.items;
      synced = f.synced;
      calls = record { made = f.made; fails = f.fails.items; faults = f.faults };
    } };

    // A crash may leave what a read gives.
    ghost invariant = { λ f. Contains (drop f.synced (contents f.images.items)) f.seen.items };
}

/// These bytes over others, from a place on.
fn overwritten(alloc: Global, old: &[u8], at: usize, bytes: &[u8]) -> Result<Vec<u8>, AllocError>
    requires { at ≤ length old.now }
    ensures { IfOk result (λ new. Overwrites old.now at bytes.now new.items) }
{
    let mut new = old[..at].to_vec(alloc)?;
    new.extend_from_slice(bytes)?;
    if bytes.len() < old.len() - at {
        new.extend_from_slice(&old[at + bytes.len()..])?;
    }
    Ok(new)
}

impl MemFile {
    /// A file of these bytes, all of them on the disk. What a crash tears has `filler` in it. The
    /// calls whose numbers, from 1, are in `fails` fail.
    pub fn new(alloc: Global, bytes: &[u8], filler: u8, fails: Vec<u64>) -> Result<Self, AllocError>
        ensures file { IfOk result (λ file. file ≡ record {
          seen = bytes.now;
          images = bytes.now ∷ [];
          synced = 0;
          calls = no_calls fails.items;
        }) }
        ensures kept { IfOk result (λ file. LeavesThis file.seen (MayLeave file)) }
    {
        let image = bytes.to_vec(alloc)?;
        let mut images = Vec::new(alloc);
        images.push(image)?;
        Ok(MemFile {
            alloc,
            seen: bytes.to_vec(alloc)?,
            images,
            synced: 0,
            filler,
            made: 0,
            fails,
            faults: 0,
        })
    }

    /// The bytes that a read gives.
    pub fn seen(&self) -> &[u8]
        ensures { result.now ≡ self.now.seen }
    {
        &self.seen
    }

    /// Each content that a crash might have left so far, in order.
    pub fn images(&self) -> &[Vec<u8>]
        ensures { contents result.now ≡ self.now.images }
    {
        &self.images
    }

    /// Counts a call, and tells whether it is one of those that are to fail.
    fn begin(&mut self) -> bool
        ensures fails { result ≡ fails_next self.old.calls }
        ensures left { MayLeave self.old self.old.seen }
        ensures after { self.new ≡ record self.old { calls = after_call self.old.calls } }
    {
        self.made = self.made.saturating_add(1);
        self.fails.contains(&self.made)
    }

    /// Counts a fault.
    fn fail(&mut self) -> Result<(), Failed>
        ensures never { IsErr result }
        ensures stays { StaysButCalls self.old self.new }
        ensures faults { CountsFaults result self.old.calls.faults self.new.calls.faults }
    {
        self.faults = self.faults.saturating_add(1);
        Err(Failed)
    }

    /// One more content that a crash may leave.
    fn add(&mut self, image: Vec<u8>) -> Result<(), AllocError>
        ensures ok { OnOk result
            (self.new ≡ record self.old { images = self.old.images ++ image.items ∷ [] }) }
        ensures err { OnErr result (self.new ≡ self.old) }
    {
        self.images.push(image)?;
        Ok(())
    }

    /// One more content, which is what a read gives with these bytes over it.
    fn add_written(&mut self, at: usize, bytes: &[u8]) -> Result<(), AllocError>
        requires { at ≤ length self.old.seen }
        ensures adds { Adds (λ old new. Overwrites old at bytes.now new) self.old self.new }
        ensures seen { self.new.seen ≡ self.old.seen }
        ensures calls { self.new.calls ≡ self.old.calls }
    {
        let alloc = self.alloc;
        let image = overwritten(alloc, &self.seen, at, bytes)?;
        self.add(image)
    }

    /// What a crash may leave while this is written, but for the whole: the first half of it, and
    /// another byte all over its place.
    fn add_torn(&mut self, at: usize, bytes: &[u8]) -> Result<(), AllocError>
        requires { at ≤ length self.old.seen }
        ensures adds { Adds (TornWrite at (length bytes.now)) self.old self.new }
        ensures seen { self.new.seen ≡ self.old.seen }
        ensures calls { self.new.calls ≡ self.old.calls }
    {
        let alloc = self.alloc;
        let filler = self.filler;
        let other = vec![in alloc; filler; bytes.len()]?;
        self.add_written(at, &bytes[..bytes.len() / 2])?;
        self.add_written(at, &other)
    }

    /// What a crash may leave while this is written; of that it gives the whole.
    fn tear(&mut self, at: usize, bytes: &[u8]) -> Result<Vec<u8>, AllocError>
        requires { at ≤ length self.old.seen }
        ensures whole { IfOk result (λ whole. Overwrites self.old.seen at bytes.now whole.items) }
        ensures left { IfOk result (λ whole. MayLeave self.new whole.items) }
        ensures adds { Adds (TornWrite at (length bytes.now)) self.old self.new }
        ensures seen { self.new.seen ≡ self.old.seen }
        ensures calls { self.new.calls ≡ self.old.calls }
    {
        let alloc = self.alloc;
        self.add_torn(at, bytes)?;
        let whole = overwritten(alloc, &self.seen, at, bytes)?;
        let image = whole.to_vec(alloc)?;
        self.add(image)?;
        Ok(whole)
    }

    /// What a crash may leave while the file is cut: what a read gives, and the front of it, which
    /// this gives.
    fn tear_off(&mut self, len: usize) -> Result<Vec<u8>, AllocError>
        requires { len ≤ length self.old.seen }
        ensures front { IfOk result (λ front. front.items ≡ take len self.old.seen) }
        ensures left { IfOk result (λ front. MayLeave self.new front.items) }
        ensures adds { Adds (TornCut len) self.old self.new }
        ensures seen { self.new.seen ≡ self.old.seen }
        ensures calls { self.new.calls ≡ self.old.calls }
    {
        let alloc = self.alloc;
        let front = self.seen[..len].to_vec(alloc)?;
        let image = front.to_vec(alloc)?;
        self.add(image)?;
        Ok(front)
    }

    /// These bytes as one more content that a crash may leave; it gives a copy of them.
    fn add_given(&mut self, bytes: &[u8]) -> Result<Vec<u8>, AllocError>
        ensures given { IfOk result (λ given. given.items ≡ bytes.now) }
        ensures left { IfOk result (λ given. MayLeave self.new given.items) }
        ensures adds { Adds (Replaces bytes.now) self.old self.new }
        ensures seen { self.new.seen ≡ self.old.seen }
        ensures calls { self.new.calls ≡ self.old.calls }
        ensures err { OnErr result (self.new ≡ self.old) }
    {
        let alloc = self.alloc;
        let given = bytes.to_vec(alloc)?;
        let image = bytes.to_vec(alloc)?;
        self.add(image)?;
        Ok(given)
    }

    /// Has a read give what is behind a call, unless the call is to fail or found no memory. A
    /// crash may leave it already.
    fn finish(&mut self, fails: bool, torn: Result<Vec<u8>, AllocError>) -> Result<(), Failed>
        requires { IfOk torn (λ after. MayLeave self.old after.items) }
        ensures ok { OnOk result (IfOk torn (λ after. self.new.seen ≡ after.items)) }
        ensures torn { OnOk result (IsOk torn) }
        ensures fails { OnOk result (fails ≡ false) }
        ensures images { self.new.images ≡ self.old.images }
        ensures synced { self.new.synced ≡ self.old.synced }
        ensures faults { CountsFaults result self.old.calls.faults self.new.calls.faults }
    {
        if fails {
            return self.fail();
        }
        match torn {
            Ok(after) => {
                self.seen = after;
                Ok(())
            }
            Err(_) => self.fail(),
        }
    }

    /// What a read gives, as one more content that a crash may leave.
    fn add_seen(&mut self) -> Result<(), AllocError>
        ensures ok { OnOk result
            (self.new ≡ record self.old { images = self.old.images ++ self.old.seen ∷ [] }) }
        ensures err { OnErr result (self.new ≡ self.old) }
    {
        let alloc = self.alloc;
        let image = self.seen.to_vec(alloc)?;
        self.add(image)
    }

    /// Leaves what a read gives as the one content that a crash may leave.
    fn settle(&mut self) -> Result<(), AllocError>
        ensures ok { OnOk result (self.new ≡ record self.old {
          images = self.old.images ++ self.old.seen ∷ [];
          synced = length self.old.images;
        }) }
        ensures err { OnErr result (self.new ≡ self.old) }
    {
        let synced = self.images.len();
        self.add_seen()?;
        self.synced = synced;
        Ok(())
    }
}

impl KeptFile for MemFile {
    ghost use Rattle.kept_file.specs.Memory.{LeftSince, MayLeave, left_now};

    ghost tells = { ⊤ };

    ghost seen = { λ f. f.seen };

    ghost may_leave = { MayLeave };

    ghost moment = { λ f. f.synced };

    ghost left_since = { LeftSince };

    ghost faults = { λ f. f.calls.faults };

    ghost counts_now = { λ told file t c le now. left_now file.images file.synced t c le now };

    ghost only_now = { λ told file c left. left };

    fn read(&mut self, alloc: Global) -> Result<Vec<u8>, FileFault> {
        if self.begin() {
            self.fail()?;
        }
        Ok(self.seen.to_vec(alloc)?)
    }

    fn write_at(&mut self, at: usize, bytes: &[u8]) -> Result<(), Failed> {
        let fails = self.begin();
        let torn = self.tear(at, bytes);
        self.finish(fails, torn)
    }

    fn cut(&mut self, len: usize) -> Result<(), Failed> {
        let fails = self.begin();
        let torn = self.tear_off(len);
        self.finish(fails, torn)
    }

    fn set_aside(&mut self, _: &[u8], _: &str) -> Result<(), Failed> {
        if self.begin() {
            return self.fail();
        }
        Ok(())
    }

    fn sync(&mut self) -> Result<(), Failed> {
        if self.begin() {
            return self.fail();
        }
        match self.settle() {
            Ok(()) => Ok(()),
            Err(_) => self.fail(),
        }
    }
}

impl NamedFile for MemFile {
    fn replace(&mut self, bytes: &[u8]) -> Result<bool, Failed> {
        let fails = self.begin();
        let Ok(given) = self.add_given(bytes) else {
            return Ok(false);
        };
        self.finish(fails, Ok(given))?;
        Ok(true)
    }
}
