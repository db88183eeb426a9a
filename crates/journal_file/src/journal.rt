//! The file of a journal.
ghost use Rattle.std.specs.Prelude.{◌≡◌, ◌⊎◌, ◌+◌, ◌≤◌, ◌<◌, ◌^◌, ◌++◌, true, false, length, take};
ghost use Rattle.std.specs.Prelude.{ℕ, List, IfOk, OnErr, OnOk, is_err, IsErr};
ghost use Rattle.kept_file.specs.Crashes.{LeavesOnly, LeavesThis};
ghost use Rattle.journal_file.specs.Gates.{IsReady, KeepsBeforeOrAfter, KeepsOneOf, KeepsText};
ghost use Rattle.journal_file.specs.Gates.{at_rest, is_batch, text_of};
ghost use Rattle.m2m_io.specs.Counts.{CountsFaults, Rose};

use crate::calls::{cut_synced, replace_synced, write_behind, write_synced};
use kept_file::{Failed, KeptFile, NamedFile};

/// Makes a file ready whose text has so many bytes: cuts away what stands behind the text, and
/// closes the gate there.
pub fn close_behind<F: KeptFile>(file: &mut F, len: usize) -> Result<(), Failed>
    requires within { F.tells → len ≤ length (F.seen file.old) }
    requires text { F.tells → KeepsText (take len (F.seen file.old)) (F.seen file.old) }
    // What is read after a restart is what a crash has left.
    requires kept { F.tells → LeavesThis (F.seen file.old) (F.may_leave file.old) }

    ensures rest { F.tells
        → OnOk result (F.seen file.new ≡ at_rest (take len (F.seen file.old))) }
    ensures kept { F.tells → OnOk result (LeavesThis (F.seen file.new) (F.may_leave file.new)) }
    ensures any_moment { F.tells → LeavesOnly F.moment F.left_since file.old file.new
        (KeepsText (take len (F.seen file.old))) }
    ensures faults { CountsFaults result (F.faults file.old) (F.faults file.new) }
{
    cut_synced(file, len)?;
    write_synced(file, len, b"\n")
}

/// A text that grows by batches, in a file.
#[derive(Debug, Drop)]
pub struct Journal<F> {
    file: F,
    len: usize,
    is_failed: bool,
}

impl<F: KeptFile> Journal<F> {
    /// The journal of a file that is at rest, and whose text has so many bytes.
    pub fn new(file: F, len: usize) -> Self
        ensures file { result.file ≡ file }
        ensures len { result.len ≡ len }
        ensures fresh { result.is_failed ≡ false }
    {
        Journal {
            file,
            len,
            is_failed: false,
        }
    }

    /// How many bytes the text has.
    pub fn len(&self) -> usize
        ensures { result ≡ self.now.len }
    {
        self.len
    }

    /// Whether a batch was refused by the file. Then nothing more is done.
    pub fn is_failed(&self) -> bool
        ensures { result ≡ self.now.is_failed }
    {
        self.is_failed
    }

    /// The file.
    pub fn file(&self) -> &F
        ensures { result.now ≡ self.now.file }
    {
        &self.file
    }

    /// Has nothing more be done, as where something was done that can't be kept.
    pub fn give_up(&mut self)
        ensures failed { self.new.is_failed ≡ true }
        ensures file { self.new.file ≡ self.old.file }
        ensures len { self.new.len ≡ self.old.len }
    {
        self.is_failed = true;
    }

    /// Puts a batch behind the text: at `Ok` each crash from then on leaves it.
    pub fn append(&mut self, batch: &[u8]) -> Result<(), Failed>
        requires batch { is_batch batch.now ≡ true }
        requires ready { F.tells → IsReady F.seen F.may_leave self.old }
        ensures ready { F.tells → IsReady F.seen F.may_leave self.new }
        ensures kept { F.tells → OnOk result
            (text_of F.seen self.new ≡ text_of F.seen self.old ++ batch.now) }
        // A crash at any moment leaves the text from before it, or the text with the whole batch.
        ensures any_moment { F.tells → self.old.is_failed ≡ false
            → LeavesOnly F.moment F.left_since self.old.file self.new.file
            (KeepsBeforeOrAfter (text_of F.seen self.old) batch.now) }

        ensures failed { self.new.is_failed ≡ is_err result }
        ensures sticks { self.old.is_failed ≡ true → IsErr result × (self.new ≡ self.old) }
        ensures faults { F.faults self.old.file ≤ F.faults self.new.file }
        ensures cause { self.old.is_failed ≡ false → OnErr result
            (Rose (F.faults self.old.file) (F.faults self.new.file)
            ⊎ (2 ^ 64 ≤ self.old.len + length batch.now)) }
        ensures steady { OnOk result (F.faults self.new.file ≡ F.faults self.old.file) }
    {
        if self.is_failed {
            return Err(Failed);
        }
        let Some(end) = self.len.checked_add(batch.len()) else {
            self.is_failed = true;
            return Err(Failed);
        };
        let done = put_batch(&mut self.file, self.len, batch);
        match done {
            Ok(()) => self.len = end,
            Err(Failed) => self.is_failed = true,
        }
        done
    }
}

impl<F: NamedFile> Journal<F> {
    /// Puts a file of these bytes, which are a text at rest, in the place of the journal's file,
    /// and tells whether it did. Where the new file can't be made, the journal stays as it is.
    pub fn replace(&mut self, bytes: &[u8]) -> Result<bool, Failed>
        requires works { self.old.is_failed ≡ false }
        requires ready { F.tells → IsReady F.seen F.may_leave self.old }
        requires rest { (text : List ℕ) × (bytes.now ≡ at_rest text) }
        ensures ready { F.tells → IsReady F.seen F.may_leave self.new }
        ensures replaced { F.tells → (text : List ℕ) → bytes.now ≡ at_rest text
            → IfOk result (λ done. done ≡ true → text_of F.seen self.new ≡ text) }
        ensures stays { F.tells → IfOk result
            (λ done. done ≡ false → text_of F.seen self.new ≡ text_of F.seen self.old) }

        // A crash at any moment leaves the old text, or the new one.
        ensures any_moment { F.tells → (text : List ℕ) → bytes.now ≡ at_rest text
            → LeavesOnly F.moment F.left_since self.old.file self.new.file
            (KeepsOneOf (text_of F.seen self.old) text) }

        ensures failed { self.new.is_failed ≡ is_err result }
        ensures faults { CountsFaults result (F.faults self.old.file) (F.faults self.new.file) }
    {
        let done = replace_synced(&mut self.file, bytes);
        match done {
            Ok(true) => self.len = bytes.len() - 1,
            Ok(false) => {}
            Err(_) => self.is_failed = true,
        }
        done
    }
}

/// Puts a batch behind a text of so many bytes: first behind the gate, and then the gate.
fn put<F: KeptFile>(file: &mut F, len: usize, batch: &[u8]) -> Result<(), Failed>
    requires batch { is_batch batch.now ≡ true }
    requires room { len + length batch.now < 2 ^ 64 }
    requires len { F.tells → length (take len (F.seen file.old)) ≡ len }
    requires rest { F.tells → F.seen file.old ≡ at_rest (take len (F.seen file.old)) }
    requires kept { F.tells → LeavesThis (F.seen file.old) (F.may_leave file.old) }
    ensures rest { F.tells → OnOk result
        (F.seen file.new ≡ at_rest (take len (F.seen file.old) ++ batch.now)) }
    ensures kept { F.tells → OnOk result (LeavesThis (F.seen file.new) (F.may_leave file.new)) }
    ensures any_moment { F.tells → LeavesOnly F.moment F.left_since file.old file.new
        (KeepsBeforeOrAfter (take len (F.seen file.old)) batch.now) }
    ensures faults { CountsFaults result (F.faults file.old) (F.faults file.new) }
{
    write_behind(file, len + 1, &batch[1..])?;
    write_synced(file, len, b"@")
}

/// Puts a batch and a closed gate behind a text of so many bytes: in one step, where the file has
/// one.
fn put_batch<F: KeptFile>(file: &mut F, len: usize, batch: &[u8]) -> Result<(), Failed>
    requires batch { is_batch batch.now ≡ true }
    requires room { len + length batch.now < 2 ^ 64 }
    requires len { F.tells → length (take len (F.seen file.old)) ≡ len }
    requires rest { F.tells → F.seen file.old ≡ at_rest (take len (F.seen file.old)) }
    requires kept { F.tells → LeavesThis (F.seen file.old) (F.may_leave file.old) }
    ensures rest { F.tells → OnOk result
        (F.seen file.new ≡ at_rest (take len (F.seen file.old) ++ batch.now)) }
    ensures kept { F.tells → OnOk result (LeavesThis (F.seen file.new) (F.may_leave file.new)) }
    ensures any_moment { F.tells → LeavesOnly F.moment F.left_since file.old file.new
        (KeepsBeforeOrAfter (take len (F.seen file.old)) batch.now) }
    ensures faults { CountsFaults result (F.faults file.old) (F.faults file.new) }
{
    match file.put_whole(len, batch, b'\n') {
        Ok(true) => Ok(()),
        Ok(false) => put(file, len, batch),
        Err(Failed) => Err(Failed),
    }
}
