//! A file that outlives the program.
ghost use Rattle.std.specs.Prelude.{◌≡◌, ◌≤◌, ◌++◌, ◌∷◌, [], ℕ, List, length, take, IfOk, OnOk};
ghost use Rattle.std.specs.Prelude.{◌≢◌, Ok, true, false};
ghost use Rattle.kept_file.specs.Crashes.{ComesBy, GoesOn, LeavesNoMore, LeavesOnly, LeavesThis};
ghost use Rattle.kept_file.specs.Crashes.{Overwrites, OverwritesOrNot, TornCut, TornWrite};
ghost use Rattle.kept_file.specs.declared.fault.FileFault.TheVariants.{Failed as failed};
ghost use Rattle.m2m_io.specs.Counts.{CountsFault, CountsFaults};

use crate::FileFault;
use m2m_io::Failed;
use std::alloc::Global;

/// A file that outlives the program. What a call says of its bytes and of crashes holds of a file
/// that tells it.
pub trait KeptFile {
    /// Files of this type tell what stands below.
    ghost tells: { Type 0 };

    /// The bytes that a read gives.
    ghost seen: { Self → List ℕ };

    /// What a crash at this moment may leave.
    ghost may_leave: { Self → List ℕ → Type 0 };

    /// The moment, as a number that doesn't fall.
    ghost moment: { Self → ℕ };

    /// What a crash at some moment from that one on might have left, during a call or between two.
    ghost left_since: { Self → ℕ → List ℕ → Type 0 };

    /// How often the file has failed: the count rises in the calls that fail, and in no other. It
    /// stops at 2^64 - 1.
    ghost faults: { Self → ℕ };

    /// All the bytes.
    fn read(&mut self, alloc: Global) -> Result<Vec<u8>, FileFault>
        ensures bytes { tells → IfOk result (λ bytes. bytes.items ≡ seen self.old) }
        ensures seen { tells → seen self.new ≡ seen self.old }
        ensures crash { tells → LeavesNoMore (may_leave self.old) (may_leave self.new) }
        ensures time { tells → GoesOn (moment self.old) (moment self.new)
            (left_since self.old) (left_since self.new) (may_leave self.new) }
        ensures faults { CountsFault failed result (faults self.old) (faults self.new) };

    /// Writes all of this over what stands at a place, and past the end.
    fn write_at(&mut self, at: usize, bytes: &[u8]) -> Result<(), Failed>
        requires { tells → at ≤ length (seen self.old) }
        ensures written { tells
            → OnOk result (Overwrites (seen self.old) at bytes.now (seen self.new)) }
        ensures crash { tells → ComesBy (TornWrite at (length bytes.now))
            (may_leave self.old) (may_leave self.new) }
        ensures time { tells → GoesOn (moment self.old) (moment self.new)
            (left_since self.old) (left_since self.new) (may_leave self.new) }
        ensures faults { CountsFaults result (faults self.old) (faults self.new) };

    /// Cuts the file to a length.
    fn cut(&mut self, len: usize) -> Result<(), Failed>
        requires { tells → len ≤ length (seen self.old) }
        ensures cut { tells → OnOk result (seen self.new ≡ take len (seen self.old)) }
        ensures crash { tells → ComesBy (TornCut len) (may_leave self.old) (may_leave self.new) }
        ensures time { tells → GoesOn (moment self.old) (moment self.new)
            (left_since self.old) (left_since self.new) (may_leave self.new) }
        ensures faults { CountsFaults result (faults self.old) (faults self.new) };

    /// Keeps bytes of the file, which are about to be cut away or replaced, where whoever runs the
    /// program finds them, and tells what they are. The file stays as it is. Where these bytes are
    /// kept, no clause says.
    fn set_aside(&mut self, bytes: &[u8], what: &str) -> Result<(), Failed>
        ensures seen { tells → seen self.new ≡ seen self.old }
        ensures crash { tells → LeavesNoMore (may_leave self.old) (may_leave self.new) }
        ensures time { tells → GoesOn (moment self.old) (moment self.new)
            (left_since self.old) (left_since self.new) (may_leave self.new) }
        ensures faults { CountsFaults result (faults self.old) (faults self.new) };

    /// Has a crash leave from then on what a read gives.
    fn sync(&mut self) -> Result<(), Failed>
        ensures durable { tells → OnOk result (LeavesThis (seen self.old) (may_leave self.new)) }
        ensures seen { tells → seen self.new ≡ seen self.old }
        ensures crash { tells → LeavesNoMore (may_leave self.old) (may_leave self.new) }
        ensures time { tells → GoesOn (moment self.old) (moment self.new)
            (left_since self.old) (left_since self.new) (may_leave self.new) }
        ensures faults { CountsFaults result (faults self.old) (faults self.new) };

    /// Writes all of this and one byte more over what stands at a place, and past the end, in one
    /// step, and has a crash leave it from then on; tells whether it did. A file that has no such
    /// step stays as it is.
    fn put_whole(&mut self, at: usize, bytes: &[u8], last: u8) -> Result<bool, Failed>
        requires within { tells → at ≤ length (seen self.old) }
        requires kept { tells → LeavesThis (seen self.old) (may_leave self.old) }
        ensures written { tells → IfOk result (λ done. done ≡ true
            → Overwrites (seen self.old) at (bytes.now ++ last ∷ []) (seen self.new)) }
        ensures durable { tells → IfOk result (λ done. done ≡ true
            → LeavesThis (seen self.new) (may_leave self.new)) }
        ensures stays { IfOk result (λ done. done ≡ false → self.new ≡ self.old) }
        // A crash at any moment leaves all of it or nothing of it.
        ensures any_moment { tells → result ≢ Ok false
            → LeavesOnly moment left_since self.old self.new
            (OverwritesOrNot at (bytes.now ++ last ∷ []) (seen self.old)) }
        ensures faults { CountsFaults result (faults self.old) (faults self.new) }
    {
        Ok(false)
    }

    /// Whether the file is still this program's alone. Where it isn't, another program may have
    /// changed it, so that nothing may be answered from what was read of it. No clause says when.
    fn is_held(&self) -> bool {
        true
    }

    /// This moment is one of those since an earlier one.
    ghost counts_now: { tells → (file : Self) (t : ℕ) (c : List ℕ) → t ≤ moment file
        → may_leave file c → left_since file t c };

    /// Since this moment there is no other.
    ghost only_now: { tells → (file : Self) (c : List ℕ) → left_since file (moment file) c
        → may_leave file c };
}
