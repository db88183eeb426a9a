//! A name under which a file stands.
ghost use Rattle.std.specs.Prelude.{◌≡◌, ◌≤◌, ℕ, List, [], IfOk, OnOk};
ghost use Rattle.kept_file.specs.Crashes.{ComesBy, GoesOn, LeavesNoMore, LeavesThis, Replaces};
ghost use Rattle.m2m_io.specs.Counts.{CountsFaults};

use crate::{Failed, KeptFile};

/// A name under which a file stands that outlives the program. What a call says of crashes holds of
/// a name that tells it; then its files tell what they say.
pub trait KeptName<F: KeptFile> {
    /// Names of this type tell what stands below.
    ghost tells: { Type 0 };

    /// The bytes of the file that has the name.
    ghost seen: { Self → List ℕ };

    /// What a crash at this moment may leave under the name.
    ghost may_leave: { Self → List ℕ → Type 0 };

    /// The moment, as a number that doesn't fall.
    ghost moment: { Self → ℕ };

    /// What a crash at some moment from that one on might have left under it.
    ghost left_since: { Self → ℕ → List ℕ → Type 0 };

    /// How often a call has failed. It stops at 2^64 - 1.
    ghost faults: { Self → ℕ };

    /// Makes a file without a byte beside the one that has the name.
    fn make(&mut self) -> Result<F, Failed>
        ensures tells { tells → F.tells }
        ensures empty { F.tells → IfOk result (λ file. F.seen file ≡ []) }
        ensures durable { F.tells
            → IfOk result (λ file. LeavesThis [] (F.may_leave file)) }
        ensures seen { tells → seen self.new ≡ seen self.old }
        ensures crash { tells → LeavesNoMore (may_leave self.old) (may_leave self.new) }
        ensures time { tells → GoesOn (moment self.old) (moment self.new)
            (left_since self.old) (left_since self.new) (may_leave self.new) }
        ensures faults { CountsFaults result (faults self.old) (faults self.new) };

    /// Gives the name to a file, of which a crash leaves what a read gives.
    fn give(&mut self, file: &F) -> Result<(), Failed>
        requires { tells
            → LeavesThis (F.seen file.now) (F.may_leave file.now) }
        ensures seen { tells → OnOk result (seen self.new ≡ F.seen file.now) }
        ensures crash { tells → ComesBy (Replaces (F.seen file.now)) (may_leave self.old)
            (may_leave self.new) }
        ensures time { tells → GoesOn (moment self.old) (moment self.new)
            (left_since self.old) (left_since self.new) (may_leave self.new) }
        ensures faults { CountsFaults result (faults self.old) (faults self.new) };

    /// Has a crash leave from then on the file that has the name.
    fn sync(&mut self) -> Result<(), Failed>
        ensures durable { tells → OnOk result (LeavesThis (seen self.old) (may_leave self.new)) }
        ensures seen { tells → seen self.new ≡ seen self.old }
        ensures crash { tells → LeavesNoMore (may_leave self.old) (may_leave self.new) }
        ensures time { tells → GoesOn (moment self.old) (moment self.new)
            (left_since self.old) (left_since self.new) (may_leave self.new) }
        ensures faults { CountsFaults result (faults self.old) (faults self.new) };

    /// Since this moment there is no other.
    ghost only_now: { tells → (name : Self) (c : List ℕ) → left_since name (moment name) c
        → may_leave name c };
}
