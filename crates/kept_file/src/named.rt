//! A file under a name, in whose place another one can be put.
ghost use Rattle.std.specs.Prelude.{◌≡◌, true, false, IfOk};
ghost use Rattle.kept_file.specs.Crashes.{ComesBy, GoesOn, LeavesNoMore, Replaces};
ghost use Rattle.m2m_io.specs.Counts.{CountsFaults};

use crate::KeptFile;
use m2m_io::Failed;

/// A file under a name, in whose place another one can be put: what is read and written then is the
/// new one.
pub trait NamedFile: KeptFile {
    /// Puts a file of these bytes in the place of the one that has the name, and tells whether it
    /// did. Where the new file can't be made, the old one stays. Until a sync a crash may leave
    /// either.
    fn replace(&mut self, bytes: &[u8]) -> Result<bool, Failed>
        ensures replaced { Self.tells
            → IfOk result (λ done. done ≡ true → Self.seen self.new ≡ bytes.now) }
        ensures stays { Self.tells → IfOk result (λ done. done ≡ false
            → (Self.seen self.new ≡ Self.seen self.old)
            × LeavesNoMore (Self.may_leave self.old) (Self.may_leave self.new)) }
        ensures crash { Self.tells → ComesBy (Replaces bytes.now) (Self.may_leave self.old)
            (Self.may_leave self.new) }
        ensures time { Self.tells → GoesOn (Self.moment self.old) (Self.moment self.new)
            (Self.left_since self.old) (Self.left_since self.new) (Self.may_leave self.new) }
        ensures faults { CountsFaults result (Self.faults self.old) (Self.faults self.new) };
}
