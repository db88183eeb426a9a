//! The home that words say.
ghost use Rattle.std.specs.Prelude.{◌≡◌, Some};
ghost use Rattle.command_words.specs.Command.{admitted};
ghost use Rattle.command_words.specs.Reading.{MayRunOut, Reads, home_by};

use crate::faults::{LineFault, Wanted, WordFault};
use crate::names;
use resource_model::{Home, HomeFault};
use std::alloc::Global;

/// What an entity is called and who runs it, as texts that may not be admitted.
#[derive(Clone, Copy, Debug)]
pub(crate) struct HomeWords<'a> {
    /// The service provider.
    pub sp: &'a str,
    /// The CSE-ID without its slash.
    pub csi: &'a str,
    /// The name of the CSEBase.
    pub base: &'a str,
    /// The CSE type.
    pub cst: i64,
    /// The administrator.
    pub admin: &'a str,
}

impl<'a> HomeWords<'a> {
    /// The home, if each of its parts is admitted.
    pub(crate) fn home(self, alloc: Global) -> Result<Home, LineFault<'a>>
        ensures reads { Reads (λ home. home) (admitted (home_by self.entry)) result }
        ensures memory { MayRunOut (admitted (home_by self.entry) ≡ Some (home_by self.entry))
            result }
    {
        let (sp, csi, base) = (
            self.sp.as_bytes(),
            self.csi.as_bytes(),
            self.base.as_bytes(),
        );
        match Home::new(alloc, sp, csi, base, self.cst, self.admin.as_bytes()) {
            Ok(home) => Ok(home),
            Err(HomeFault::Bad(place)) => Err(LineFault::Words(self.fault_at(place))),
            Err(HomeFault::OutOfMemory) => Err(LineFault::OutOfMemory),
        }
    }

    /// Which part isn't admitted, by its place among the parts of a home. The type is judged as it
    /// is read.
    fn fault_at(self, place: usize) -> WordFault<'a> {
        let (option, value, wanted) = match place {
            0 => (names::SP, self.sp, Wanted::Name),
            1 => (names::ID, self.csi, Wanted::Name),
            2 => (names::BASE, self.base, Wanted::BaseName),
            _ => (names::ADMIN, self.admin, Wanted::Originator),
        };
        WordFault::Value {
            option,
            value,
            wanted,
        }
    }
}
