//! An item on its way.
ghost use Rattle.std.specs.Prelude.{◌≡◌};
ghost use Rattle.cse_server.specs.Outside.{link_told};
ghost use Rattle.journaled_server.specs.Sending.{CarriesNote};

use cse_server::send_to;
use m2m_io::Link;
use notify_outbox::Item;
use service_observer::ItemObserver;
use std::alloc::Global;

/// An item that was carried, or for which memory ran out then. Carrying alone makes one, so who has
/// one may say that the item is sent.
#[derive(Drop)]
pub(crate) struct Carried {
    number: u64,
    whole: bool,
}

impl Carried {
    /// The number of the item.
    pub(crate) fn number(&self) -> u64
        ensures { result ≡ self.now.number }
    {
        self.number
    }

    /// Whether there was memory for all of it.
    pub(crate) fn is_whole(&self) -> bool
        ensures { result ≡ self.now.whole }
    {
        self.whole
    }
}

/// Carries an item where it is to go.
pub(crate) fn carry<L: Link + ItemObserver>(alloc: Global, link: &mut L, item: Item) -> Carried
    ensures number { result.number ≡ item.number }
    ensures carries { CarriesNote result.whole item.note
        (link_told (L.exchanges link.old) (L.faults link.old))
        (link_told (L.exchanges link.new) (L.faults link.new)) }
{
    let number = item.number;
    match send_to(alloc, link, &item.note) {
        Ok(()) => Carried {
            number,
            whole: true,
        },
        Err(_) => Carried {
            number,
            whole: false,
        },
    }
}
