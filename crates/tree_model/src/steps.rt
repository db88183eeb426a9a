//! Steps that are counted, at no cost.
ghost use Rattle.std.specs.Prelude.{◌≡◌, ◌+◌, ◌<◌};
ghost use Rattle.tree_model.specs.Tree.{child_of};

use crate::tree::Tree;
use std::marker::{Brand, Model};
use std::sync::ledger::{Blank, Book, Ledger, Share};

/// How many steps were taken. It takes no bytes, and what counts a look-up adds to it.
#[derive(Drop)]
pub struct Steps<L: Ledger> {
    book: Book<L>,
    share: Share<L>,
}

impl<L: Ledger> Model for Steps<L> {
    ghost use Rattle.std.specs.Prelude.{ℕ, ◌<◌};

    ghost Value = { ℕ };

    ghost view = { λ s. s.book.total };

    ghost invariant = { λ s. 0 < s.share.parts };
}

impl<L: Ledger> Steps<L> {
    ghost use Rattle.std.specs.Prelude.{◌<◌};

    /// No step yet, on a blank ledger.
    pub fn new(blank: Blank) -> Steps<L>
        requires name { blank.name ≡ L.name }
        requires parts { blank.parts ≡ L.parts }
        requires some { 0 < blank.parts }
        ensures { result ≡ 0 }
    {
        let (book, share) = blank.open::<L>();
        Steps { book, share }
    }

    /// One step more.
    pub fn tick(&mut self)
        ensures { self.new ≡ self.old + 1 }
    {
        self.book.add(&mut self.share, 1);
    }
}

/// The number of the child of a name, for a caller that counts no steps.
pub fn child_named<T: Tree>(tree: &T, parent: u64, name: &[u8]) -> Option<u64>
    ensures { result ≡ child_of parent name.now (T.nodes tree.now) }
{
    child_by::<T, Brand>(tree, parent, name, Blank::new(1))
}

fn child_by<T: Tree, L: Ledger>(tree: &T, parent: u64, name: &[u8], blank: Blank) -> Option<u64>
    requires name { blank.name ≡ L.name }
    requires parts { blank.parts ≡ L.parts }
    requires some { 0 < blank.parts }
    ensures { result ≡ child_of parent name.now (T.nodes tree.now) }
{
    let mut steps = Steps::<L>::new(blank);
    tree.child(parent, name, &mut steps)
}
