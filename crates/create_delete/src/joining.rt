//! A new resource joins a tree.
ghost use Rattle.std.specs.Prelude.{◌≡◌, OnOk, OnErr};
ghost use Rattle.create_delete.specs.Changing.{nodes_joined};
ghost use Rattle.create_delete.specs.Joining.{JoinsAt};

use crate::growth::put_last;
use m2m_value::Numbers;
use std::alloc::AllocError as OutOfMemory;
use tree_model::{Resource, Tree};

/// What a new instance changes of its container: the state tag, and the instances that are pushed
/// out, oldest first.
#[derive(Drop)]
pub(crate) struct ContainerUpdate {
    pub(crate) container: u64,
    pub(crate) state: u64,
    pub(crate) gone: Numbers,
}

/// Puts a resource last at a moment. Of a content instance the container is stamped anew, and what
/// doesn't fit beside it goes. Where memory runs out, nothing has changed.
pub(crate) fn put_new_resource<T: Tree>(
    tree: &mut T,
    moment: u64,
    resource: Resource,
    update: Option<ContainerUpdate>,
) -> Result<(), OutOfMemory>
    requires { JoinsAt moment (T.nodes tree.old) resource update }
    ensures ok { OnOk result
        (T.nodes tree.new ≡ nodes_joined moment (T.nodes tree.old) resource update) }
    ensures err { OnErr result (T.nodes tree.new ≡ T.nodes tree.old) }
{
    put_last(tree, resource)?;
    match update {
        Some(update) => {
            tree.restamp(update.container, moment, update.state);
            tree.remove_all(update.gone.entries());
            Ok(())
        }
        None => Ok(()),
    }
}
