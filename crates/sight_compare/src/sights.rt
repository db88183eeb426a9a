//! Two entities as an originator sees them.
ghost use Rattle.std.specs.Prelude.{◌≡◌, ◌↔◌, IsTrue};
ghost use Rattle.std.specs.Cmp.Lexicographic.{pointwise};
ghost use Rattle.equal_sights.specs.Seen.{seen_list};
ghost use Rattle.equal_sights.specs.Sight.{sight};
ghost use Rattle.sight_compare.specs.Same.{same_resource, same_sights};

use crate::homes::are_one_home;
use crate::looks::Viewer;
use crate::resources::is_seen_alike;
use entity_model::Entity;
use tree_model::{Tree, over};

/// Whether an originator sees the same of two entities: their homes, next numbers and last moments
/// are equal, and so is what it sees of their resources, place by place. What waits in their
/// outboxes isn't compared. It takes no memory.
pub fn same_sight<T: Tree>(left: &Entity<T>, right: &Entity<T>, originator: &[u8]) -> bool
    ensures { IsTrue result ↔ (sight originator.now left.now ≡ sight originator.now right.now) }
{
    have_same_parts(left, right, originator)
}

/// The same, part by part.
fn have_same_parts<T: Tree>(left: &Entity<T>, right: &Entity<T>, originator: &[u8]) -> bool
    ensures { result ≡ same_sights (sight originator.now left.now)
        (sight originator.now right.now) }
{
    left.next == right.next
        && left.last == right.last
        && are_one_home(&left.home, &right.home)
        && are_seen_alike(&viewer_of(left, originator), &viewer_of(right, originator))
}

fn viewer_of<'a, T: Tree>(entity: &'a Entity<T>, originator: &'a [u8]) -> Viewer<'a, T>
    ensures home { result.home.now ≡ entity.now.home }
    ensures nodes { T.nodes result.tree.now ≡ entity.now.nodes }
    ensures originator { result.originator.now ≡ originator.now }
{
    Viewer {
        home: &entity.home,
        tree: &entity.tree,
        originator,
    }
}

/// Whether two viewers, who are one originator, see equal resources, place by place.
fn are_seen_alike<T: Tree>(left: &Viewer<T>, right: &Viewer<T>) -> bool
    requires { left.now.originator.now ≡ right.now.originator.now }
    ensures { result
        ≡ pointwise same_resource
        (seen_list left.now.home.now (T.nodes left.now.tree.now) left.now.originator.now)
        (seen_list right.now.home.now (T.nodes right.now.tree.now) right.now.originator.now) }
{
    let mut others = over(right.tree);
    for resource in over(left.tree) {
        let Some(other) = others.next() else {
            return false;
        };
        if !is_seen_alike(left, resource, right, other) {
            return false;
        }
    }
    others.next().is_none()
}
