//! The numbers of resources in order, among some whose resources have gone.
ghost use Rattle.std.specs.Prelude.{◌≡◌, ◌≤◌, ◌<◌, [], ◌∷◌, ◌++◌, drop, take, filter, nat_lt};
ghost use Rattle.std.specs.Prelude.{length, option_map, slice_get, IsTrue, vec_len, vec_capacity};
ghost use Rattle.std.specs.Prelude.{None};
ghost use Rattle.tree_model.specs.Tree.{DoAscend};
ghost use Rattle.resource_store.specs.Slots.{held};
ghost use Rattle.resource_store.specs.Store.{resources_of, KeepsPresent};

use crate::slots::Slots;
use resource_model::Resource;

// So many numbers may have gone before any is let go.
const FEW: u64 = 64;

/// The resource at place k among those of these numbers, from 0.
pub(crate) fn nth_of<'a>(resources: &'a Slots, numbers: &[u64], k: u64) -> Option<&'a Resource>
    ensures { option_map (λ r. r.now) result
        ≡ slice_get (resources_of numbers.now (held resources.now.table)) k }
{
    let mut left = k;
    for number in numbers {
        if let Some(resource) = resources.get(*number) {
            if left == 0 {
                return Some(resource);
            }
            left -= 1;
        }
    }
    None
}

/// The place behind the numbers that are at most this one.
pub(crate) fn place_after(order: &[u64], number: u64) -> usize
    requires { DoAscend order.now }
    ensures bound { result ≤ length order.now }
    ensures value { drop result order.now ≡ filter (nat_lt number) order.now }
{
    order.partition_point(|own| *own <= number)
}

/// The place behind the numbers that are smaller than this one.
fn place_before(order: &[u64], number: u64) -> usize
    requires { DoAscend order.now }
    ensures { take result order.now ≡ filter (λ n. nat_lt n number) order.now }
{
    order.partition_point(|own| *own < number)
}

/// Puts a number last, for which there is room, and lets those go that aren't smaller.
pub(crate) fn put_last(order: &mut Vec<u64>, number: u64)
    requires order { DoAscend order.old.items }
    requires room { vec_len order.old < vec_capacity order.old }
    ensures { order.new.items
        ≡ filter (λ n. nat_lt n number) order.old.items ++ number ∷ [] }
{
    let place = place_before(order, number);
    order.truncate(place);
    order.push_reserved(number);
}

/// Lets numbers go whose resources have gone, where these come last, or are more than half. The
/// resource of this number went just now, and so many are left.
pub(crate) fn let_gaps_go(resources: &Slots, order: &mut Vec<u64>, count: u64, gone: u64)
    requires { held resources.now.table gone ≡ None }
    ensures { KeepsPresent (held resources.now.table) order.old.items order.new.items }
{
    while lets_last_go(resources, order, count, gone) {}
    if order.len() as u64 > count.saturating_mul(2).saturating_add(FEW) {
        let_all_go(resources, order);
    }
}

// Lets the last number go, where its resource has gone, and says so. Where there are no more
// numbers than resources, none has.
fn lets_last_go(resources: &Slots, order: &mut Vec<u64>, count: u64, gone: u64) -> bool
    requires { held resources.now.table gone ≡ None }
    ensures kept { KeepsPresent (held resources.now.table) order.old.items order.new.items }
    ensures less { IsTrue result → length order.new.items < length order.old.items }
{
    if order.len() as u64 <= count {
        return false;
    }
    let Some(last) = order.last().copied() else {
        return false;
    };
    if !has_gone(resources, last, gone) {
        return false;
    }
    let _gone = order.pop();
    true
}

// Whether the resource of a number has gone, as that of this number has.
fn has_gone(resources: &Slots, number: u64, gone: u64) -> bool
    requires { held resources.now.table gone ≡ None }
    ensures { IsTrue result → held resources.now.table number ≡ None }
{
    number == gone || !resources.has(number)
}

fn let_all_go(resources: &Slots, order: &mut Vec<u64>)
    ensures { KeepsPresent (held resources.now.table) order.old.items order.new.items }
{
    order.retain(|number| resources.has(*number));
}
