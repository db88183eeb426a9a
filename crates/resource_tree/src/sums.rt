//! What the sizes of instances add up to.
ghost use Rattle.std.specs.Prelude.{◌≡◌, ◌-◌, ℕ, nat_eq, Some, None, option_map};
ghost use Rattle.std.specs.Prelude.{◌<◌, ◌^◌, IfSome, if◌then◌else◌};
ghost use Rattle.std.specs.HashMap.{get};
ghost use Rattle.resource_tree.specs.Index as spec;

use resource_store::NumberMap;

// Sums from this one on aren't told; no tree has room for as much.
const LARGEST_SUM: u128 = 1 << 127;

/// Adds the size of an instance to the sum of its container, or begins a sum with the first one. A
/// sum that there is no room for isn't kept.
pub(crate) fn add_sum(sums: &mut NumberMap<u128>, container: u64, is_first: bool, size: u64)
    ensures { (p s : ℕ) → get nat_eq sums.new p ≡ Some s → (if nat_eq container p
        then spec.grown_sum is_first size (get nat_eq sums.old p) else get nat_eq sums.old p)
        ≡ Some s }
{
    match grown_sum(is_first, size, sum_of(sums, container)) {
        Some(sum) => put_sum(sums, container, sum),
        None => forget_sum(sums, container),
    }
}

fn sum_of(sums: &NumberMap<u128>, container: u64) -> Option<u128>
    ensures { result ≡ get nat_eq sums.now container }
{
    sums.get(&container).copied()
}

// None where it is unknown, or too large to be kept.
fn grown_sum(is_first: bool, size: u64, sum: Option<u128>) -> Option<u128>
    ensures { (s : ℕ) → result ≡ Some s → spec.grown_sum is_first size sum ≡ Some s }
{
    match sum {
        Some(sum) => sum.checked_add(size as u128),
        None if is_first => Some(size as u128),
        None => None,
    }
}

fn put_sum(sums: &mut NumberMap<u128>, container: u64, sum: u128)
    ensures { (p s : ℕ) → get nat_eq sums.new p ≡ Some s → (if nat_eq container p
        then Some sum else get nat_eq sums.old p) ≡ Some s }
{
    if let Err(_) = sums.insert(container, sum) {
        forget_sum(sums, container);
    }
}

/// The sum of a container, where it is known.
pub(crate) fn known_sum(sums: &NumberMap<u128>, container: u64) -> Option<u128>
    ensures value { (s : ℕ) → result ≡ Some s → get nat_eq sums.now container ≡ Some s }
    ensures bound { IfSome result (λ s. s < 2 ^ 127) }
{
    let sum = sum_of(sums, container)?;
    if sum < LARGEST_SUM { Some(sum) } else { None }
}

/// Takes the size of an instance from the sum of its container.
pub(crate) fn take_sum(sums: &mut NumberMap<u128>, container: u64, size: u64)
    ensures { (p : ℕ) → get nat_eq sums.new p
        ≡ option_map (λ t. t - (if nat_eq container p then size else 0)) (get nat_eq sums.old p) }
{
    if let Some(sum) = sums.get_mut(&container) {
        *sum = sum.saturating_sub(size as u128);
    }
}

/// The sum of a container isn't known any more.
pub(crate) fn forget_sum(sums: &mut NumberMap<u128>, container: u64)
    ensures { (p : ℕ) → get nat_eq sums.new p
        ≡ if nat_eq container p then None else get nat_eq sums.old p }
{
    let _gone = sums.remove(&container);
}
