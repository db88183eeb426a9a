//! A tree that is asked, shown and let expire.
use crate::samples::{sample, shown};
use plain_tree::ListTree;
use std::alloc::{AllocError, Global};
use tree_model::{
    Resource, Tree, child_at, child_named, has_ae, has_channel, has_child, has_cse, may_replace,
    may_restamp, over, over_instances, stands_in, subscription_at,
};

const CONTAINER: &str = "{\"m2m:cnt\":{\"cbs\":13,\"cni\":2,\"ct\":\"19700101T000140\",\
    \"et\":\"19700112T134640\",\"lt\":\"19700101T000141\",\"pi\":\"ae3\",\"ri\":\"cnt4\",\
    \"rn\":\"c\",\"st\":2,\"ty\":3}}";

const GROUP: &str = "{\"m2m:grp\":{\"csy\":1,\"ct\":\"19700101T000140\",\
    \"et\":\"19700112T134640\",\"lt\":\"19700101T000140\",\"mt\":0,\"pi\":\"ae3\",\
    \"ri\":\"grp8\",\"rn\":\"g\",\"ty\":9}}";

/// The sample, in which a container was stamped anew.
fn stamped(alloc: Global) -> Result<ListTree, AllocError> {
    let mut tree = sample(alloc)?;
    if may_restamp(&tree, 4) {
        tree.restamp(4, 101, 2);
    }
    Ok(tree)
}

#[test]
fn shows_attributes(rt: HostRuntime) -> Result<(), AllocError> {
    let tree = stamped(rt.alloc())?;
    for (number, want) in [(4, CONTAINER), (8, GROUP), (2, "")] {
        let shown = shown(rt.alloc(), &tree, number)?;
        assert!(rt; shown.as_str() == want, "at {number}");
    }
    Ok(())
}

fn number(found: Option<&Resource>) -> Option<u64> {
    Some(found?.number())
}

// What stands at a place among the children and the subscriptions.
fn at_places(tree: &ListTree, parent: u64, place: u64) -> [Option<u64>; 4] {
    [
        tree.kid(parent, place),
        number(child_at(tree, parent, place)),
        tree.sub(parent, place),
        number(subscription_at(tree, parent, place)),
    ]
}

// The first two instances, the first resource after a number, and the second instance again.
fn afterwards(tree: &ListTree, parent: u64, after: u64) -> [Option<u64>; 4] {
    let mut oldest = over_instances(tree, parent);
    [
        number(oldest.next()),
        number(oldest.next()),
        number(tree.after(after)),
        tree.nth_instance(parent, 1),
    ]
}

// The last instance and the first, the polling channel, and the child of a name.
fn below(tree: &ListTree, parent: u64, name: &[u8]) -> [Option<u64>; 4] {
    [
        tree.instance(parent, true),
        tree.instance(parent, false),
        tree.channel(parent),
        child_named(tree, parent, name),
    ]
}

#[test]
fn answers_what_procedures_ask(rt: HostRuntime) -> Result<(), AllocError> {
    let tree = sample(rt.alloc())?;
    assert_eq!(rt;
        at_places(&tree, 4, 0),
        [Some(6), Some(6), Some(14), Some(14)]
    );
    assert_eq!(rt; at_places(&tree, 4, 1), [Some(7), Some(7), None, None]);
    assert_eq!(rt;
        afterwards(&tree, 4, 6),
        [Some(6), Some(7), Some(7), Some(7)]
    );
    assert_eq!(rt; afterwards(&tree, 3, 9), [None, None, Some(10), None]);
    assert_eq!(rt; below(&tree, 4, b"new"), [Some(7), Some(6), None, Some(7)]);
    assert_eq!(rt; below(&tree, 3, b"new"), [None, None, Some(9), None]);
    assert!(rt; tree.instance_count(4) == 2 && tree.instance_sizes(4) == 13);
    Ok(())
}

// Whether there are these: an application entity, another CSE, a polling channel and a child.
fn are_there(tree: &ListTree, parent: u64, name: &[u8]) -> [bool; 4] {
    [
        has_ae(tree, name),
        has_cse(tree, name),
        has_channel(tree, parent),
        has_child(tree, parent, name),
    ]
}

// Whether a resource is there, and may stand in its own place.
fn may_stay(tree: &ListTree, number: u64) -> bool {
    match tree.get(number) {
        Some(resource) => may_replace(tree, resource),
        None => false,
    }
}

#[test]
fn finds_entities(rt: HostRuntime) -> Result<(), AllocError> {
    let tree = sample(rt.alloc())?;
    assert_eq!(rt; (tree.ae(b"CDev"), tree.cse(b"/id-mn")), (Some(3), None));
    assert_eq!(rt; are_there(&tree, 3, b"CDev"), [true, false, true, false]);
    assert_eq!(rt; are_there(&tree, 4, b"new"), [false, false, false, true]);
    assert!(rt; may_stay(&tree, 4) && !may_stay(&tree, 100));
    Ok(())
}

fn numbers(alloc: Global, tree: &ListTree) -> Result<Vec<u64>, AllocError> {
    let mut numbers = Vec::new(alloc);
    for resource in over(tree) {
        numbers.push(resource.number())?;
    }
    Ok(numbers)
}

// What stands after everything went that is due at a moment, and one subtree more.
fn left_after(alloc: Global, moment: u64, removed: u64) -> Result<ListTree, AllocError> {
    let mut tree = sample(alloc)?;
    tree.expire(moment);
    if stands_in(&tree, removed) {
        tree.remove_subtree(removed);
    }
    Ok(tree)
}

#[test]
fn removes_what_is_due_and_what_stands_below(rt: HostRuntime) -> Result<(), AllocError> {
    let wants: [(u64, u64, u64, &[u64]); 3] = [
        (199, 3, 200, &[1, 12, 13, 15, 16, 17, 18, 19, 20, 21, 22]),
        (209, 3, 210, &[1, 12, 13, 15, 16, 17, 19, 20, 21, 22]),
        (
            300,
            15,
            1_000_000,
            &[1, 3, 4, 5, 6, 7, 8, 9, 12, 13, 14, 21],
        ),
    ];
    for (moment, removed, quiet_until, want) in wants {
        let tree = left_after(rt.alloc(), moment, removed)?;
        assert!(rt;
            numbers(rt.alloc(), &tree)?.as_slice() == want,
            "at {moment}"
        );
        assert_eq!(rt; tree.quiet_until(), quiet_until);
    }
    Ok(())
}
