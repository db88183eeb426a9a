//! Items that are appended, taken and dropped.
ghost use Rattle.std.specs.Prelude.{◌≤◌, OnOk};
ghost use Rattle.std.specs.List.{AllByRecursion};
ghost use Rattle.m2m_value.specs.Shapes.{largest_count};
ghost use Rattle.notify_outbox.specs.declared.item.Item.{Item};
ghost use Rattle.primitive_json.specs.Notes.{IsSoundDest};

use crate::lines::{text, tree_of};
use m2m_names::Op;
use notify_outbox::{OutOfMemory, Outbox};
use plain_tree::ListTree;
use primitive_json::{Dest, Kind, Note, NoteParts, Request, RequestParts};
use std::alloc::Global;
use std::test::Fail;

// A tree with one polling channel.
const TREE: &str = r#"1 cb cse-in 0 - 100 100 1000000 {}
3 ae dev 1 - 100 100 1000000 {"aei":"CDev"}
9 pch p 3 - 100 100 1000000 {}"#;

// The polling channel that the tree has, and one that it doesn't have.
const LIVE: u64 = 9;

const GONE: u64 = 8;

// Who takes items.
#[derive(Clone, Copy, Debug)]
enum Taker {
    Sender,
    Channel(u64),
    Anyone,
}

// At a moment what is old is dropped; how many items are left then, and which a taker gets.
const TAKEN: [(u64, u64, Taker, &str); 8] = [
    (0, 5, Taker::Sender, "n2b n3c n5e "),
    (0, 5, Taker::Channel(LIVE), "n1a n4d "),
    (0, 5, Taker::Channel(7), ""),
    (0, 5, Taker::Anyone, "n1a n2b n3c n4d n5e "),
    (86_404, 5, Taker::Channel(GONE), "n2b n5e "),
    (86_405, 3, Taker::Anyone, "n3c n4d n5e "),
    (86_407, 1, Taker::Channel(LIVE), ""),
    (86_408, 0, Taker::Anyone, ""),
];

// How many items were numbered before, so that the first gets the last number but one.
const NEARLY_ALL: u64 = 9_223_372_036_854_775_805;

// The same of items that come when the numbers are used up, by the last digit of their numbers.
const LATE: [(u64, u64, Taker, &str); 7] = [
    (0, 5, Taker::Sender, "7b 7c 7e "),
    (0, 5, Taker::Channel(LIVE), "6a 7d "),
    (0, 5, Taker::Anyone, "6a 7b 7c 7d 7e "),
    (0, 5, Taker::Channel(7), ""),
    (86_405, 3, Taker::Channel(GONE), "7e "),
    (86_406, 2, Taker::Anyone, "7d 7e "),
    (86_408, 0, Taker::Anyone, ""),
];

fn note(alloc: Global, to: &str, dest: Dest) -> Result<Note, OutOfMemory>
    requires { IsSoundDest dest }
{
    let request = Request::of(RequestParts {
        op: Op::Notify,
        to: text(alloc, to)?,
        fr: None,
        rqi: text(alloc, "")?,
        ty: None,
        pc: None,
        rqet: None,
        rt: None,
        rcn: None,
        fc: None,
        drt: None,
    });
    Ok(Note::of(NoteParts {
        kind: Kind::Relay,
        dest,
        request,
    }))
}

// An outbox in which nothing waits, and so many items were numbered before.
fn empty(alloc: Global, numbered: u64) -> Outbox
    requires { numbered ≤ largest_count }
    ensures { AllByRecursion (λ (i : Item). i.since ≤ 0) result.items }
{
    let mut outbox = Outbox::new(alloc);
    outbox.count_up_to(alloc, numbered);
    outbox
}

// Appends an item at a moment, the last one having been appended at `last` or before.
fn put(
    alloc: Global,
    outbox: &mut Outbox,
    to: &str,
    dest: Dest,
    last: u64,
    since: u64,
) -> Result<(), OutOfMemory>
    requires dest { IsSoundDest dest }
    requires order { last ≤ since }
    requires items { AllByRecursion (λ (i : Item). i.since ≤ last) outbox.old.items }
    ensures { OnOk result (AllByRecursion (λ (i : Item). i.since ≤ since) outbox.new.items) }
{
    let item = note(alloc, to, dest)?;
    outbox.reserve(alloc, 1)?;
    outbox.append(item, since);
    Ok(())
}

// Five items behind so many others: to nowhere, into the channel that isn't there, and into the one
// that is.
fn five(alloc: Global, numbered: u64) -> Result<Outbox, OutOfMemory>
    requires { numbered ≤ largest_count }
{
    let mut outbox = empty(alloc, numbered);
    put(alloc, &mut outbox, "a", Dest::Channel(LIVE), 0, 5)?;
    put(alloc, &mut outbox, "b", Dest::Channel(GONE), 5, 5)?;
    put(alloc, &mut outbox, "c", Dest::Nowhere, 5, 6)?;
    put(alloc, &mut outbox, "d", Dest::Channel(LIVE), 6, 7)?;
    put(alloc, &mut outbox, "e", Dest::Channel(GONE), 7, 8)?;
    Ok(outbox)
}

fn take(outbox: &mut Outbox, tree: &ListTree, taker: Taker) -> Option<Note> {
    match taker {
        Taker::Sender => outbox.take_next(tree),
        Taker::Channel(number) => outbox.take_for(number),
        Taker::Anyone => outbox.take_first(),
    }
}

// What a taker gets, until there is no more: the request identifiers, from a place on, and to whom.
fn told(
    alloc: Global,
    outbox: &mut Outbox,
    tree: &ListTree,
    taker: Taker,
    from: usize,
) -> Result<String, OutOfMemory> {
    let mut told = String::new(alloc);
    for _ in 0..outbox.len() {
        if let Some(note) = take(outbox, tree, taker) {
            let request = note.parts().request.parts();
            let id = request.rqi.entries().get(from..).unwrap_or(&[]);
            told.push_str(String::from_utf8_lossy(alloc, id)?.as_str())?;
            told.push_str(String::from_utf8_lossy(alloc, request.to.entries())?.as_str())?;
            told.push_str(" ")?;
        }
    }
    Ok(told)
}

#[test]
fn items_leave_in_order_and_are_kept_a_day(rt: HostRuntime) -> Result<(), Fail> {
    let alloc = rt.alloc();
    let tree = tree_of(alloc, TREE)?;
    for (moment, left, taker, want) in TAKEN {
        let mut outbox = five(alloc, 0)?;
        outbox.drop_old(moment);
        assert_eq!(rt; outbox.len(), left, "{taker:?}");
        let taken = told(alloc, &mut outbox, &tree, taker, 0)?;
        assert!(rt; taken.as_str() == want, "{taker:?}: {taken}");
    }
    Ok(())
}

#[test]
fn items_come_and_leave_when_the_numbers_are_used_up(rt: HostRuntime) -> Result<(), Fail> {
    let alloc = rt.alloc();
    let tree = tree_of(alloc, TREE)?;
    for (moment, left, taker, want) in LATE {
        let mut outbox = five(alloc, NEARLY_ALL)?;
        outbox.drop_old(moment);
        assert_eq!(rt; outbox.len(), left, "{taker:?}");
        let taken = told(alloc, &mut outbox, &tree, taker, 19)?;
        assert!(rt; taken.as_str() == want, "{taker:?}: {taken}");
    }
    Ok(())
}

#[test]
fn the_first_for_a_channel_stays(rt: HostRuntime) -> Result<(), Fail> {
    let outbox = five(rt.alloc(), 0)?;
    assert!(rt; outbox.first_for(LIVE).is_some());
    assert!(rt; outbox.first_for(7).is_none());
    assert_eq!(rt; outbox.len(), 5);
    Ok(())
}
