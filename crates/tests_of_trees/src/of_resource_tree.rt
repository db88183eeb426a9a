//! The plain tree and the tree with an index answer alike.
use crate::lines::{moment, number, put, text};
use m2m_names::{Attr, Ty};
use m2m_value::Val;
use plain_tree::ListTree;
use resource_tree::IndexTree;
use std::alloc::{AllocError, AllocGlobal, Global};
use std::process::Abort;
use std::test::Fail;
use tree_model::{Attrs, Moments, Resource, Tree, child_named, over, over_instances, stands_in};

// Number, type, name and parent, and when it expires.
const GROWN: &str = "\
1 cb base 0 1000
2 ae dev 1 1000
3 cnt c 2 1000
4 cin a 3 1000
5 cin b 3 200
6 cnt d 3 200
7 cin e 6 1000
8 cin f 3 1000
9 cnt g 2 1000
10 cin h 9 1000";

// A moment at which what is due goes, what is removed then, and of whom is asked: the children, the
// instances, the newest one, how many there are, and their sizes. The size of an instance is its
// number.
const TOLD: &str = "\
0 0 2 => 3 9 / / 0 0
0 0 3 => 4 5 6 8 / 4 5 8 / 8 3 17
0 4 3 => 5 6 8 / 5 8 / 8 2 13
0 6 3 => 4 5 8 / 4 5 8 / 8 3 17
0 6 6 => / / 0 0
0 3 2 => 9 / / 0 0
0 3 3 => / / 0 0
0 3 9 => 10 / 10 / 10 1 10
200 0 3 => 4 8 / 4 8 / 8 2 12
200 8 3 => 4 / 4 / 4 1 4
1000 0 1 => / / 0 0";

// Subscriptions and polling channels, in the same form.
const KINDS: &str = "\
1 cb base 0 1000
2 ae dev 1 1000
3 sub s 2 1000
4 pch p 2 1000
5 sub t 2 200
6 pch q 2 1000";

// What goes, as above, and of whom is asked: the subscriptions and the polling channel.
const HELD: &str = "\
0 0 2 => 3 5 / 4
0 3 2 => 5 / 4
0 4 2 => 3 5 / 6
0 2 2 => /
200 0 2 => 3 / 4
200 3 2 => / 4
0 0 1 => /";

// Number, type, name and parent, and when it expires. An AE has its name behind a C as its AE-ID,
// and a remote CSE its name behind a slash as its CSE-ID. A container has the name of an instance.
const NAMED: &str = "\
1 cb base 0 1000
2 ae dev 1 1000
3 cnt c 2 1000
4 cin cin_4 3 1000
5 cnt cin_6 3 1000
6 cin cin_7 3 1000
7 cin e 3 200
8 csr far 1 1000
9 ae app 1 200
10 cnt c 9 1000
11 cin cin_11 10 1000";

// A moment at which what is due goes, what is removed then, the parent and the name of whom is
// asked, and what they find: the child, the application entity of C and the name, and the remote
// CSE.
const FOUND: &str = "\
0 0 0 base => 1 - -
0 0 1 dev => 2 2 -
0 0 1 app => 9 9 -
0 0 1 far => 8 - 8
0 0 2 c => 3 - -
0 0 3 cin_4 => 4 - -
0 0 3 cin_6 => 5 - -
0 0 3 cin_7 => 6 - -
0 0 3 cin_5 => - - -
0 0 3 e => 7 - -
0 0 10 cin_11 => 11 - -
0 0 3 cin_11 => - - -
0 4 3 cin_4 => - - -
0 5 3 cin_6 => - - -
0 3 3 e => - - -
0 3 2 c => - - -
0 2 1 dev => - - -
0 2 2 c => - - -
0 8 1 far => - - -
200 0 3 e => - - -
200 0 1 app => - - -
200 0 9 c => - - -
200 0 10 cin_11 => - - -
200 0 1 dev => 2 2 -
1000 0 0 base => 1 - -";

// Some that are due alone, two of which one has a child, and more at once than go one by one.
const DUE: &str = "\
1 cb base 0 1000
2 ae dev 1 1000
3 cnt a 2 300
4 cnt b 2 100
5 cnt c 2 150
6 cin d 5 900
7 cnt e 2 200
8 cnt f 2 200
9 cnt g 2 200
10 cnt h 2 200
11 cnt i 2 200
12 cnt j 2 200";

// Moments one after another: at each are told the numbers of what is overdue, which goes then.
// Before them a resource is removed. What is left is told last.
const GOING: &str = "\
0 99 => / 1 2 3 4 5 6 7 8 9 10 11 12
0 100 => 4 / 1 2 3 5 6 7 8 9 10 11 12
4 100 => / 1 2 3 5 6 7 8 9 10 11 12
0 100 150 => 4 / 5 6 / 1 2 3 7 8 9 10 11 12
6 150 => 4 5 / 1 2 3 7 8 9 10 11 12
6 100 150 => 4 / 5 / 1 2 3 7 8 9 10 11 12
0 149 150 199 200 => 4 / 5 6 / / 7 8 9 10 11 12 / 1 2 3
0 200 299 300 1000 => 4 5 6 7 8 9 10 11 12 / / 3 / 2 / 1
8 200 => 4 5 6 7 9 10 11 12 / 1 2 3
0 999 => 3 4 5 6 7 8 9 10 11 12 / 1 2";

fn made(alloc: Global, words: &[&str]) -> Result<Option<Resource>, AllocError> {
    match words {
        [own, ty, name, parent, et] => {
            let moments = Moments {
                ct: 0,
                lt: 0,
                et: moment(et),
            };
            let ty = Ty::from_word(ty.as_bytes()).unwrap_or(Ty::CseBase);
            let (title, owner) = (text(alloc, name)?, text(alloc, "C")?);
            let (own, parent) = (number(own), number(parent));
            let attrs = Attrs::new(alloc);
            let mut resource = Resource::of(own, ty, title, parent, owner, moments, attrs);
            set_id(alloc, &mut resource, name)?;
            Ok(Some(resource))
        }
        _ => Ok(None),
    }
}

fn set_id(alloc: Global, resource: &mut Resource, name: &str) -> Result<(), AllocError> {
    if resource.is(Ty::Ae) {
        let id = text(alloc, format!(in alloc; "C{name}")?.as_str())?;
        resource.set(Attr::Aei, Val::of_text(id))?;
    }
    if resource.is(Ty::RemoteCse) {
        let id = text(alloc, format!(in alloc; "/{name}")?.as_str())?;
        resource.set(Attr::Csi, Val::of_text(id))?;
    }
    if resource.is(Ty::ContentInstance) {
        let size = resource.number();
        resource.set(Attr::Cs, Val::of_num(size as i64))?;
    }
    Ok(())
}

fn grow<T: Tree>(alloc: Global, tree: &mut T, rows: &str) -> Result<(), AllocError> {
    for line in rows.lines() {
        let words: Vec<&str> = line.split(' ').collect(alloc)?;
        if let Some(resource) = made(alloc, words.as_slice())? {
            put(tree, resource);
        }
    }
    Ok(())
}

fn remove<T: Tree>(tree: &mut T, moment: u64, removed: u64) {
    tree.expire(moment);
    if stands_in(&*tree, removed) {
        tree.remove_subtree(removed);
    }
}

fn push(alloc: Global, text: &mut String, number: Option<u64>) -> Result<(), AllocError> {
    match number {
        Some(number) => text.push_str(format!(in alloc; "{number} ")?.as_str()),
        None => Ok(()),
    }
}

fn answers<T: Tree>(alloc: Global, tree: &T, parent: u64) -> Result<String, AllocError> {
    let mut told = String::new(alloc);
    for k in 0..tree.len() {
        push(alloc, &mut told, tree.kid(parent, k))?;
    }
    told.push_str("/ ")?;
    for resource in over_instances(tree, parent) {
        push(alloc, &mut told, Some(resource.number()))?;
    }
    told.push_str("/ ")?;
    push(alloc, &mut told, tree.instance(parent, true))?;
    push(alloc, &mut told, Some(tree.instance_count(parent)))?;
    let sizes = u64::try_from(tree.instance_sizes(parent));
    push(alloc, &mut told, sizes.ok())?;
    Ok(told)
}

fn told<T: Tree>(alloc: Global, tree: T, words: &[&str]) -> Result<String, AllocError> {
    match words {
        [moment, removed, parent] => {
            let mut tree = tree;
            grow(alloc, &mut tree, GROWN)?;
            remove(&mut tree, number(moment), number(removed));
            answers(alloc, &tree, number(parent))
        }
        _ => Err(AllocError),
    }
}

fn check(rt: &(impl Abort + AllocGlobal), line: &str) -> Result<(), Fail> {
    let (asked, want) = line.split_once(" => ").expect(rt, "an arrow");
    let words: Vec<&str> = asked.split(' ').collect(rt.alloc())?;
    let plain = told(rt.alloc(), ListTree::new(rt.alloc()), words.as_slice())?;
    assert!(rt; plain.as_str().trim() == want, "plain: {line}: {plain}");
    let indexed = told(rt.alloc(), IndexTree::new(rt.alloc()), words.as_slice())?;
    assert!(rt;
        indexed.as_str().trim() == want,
        "indexed: {line}: {indexed}"
    );
    Ok(())
}

fn held<T: Tree>(alloc: Global, tree: T, words: &[&str]) -> Result<String, AllocError> {
    match words {
        [moment, removed, parent] => {
            let mut tree = tree;
            grow(alloc, &mut tree, KINDS)?;
            remove(&mut tree, number(moment), number(removed));
            let parent = number(parent);
            let mut told = String::new(alloc);
            for k in 0..tree.len() {
                push(alloc, &mut told, tree.sub(parent, k))?;
            }
            told.push_str("/ ")?;
            push(alloc, &mut told, tree.channel(parent))?;
            Ok(told)
        }
        _ => Err(AllocError),
    }
}

fn check_held(rt: &(impl Abort + AllocGlobal), line: &str) -> Result<(), Fail> {
    let (asked, want) = line.split_once(" => ").expect(rt, "an arrow");
    let words: Vec<&str> = asked.split(' ').collect(rt.alloc())?;
    let plain = held(rt.alloc(), ListTree::new(rt.alloc()), words.as_slice())?;
    assert!(rt; plain.as_str().trim() == want, "plain: {line}: {plain}");
    let indexed = held(rt.alloc(), IndexTree::new(rt.alloc()), words.as_slice())?;
    assert!(rt;
        indexed.as_str().trim() == want,
        "indexed: {line}: {indexed}"
    );
    Ok(())
}

#[test]
fn both_trees_hold_the_same_kinds(rt: HostRuntime) -> Result<(), Fail> {
    for line in HELD.lines() {
        check_held(&rt, line)?;
    }
    Ok(())
}

fn push_found(alloc: Global, text: &mut String, number: Option<u64>) -> Result<(), AllocError> {
    match number {
        Some(_) => push(alloc, text, number),
        None => text.push_str("- "),
    }
}

fn found<T: Tree>(alloc: Global, tree: T, words: &[&str]) -> Result<String, AllocError> {
    match words {
        [moment, removed, parent, name] => {
            let mut tree = tree;
            grow(alloc, &mut tree, NAMED)?;
            remove(&mut tree, number(moment), number(removed));
            let mut told = String::new(alloc);
            let child = child_named(&tree, number(parent), name.as_bytes());
            push_found(alloc, &mut told, child)?;
            let aei = format!(in alloc; "C{name}")?;
            push_found(alloc, &mut told, tree.ae(aei.as_bytes()))?;
            let csi = format!(in alloc; "/{name}")?;
            push_found(alloc, &mut told, tree.cse(csi.as_bytes()))?;
            Ok(told)
        }
        _ => Err(AllocError),
    }
}

fn check_found(rt: &(impl Abort + AllocGlobal), line: &str) -> Result<(), Fail> {
    let (asked, want) = line.split_once(" => ").expect(rt, "an arrow");
    let words: Vec<&str> = asked.split(' ').collect(rt.alloc())?;
    let plain = found(rt.alloc(), ListTree::new(rt.alloc()), words.as_slice())?;
    assert!(rt; plain.as_str().trim() == want, "plain: {line}: {plain}");
    let indexed = found(rt.alloc(), IndexTree::new(rt.alloc()), words.as_slice())?;
    assert!(rt;
        indexed.as_str().trim() == want,
        "indexed: {line}: {indexed}"
    );
    Ok(())
}

#[test]
fn both_trees_find_the_same_by_names(rt: HostRuntime) -> Result<(), Fail> {
    for line in FOUND.lines() {
        check_found(&rt, line)?;
    }
    Ok(())
}

fn push_all(alloc: Global, text: &mut String, numbers: &[u64]) -> Result<(), AllocError> {
    for number in numbers {
        push(alloc, text, Some(*number))?;
    }
    text.push_str("/ ")
}

fn going<T: Tree>(alloc: Global, tree: T, words: &[&str]) -> Result<String, AllocError> {
    let mut tree = tree;
    grow(alloc, &mut tree, DUE)?;
    let mut told = String::new(alloc);
    for (k, word) in words.iter().enumerate() {
        if k == 0 {
            remove(&mut tree, 0, number(word));
        } else {
            let gone = tree.due_numbers(alloc, number(word))?;
            push_all(alloc, &mut told, gone.entries())?;
            tree.expire(number(word));
        }
    }
    for resource in over(&tree) {
        push(alloc, &mut told, Some(resource.number()))?;
    }
    Ok(told)
}

fn check_going(rt: &(impl Abort + AllocGlobal), line: &str) -> Result<(), Fail> {
    let (asked, want) = line.split_once(" => ").expect(rt, "an arrow");
    let words: Vec<&str> = asked.split(' ').collect(rt.alloc())?;
    let plain = going(rt.alloc(), ListTree::new(rt.alloc()), words.as_slice())?;
    assert!(rt; plain.as_str().trim() == want, "plain: {line}: {plain}");
    let indexed = going(rt.alloc(), IndexTree::new(rt.alloc()), words.as_slice())?;
    assert!(rt;
        indexed.as_str().trim() == want,
        "indexed: {line}: {indexed}"
    );
    Ok(())
}

#[test]
fn both_trees_let_go_what_is_due(rt: HostRuntime) -> Result<(), Fail> {
    for line in GOING.lines() {
        check_going(&rt, line)?;
    }
    Ok(())
}

#[test]
fn both_trees_answer_alike(rt: HostRuntime) -> Result<(), Fail> {
    for line in TOLD.lines() {
        check(&rt, line)?;
    }
    Ok(())
}
