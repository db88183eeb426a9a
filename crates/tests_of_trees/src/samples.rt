//! Trees for the tests, from a line for each resource.
use crate::lines::{spelled, tree_of, word};
use m2m_value::{OutOfMemory, Val};
use plain_tree::ListTree;
use std::alloc::Global;
use std::process::Abort;
use tree_model::{Home, Resource, Tree, attributes};

// Number, type, name, parent and owner; when it was created and changed and when it expires; and
// what it has besides. An application entity that is called like a container, live or not, is one
// of another name.
const SAMPLE: &str = r#"1 cb cse-in 0 - 100 100 1000000 {}
3 ae dev 1 - 100 100 1000000 {"aei":"CDev"}
4 cnt c 3 - 100 100 1000000 {"st":0}
5 cnt empty 3 - 100 100 1000000 {"st":0}
6 cin old 4 - 100 100 1000000 {"cs":6}
7 cin new 4 - 100 100 1000000 {"cs":7}
8 grp g 3 - 100 100 1000000 {}
9 pch p 3 - 100 100 1000000 {}
10 cnt short 3 - 100 100 300 {"st":0}
11 cin lost 10 - 100 100 1000000 {"cs":1}
12 ae odd 1 - 100 100 1000000 {"aei":"cnt10"}
13 ae odder 1 - 100 100 1000000 {"aei":"cnt4"}
14 sub s 4 - 100 100 1000000 {}
15 cnt full 1 - 100 100 1000000 {"st":0}
16 cin a 15 - 100 100 1000000 {"cs":10}
17 cin b 15 - 110 110 1000000 {"cs":20}
18 cin c 15 - 120 120 200 {"cs":30}
19 cin d 15 - 130 130 1000000 {"cs":40}
20 cin e 15 - 140 140 1000000 {"cs":50}
21 cnt aged 1 - 100 100 1000000 {"mia":60,"st":0}
22 cin f 21 - 150 150 1000000 {"cs":1}"#;

/// A line of a table: a text, an arrow, and the answer.
pub(crate) fn parts<'a>(rt: &impl Abort, line: &'a str) -> (&'a str, &'a str) {
    line.split_once(" => ").expect(rt, "an arrow")
}

/// The numbers, each with a space behind it.
pub(crate) fn listed(alloc: Global, numbers: &[u64]) -> Result<String, OutOfMemory> {
    if numbers.is_empty() {
        return word(alloc, "none");
    }
    let mut text = String::new(alloc);
    for number in numbers {
        text.push_str(format!(in alloc; "{number} ")?.as_str())?;
    }
    Ok(text)
}

/// The tree that most tests look at.
pub(crate) fn sample(alloc: Global) -> Result<ListTree, OutOfMemory> {
    tree_of(alloc, SAMPLE)
}

fn value_of(alloc: Global, tree: &ListTree, resource: &Resource) -> Result<Val, OutOfMemory> {
    let home = Home::with_defaults(alloc)?;
    attributes(alloc, tree, &home, resource)
}

/// The attributes of a resource as they are shown; nothing where there is none.
pub(crate) fn shown(alloc: Global, tree: &ListTree, number: u64) -> Result<String, OutOfMemory> {
    match tree.get(number) {
        Some(resource) => spelled(alloc, &value_of(alloc, tree, resource)?),
        None => word(alloc, ""),
    }
}
