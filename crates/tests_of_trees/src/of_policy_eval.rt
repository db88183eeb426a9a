//! Rights by the policies of a small tree.
use crate::lines::{number, tree_of};
use crate::samples::parts;
use m2m_names::is_originator;
use plain_tree::ListTree;
use policy_eval::{fan_granted, granted, may_relink};
use std::alloc::{AllocGlobal, Global};
use std::process::Abort;
use std::test::Fail;
use tree_model::{Home, stands_in};

const WORLD: &str = r#"1 cb r1 0 CAdmin 0 0 - {"acpi":["acp2"]}
2 acp r2 1 CAdmin 0 0 - {"pv":{"acr":[{"acor":["CAdmin"],"acop":63},{"acor":["all"],"acop":1}]}}
3 ae r3 1 C1 0 0 - {"aei":"C1"}
4 acp r4 1 C1 0 0 - {"pv":{"acr":[{"acor":["all"],"acop":2}]}}
5 acp r5 1 C1 0 0 - {"pv":{"acr":[{"acor":["*"],"acop":2}]}}
6 acp r6 1 C1 0 0 - {"pv":{"acr":[{"acor":["C*"],"acop":2}]}}
7 acp r7 1 C1 0 0 - {"pv":{"acr":[{"acor":["/id-in/C1"],"acop":2}]}}
8 acp r8 1 C1 0 0 - {"pv":{"acr":[{"acor":["C1"],"acop":2}]}}
9 acp r9 1 C1 0 0 - {"pv":{"acr":[{"acor":["C*1"],"acop":2}]}}
10 acp r10 1 C1 0 0 - {"pv":{"acr":[{"acor":["C1"],"acop":1},{"acor":["C*"],"acop":2}]}}
11 acp r 1 x 0 0 - {"pv":{"acr":[{"acor":["C1"],"acop":4}]},"pvs":{"acr":[{"acor":["D"],"acop":4}]}}
20 cnt r20 3 C1 0 0 - {"acpi":["acp4"]}
21 cnt r21 3 C1 0 0 - {"acpi":["acp5"]}
22 cnt r22 3 C1 0 0 - {"acpi":["acp6"]}
23 cnt r23 3 C1 0 0 - {"acpi":["acp7"]}
24 cnt r24 3 C1 0 0 - {"acpi":["acp8"]}
25 cnt r25 3 C1 0 0 - {"acpi":["acp9"]}
26 cnt r26 3 C1 0 0 - {"acpi":["acp10"]}
27 cnt r27 3 C1 0 0 - {"acpi":["acp99","acp3","acp8"]}
28 cnt r28 3 C1 0 0 - {"acpi":["acp99"]}
29 cnt r29 3 C1 0 0 - {}
30 cnt r30 3 C1 0 0 - {"acpi":[]}
31 cnt r31 3 C1 0 0 - {"acpi":["acp11"]}
32 cnt r32 3 C1 0 0 - {"acpi":["acp04","acp"]}
40 cin r40 22 x 0 0 - {}
41 cin r41 29 x 0 0 - {}
50 pch r50 3 x 0 0 - {}
60 csr r60 1 /id-mn 0 0 - {"csi":"/id-mn"}
61 pch r61 60 x 0 0 - {}
70 grp r70 3 C1 0 0 - {"acpi":["acp6"]}
71 grp r71 3 C1 0 0 - {"acpi":["acp6"],"macp":["acp8"]}
72 grp r72 3 C1 0 0 - {"macp":["acp99"]}"#;

// What is asked: what is granted, whether `acpi` may be changed, whether to fan out; the
// originator, the privileges, the resource; and the answer, with its reason.
const TOLD: &str = "\
granted x 2 20 => yes: by `all`
granted x 1 20 => no: by another bit
granted //far/x 2 21 => yes: by `*`
granted C7 2 22 => yes: by `C*`
granted /id-in/C7 2 22 => yes: by `C*`, a full form
granted /id-mn/C7 2 22 => no: by `C*`, of another CSE
granted S7 2 22 => no: by `C*`, another letter
granted C1 2 23 => yes: by a full form, a name
granted /id-in/C1 2 24 => yes: by a name, a full form
granted C11 2 24 => no: by a name, a longer one
granted C21 2 25 => no: by `*` in the middle
granted C*1 2 25 => yes: by `*` in the middle, itself
granted C1 3 26 => yes: by two rules, both bits
granted C2 3 26 => no: by one of two rules
granted C2 2 26 => yes: by one of two rules, its bit
granted C1 2 27 => yes: by a policy beside a missing one
granted C1 2 28 => no: by missing policies alone, the owner
granted C2 2 32 => no: by a number with a 0 in front
granted C1 63 29 => yes: by no policy, the owner
granted C2 2 29 => no: by no policy, another
granted /id-in/C1 63 30 => yes: by an empty list, the owner
granted D 4 11 => yes: a policy by its own `pvs`
granted C1 4 11 => no: a policy, not by its `pv`
granted C7 2 40 => yes: an instance by its container
granted x 2 40 => no: an instance, not by its owner
granted C1 2 41 => yes: an instance, by the owner of its container
granted C1 63 50 => yes: a channel by its AE
granted x 2 50 => no: a channel, not by its owner
granted /id-mn 63 61 => yes: a channel by its remote CSE
granted /id-mn/C1 2 61 => no: a channel, not by a name below it
granted CAdmin 63 1 => yes: the administrator at the base
granted C3 1 1 => yes: anyone at the base
relink D 4 31 => yes: UPDATE by `pvs`
relink C1 4 31 => no: UPDATE by `pv`
relink C1 4 28 => no: missing policies alone, the owner
relink C1 4 29 => yes: no policy, the owner
relink C2 4 29 => no: no policy, another
relink C1 4 30 => yes: an empty list, the owner
fan C7 2 70 => yes: without `macp` by the group
fan C1 2 71 => yes: by `macp`
fan C7 2 71 => no: not by the group where `macp` is set
fan C1 2 72 => no: by missing policies alone, the owner";

fn judged(tree: &ListTree, home: &Home, asked: &str, originator: &str, place: (u32, u64)) -> bool {
    let (bits, number) = place;
    let originator = originator.as_bytes();
    if !is_originator(originator) || !stands_in(tree, number) {
        return false;
    }
    match asked {
        "granted" => granted(tree, home, originator, bits, number),
        "relink" => may_relink(tree, home, originator, number),
        _ => fan_granted(tree, home, originator, bits, number),
    }
}

fn told(alloc: Global, tree: &ListTree, words: &[&str]) -> Result<&'static str, Fail> {
    let home = Home::with_defaults(alloc)?;
    match words {
        [asked, originator, bits, n] => {
            let place = (bits.parse::<u32>().unwrap_or(0), number(n));
            Ok(if judged(tree, &home, asked, originator, place) {
                "yes"
            } else {
                "no"
            })
        }
        _ => Ok("not four words"),
    }
}

fn check(rt: &(impl Abort + AllocGlobal), tree: &ListTree, line: &str) -> Result<(), Fail> {
    let (asked, want) = parts(rt, line);
    let words: Vec<&str> = asked.split(' ').collect(rt.alloc())?;
    let told = told(rt.alloc(), tree, words.as_slice())?;
    assert!(rt; want.starts_with(told), "{line}: {told}");
    Ok(())
}

#[test]
fn rights_are_judged_by_policies(rt: HostRuntime) -> Result<(), Fail> {
    let tree = tree_of(rt.alloc(), WORLD)?;
    for line in TOLD.lines() {
        check(&rt, &tree, line)?;
    }
    Ok(())
}
