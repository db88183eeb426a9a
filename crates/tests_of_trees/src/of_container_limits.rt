//! What the limits of a container push out, and what is overdue.
use crate::lines::number;
use crate::samples::{listed, parts, sample};
use container_limits::{Limits, evictions, overdue};
use m2m_names::read_digits;
use plain_tree::ListTree;
use std::alloc::{AllocError, AllocGlobal, Global};
use std::process::Abort;
use std::test::Fail;

// The limits on count, bytes and age, the size of a new instance, the moment, and what goes; then
// moments alone, and what is overdue.
const TOLD: &str = "\
- - - 1 150 => none
3 - - - 150 => 16 17
- 100 - - 150 => 16 17 18
4 130 - - 150 => 16 17
- - 30 - 150 => 16 17 18
5 - - 1 150 => 16
- 60 - 70 150 => 16 17 18 19 20
0 - - - 150 => 16 17 18 19 20
- - 0 - 150 => 16 17 18 19 20
2 - - - 200 => 16 17 18
4 - - - 200 => 18
199 => none
200 => 18
210 => 18 22
300 => 10 11 18 22";

fn limit(word: &str) -> Option<u64> {
    read_digits(word.as_bytes())
}

fn pushed_out(
    alloc: Global,
    tree: &ListTree,
    limits: Limits,
    new_size: Option<u64>,
    moment: u64,
) -> Result<String, AllocError> {
    let numbers = evictions(alloc, tree, 15, limits, new_size, moment)?;
    listed(alloc, numbers.entries())
}

fn overdue_at(alloc: Global, tree: &ListTree, moment: u64) -> Result<String, AllocError> {
    let numbers = overdue(alloc, tree, moment)?;
    listed(alloc, numbers.entries())
}

fn told(alloc: Global, tree: &ListTree, words: &[&str]) -> Result<String, AllocError> {
    match words {
        [mni, mbs, mia, new_size, moment] => {
            let (mni, mbs, mia) = (limit(mni), limit(mbs), limit(mia));
            let limits = Limits { mni, mbs, mia };
            pushed_out(alloc, tree, limits, limit(new_size), number(moment))
        }
        [moment] => overdue_at(alloc, tree, number(moment)),
        _ => Err(AllocError),
    }
}

fn check(rt: &(impl Abort + AllocGlobal), tree: &ListTree, line: &str) -> Result<(), Fail> {
    let (asked, want) = parts(rt, line);
    let words: Vec<&str> = asked.split(' ').collect(rt.alloc())?;
    let told = told(rt.alloc(), tree, words.as_slice())?;
    assert!(rt; told.as_str().trim() == want, "{line}: {told}");
    Ok(())
}

#[test]
fn limits_push_out_and_moments_are_overdue(rt: HostRuntime) -> Result<(), Fail> {
    let tree = sample(rt.alloc())?;
    for line in TOLD.lines() {
        check(&rt, &tree, line)?;
    }
    Ok(())
}
