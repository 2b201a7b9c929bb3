// Lists by number, and walks along them.
ghost use Rattle.std.specs.Prelude.{◌≡◌, ◌<◌, ℕ, All, length, IfOk, OnOk};
ghost use Rattle.sci_loop.specs.Lists.{list_at, plain};

use crate::graphs::numbers;
use anyhow::bail;
use sci_loop::walk::{Walk, empty_lists, push_at};
use std::alloc::Global;

/// Prints so many lists, to which numbers are put: words as `1:2` put 2 to list 1.
pub fn show_lists(rt: &impl Print, alloc: Global, words: &[&str]) -> anyhow::Result<()> {
    let Some((count, puts)) = words.split_first() else {
        bail!("no count");
    };
    let Ok(mut lists) = empty_lists::<u32>(alloc, count.parse()?) else {
        bail!("out of memory");
    };
    for put in puts {
        let Some((at, number)) = put.split_once(':') else {
            bail!("no list and number");
        };
        let at: usize = at.parse()?;
        if at >= lists.len() || push_at(&mut lists, at, number.parse()?).is_err() {
            bail!("not put");
        }
    }
    print!(rt; " {lists:?}")?;
    Ok(())
}

/// The successors of numbers from 0 on, with `;` between, all below `count`.
fn successors(alloc: Global, word: &str, count: usize) -> anyhow::Result<Vec<Vec<u32>>>
    ensures { IfOk result (λ lists. (p : ℕ) → All (λ q. q < count) (list_at (plain lists.items) p)) }
{
    let mut lists = Vec::new(alloc);
    for each in word.split(';') {
        let list = numbers(alloc, each, count)?;
        lists.push(list)?;
    }
    Ok(lists)
}

/// Walks over successors from each of some lists of starts, and prints what is found. Then a number is added, and all is forgotten.
pub fn show_walk(rt: &impl Print, alloc: Global, words: &[&str]) -> anyhow::Result<()> {
    let Some((first, starts)) = words.split_first() else {
        bail!("no successors");
    };
    let count = first.split(';').count();
    let successors = successors(alloc, first, count)?;
    if successors.len() != count {
        bail!("no successors");
    }
    let Ok(mut walk) = Walk::new(alloc, count) else {
        bail!("out of memory");
    };
    for each in starts {
        let starts = numbers(alloc, each, count)?;
        if walk.walk(&successors, &starts).is_err() {
            bail!("out of memory");
        }
        show_found(rt, &walk, count)?;
    }
    show_further(rt, walk, count)
}

/// Prints what a walk has found, in order, and of each number whether it was.
fn show_found(rt: &impl Print, walk: &Walk, count: usize) -> anyhow::Result<()>
    requires { walk.now.count ≡ count }
{
    let found = walk.found();
    print!(rt; " {found:?} has")?;
    let count = u32::try_from(count)?;
    for number in 0..count {
        let has = walk.has(number);
        print!(rt; " {has}")?;
    }
    Ok(())
}

/// Adds the next number to a walk, prints what is found then, forgets it, and prints what is left.
fn show_further(rt: &impl Print, mut walk: Walk, count: usize) -> anyhow::Result<()>
    requires { walk.count ≡ count }
{
    let next = u32::try_from(count)?;
    if walk.grow().is_err() || walk.add(next).is_err() {
        bail!("out of memory");
    }
    let has = walk.has(next);
    walk.forget();
    let left = walk.found();
    print!(rt; " then {has} {left:?}")?;
    Ok(())
}
