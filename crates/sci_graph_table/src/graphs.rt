// Classes of things that are tied, their values, and what steps lead to.
ghost use Rattle.std.specs.Prelude.{◌<◌, All, IfOk};
ghost use Rattle.sci_infer.specs.Classes.{IsWithin};
ghost use Rattle.sci_flat.specs.Chain.{AllWithin};

use anyhow::bail;
use sci_flat::reach::{reached, successors_of};
use sci_infer::classes::{Tie, classes};
use sci_infer::values::{Resolution, judge};
use sci_table::list;
use std::alloc::Global;

/// Two numbers below `count`, with `-` between.
fn pair(word: &str, count: usize) -> anyhow::Result<(u32, u32)>
    ensures { IfOk result (λ p. (p.0 < count) × (p.1 < count)) }
{
    let Some((left, right)) = word.split_once('-') else {
        bail!("no pair: {word}");
    };
    let pair: (u32, u32) = (left.parse()?, right.parse()?);
    if pair.0 as usize >= count || pair.1 as usize >= count {
        bail!("a number too large: {word}");
    }
    Ok(pair)
}

/// Ties between so many things, with commas between.
fn ties(alloc: Global, word: &str, count: usize) -> anyhow::Result<Vec<Tie>>
    ensures { IfOk result (λ ties. All (IsWithin count) ties.items) }
{
    let mut ties = Vec::new(alloc);
    for each in word.split(',') {
        let (left, right) = pair(each, count)?;
        ties.push(Tie {
            left: left as usize,
            right: right as usize,
        })?;
    }
    Ok(ties)
}

/// Prints the class of each of so many things of which some are tied.
pub fn show_classes(rt: &impl Print, alloc: Global, words: &[&str]) -> anyhow::Result<()> {
    if words.len() != 2 {
        bail!("two words");
    }
    let count: usize = words[0].parse()?;
    let ties = ties(alloc, words[1], count)?;
    let Ok(labels) = classes(alloc, count, &ties) else {
        bail!("out of memory");
    };
    print!(rt; " {labels:?}")?;
    Ok(())
}

/// Prints the values of all things of which some are tied and some have one.
pub fn show_values(rt: &impl Print, alloc: Global, words: &[&str]) -> anyhow::Result<()> {
    if words.len() != 2 {
        bail!("two words");
    }
    let declared: Vec<i64> = list(alloc, words[0])?;
    let ties = ties(alloc, words[1], declared.len())?;
    match judge(alloc, &declared, &ties) {
        Ok(Resolution::Values(values)) => print!(rt; " {values:?}")?,
        Ok(Resolution::Open(at)) => print!(rt; " open {at}")?,
        Ok(Resolution::Conflict(at, span)) => print!(rt; " conflict {at} {span:?}")?,
        Err(_) => bail!("out of memory"),
    }
    Ok(())
}

/// Steps between so many ports, with commas between.
#[tactic(auto, using(crate::proofs::Within::within_pushed))]
fn steps(alloc: Global, word: &str, count: usize) -> anyhow::Result<Vec<(u32, u32)>>
    ensures { IfOk result (λ steps. AllWithin count steps.items) }
{
    let mut steps = Vec::new(alloc);
    for each in word.split(',') {
        let step = pair(each, count)?;
        steps.push(step)?;
    }
    Ok(steps)
}

/// Numbers below `count`.
pub fn numbers(alloc: Global, word: &str, count: usize) -> anyhow::Result<Vec<u32>>
    ensures { IfOk result (λ numbers. All (λ n. n < count) numbers.items) }
{
    let mut numbers = Vec::new(alloc);
    if word != "-" {
        for each in word.split(',') {
            let number: u32 = each.parse()?;
            if number as usize >= count {
                bail!("a number too large: {word}");
            }
            numbers.push(number)?;
        }
    }
    Ok(numbers)
}

/// Prints for each of so many ports which sources steps lead from; of the ports that aren't wanted none.
pub fn show_reached(rt: &impl Print, alloc: Global, words: &[&str]) -> anyhow::Result<()> {
    if words.len() != 3 {
        bail!("three words");
    }
    let mut wanted = Vec::new(alloc);
    for digit in words[0].chars() {
        wanted.push(digit == '1')?;
    }
    let sources = numbers(alloc, words[1], wanted.len())?;
    let steps = steps(alloc, words[2], wanted.len())?;
    let Ok(successors) = successors_of(alloc, &steps, wanted.len()) else {
        bail!("out of memory");
    };
    let Ok(lists) = reached(alloc, &steps, &successors, &sources, &wanted) else {
        bail!("out of memory");
    };
    print!(rt; " {lists:?}")?;
    Ok(())
}
