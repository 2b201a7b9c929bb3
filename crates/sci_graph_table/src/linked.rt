// Tables of linked lists.
ghost use Rattle.std.specs.Prelude.{◌≡◌, ◌<◌, OnOk};
ghost use Rattle.sci_graph_table.specs.Sized.{IsSized};

use anyhow::bail;
use sci_links::Links;
use sci_table::list;
use std::alloc::Global;

/// Makes a table of so many lists and nodes, and does what each word says, as `push_back:0,1`.
pub fn show(rt: &impl Print, alloc: Global, words: &[&str]) -> anyhow::Result<()> {
    if words.len() < 2 {
        bail!("no sizes");
    }
    let (lists, nodes): (u32, u32) = (words[0].parse()?, words[1].parse()?);
    let Ok(mut links) = Links::new(alloc, lists, nodes) else {
        bail!("out of memory");
    };
    for word in &words[2..] {
        obey(rt, alloc, &mut links, lists, nodes, word)?;
    }
    Ok(())
}

/// Does what a word says to a table of so many lists and nodes.
fn obey(
    rt: &impl Print,
    alloc: Global,
    links: &mut Links,
    lists: u32,
    nodes: u32,
    word: &str,
) -> anyhow::Result<()>
    requires { IsSized links.old lists nodes }
    ensures { OnOk result (IsSized links.new lists nodes) }
{
    let (name, numbers) = word.split_once(':').unwrap_or((word, "-"));
    let numbers: Vec<u32> = list(alloc, numbers)?;
    let first = numbers.first().copied().unwrap_or(0);
    let second = numbers.get(1).copied().unwrap_or(0);
    match name {
        "push_back" => push_back(links, lists, nodes, first, second),
        "insert_before" => insert_before(links, lists, nodes, first, second),
        "remove" => remove(links, lists, nodes, first),
        _ => ask(rt, links, lists, nodes, name, first),
    }
}

/// Puts a free node at the end of a list.
#[tactic(auto, using(crate::proofs::Sizes::sized_pushed))]
fn push_back(links: &mut Links, lists: u32, nodes: u32, list: u32, node: u32) -> anyhow::Result<()>
    requires { IsSized links.old lists nodes }
    ensures { OnOk result (IsSized links.new lists nodes) }
{
    if list >= lists || node >= nodes {
        bail!("no such list or node");
    }
    if !links.is_free(node) {
        bail!("the node is not free");
    }
    links.push_back(list, node);
    Ok(())
}

/// Puts a free node before one that stands in a list.
#[tactic(auto, using(crate::proofs::Sizes::sized_inserted))]
fn insert_before(
    links: &mut Links,
    lists: u32,
    nodes: u32,
    at: u32,
    node: u32,
) -> anyhow::Result<()>
    requires { IsSized links.old lists nodes }
    ensures { OnOk result (IsSized links.new lists nodes) }
{
    if at >= nodes || node >= nodes {
        bail!("no such node");
    }
    if !links.is_free(node) {
        bail!("the node is not free");
    }
    let Some(_list) = links.list_of(at) else {
        bail!("the node stands in no list");
    };
    links.insert_before(at, node);
    Ok(())
}

/// Takes a node out of its list.
#[tactic(auto, using(crate::proofs::Sizes::sized_removed))]
fn remove(links: &mut Links, lists: u32, nodes: u32, node: u32) -> anyhow::Result<()>
    requires { IsSized links.old lists nodes }
    ensures { OnOk result (IsSized links.new lists nodes) }
{
    if node >= nodes {
        bail!("no such node");
    }
    let Some(_list) = links.list_of(node) else {
        bail!("the node stands in no list");
    };
    links.remove(node);
    Ok(())
}

/// Prints the first node of a list, the node behind another, or how many changes were made.
fn ask(
    rt: &impl Print,
    links: &Links,
    lists: u32,
    nodes: u32,
    name: &str,
    first: u32,
) -> anyhow::Result<()>
    requires { IsSized links.now lists nodes }
{
    match name {
        "front" if first < lists => {
            let node = links.front(first);
            print!(rt; " {node:?}")?;
        }
        "next" if first < nodes => show_next(rt, links, nodes, first)?,
        "work" => {
            let work = links.work();
            print!(rt; " {work}")?;
        }
        _ => bail!("no such question may be asked"),
    }
    Ok(())
}

/// Prints the node behind another.
fn show_next(rt: &impl Print, links: &Links, nodes: u32, node: u32) -> anyhow::Result<()>
    requires sized { links.now.nodes ≡ nodes }
    requires node { node < nodes }
{
    let Some(_list) = links.list_of(node) else {
        bail!("the node stands in no list");
    };
    let next = links.next(node);
    print!(rt; " {next:?}")?;
    Ok(())
}
