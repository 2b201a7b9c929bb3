//! A table of disjoint lists of nodes, doubly linked by index. Lists and nodes are counted from 0; no call but `new` takes
//! memory, and each takes the same time whatever the table's size.
#![tactic(auto)]

ghost use Rattle.std.specs.Prelude.{◌≡◌, ℕ, ◌+◌, ◌<◌, ◌==◌, ◌||◌, true, Some, None, length, [], IfOk, IsTrue, ◌↔◌};
ghost use Rattle.sci_links.specs.Linked.{node_at};
ghost use Rattle.sci_links.specs.Table.{Table, first, behind, has, put_before, list_of, chain, chain_of, changed, pushed, inserted, removed, popped};
ghost use Rattle.sci_links.specs.Table.{empty, IsTable};

use sci_base::NoMemory;
use std::alloc::Global;
use std::marker::Model;

/// A table of lists, each a ring. Node `x` has the index `x`. List `l` has the index `nodes + l`, which stands between its last node and its first.
#[derive(Drop)]
pub struct Links {
    nexts: Vec<usize>,
    prevs: Vec<usize>,
    owners: Vec<Option<u32>>,
    lists: u32,
    nodes: u32,
    work: u64,
}

impl Model for Links {
    ghost use Rattle.sci_links.specs.Table.{Table};
    ghost use Rattle.sci_links.specs.Linked.{rings, at, IsLinked};

    ghost Value = { Table };

    ghost view = { λ s. record { lists = rings (at s.nexts.items) s.nodes s.lists; nodes = s.nodes; work = s.work } };

    ghost invariant = { λ s. IsLinked s.nexts.items s.prevs.items s.owners.items s.nodes s.lists };
}

impl Links {
    /// A table of so many empty lists, in which so many nodes may stand.
    pub fn new(alloc: Global, lists: u32, nodes: u32) -> Result<Links, NoMemory>
        ensures empty { IfOk result (λ t. t ≡ empty lists nodes) }
        ensures table { IfOk result (λ t. IsTable t) }
    {
        match Links::made(alloc, lists, nodes) {
            Ok(links) => Ok(links),
            Err(_) => Err(NoMemory),
        }
    }

    fn made(alloc: Global, lists: u32, nodes: u32) -> Result<Links, NoMemory>
        ensures empty { IfOk result (λ t. t ≡ empty lists nodes) }
        ensures table { IfOk result (λ t. IsTable t) }
    {
        let total = lists as usize + nodes as usize;
        let mut nexts = Vec::with_capacity(alloc, total)?;
        let mut prevs = Vec::with_capacity(alloc, total)?;
        let mut owners = Vec::with_capacity(alloc, nodes as usize)?;
        for index in 0..total {
            nexts.push(index)?;
            prevs.push(index)?;
        }
        for _node in 0..nodes {
            owners.push(None)?;
        }
        Ok(Links {
            nexts,
            prevs,
            owners,
            lists,
            nodes,
            work: 0,
        })
    }

    /// Whether the node stands in no list.
    pub fn is_free(&self, node: u32) -> bool
        requires { node < self.now.nodes }
        ensures { IsTrue result ↔ (list_of self.now node ≡ None) }
    {
        self.list_of(node).is_none()
    }

    /// The list in which the node stands.
    pub fn list_of(&self, node: u32) -> Option<u32>
        requires { node < self.now.nodes }
        ensures { result ≡ list_of self.now node }
    {
        self.owners[node as usize]
    }

    /// The number of calls so far of those that may change a list; it stays at 2^64 - 1 once there.
    pub fn work(&self) -> u64
        ensures { result ≡ self.now.work }
    {
        self.work
    }

    /// The first node of a list.
    pub fn front(&self, list: u32) -> Option<u32>
        requires { list < length self.now.lists }
        ensures first { result ≡ first (chain self.now list) }
        ensures table { IsTable self.now }
    {
        self.node_at(self.nexts[self.nodes as usize + list as usize])
    }

    /// The node behind another in its list.
    pub fn next(&self, node: u32) -> Option<u32>
        requires { (l : ℕ) × (list_of self.now node ≡ Some l) }
        ensures { result ≡ behind node (chain_of self.now (list_of self.now node)) }
    {
        self.node_at(self.nexts[node as usize])
    }

    fn node_at(&self, index: usize) -> Option<u32>
        ensures { result ≡ node_at self.now.nodes index }
    {
        if index < self.nodes as usize {
            Some(index as u32)
        } else {
            None
        }
    }

    /// Puts a free node at the end of a list.
    pub fn push_back(&mut self, list: u32, node: u32)
        requires list { list < length self.old.lists }
        requires node { node < self.old.nodes }
        requires free { list_of self.old node ≡ None }
        ensures changed { self.new ≡ pushed self.old list node }
        ensures table { IsTable self.new }
    {
        self.put(self.nodes as usize + list as usize, list, node);
    }

    /// Puts a free node before one that stands in a list.
    pub fn insert_before(&mut self, at: u32, node: u32)
        requires used { (l : ℕ) × (list_of self.old at ≡ Some l) }
        requires node { node < self.old.nodes }
        requires free { list_of self.old node ≡ None }
        ensures changed { self.new ≡ inserted self.old at node }
        ensures table { IsTable self.new }
    {
        if let Some(list) = self.owners[at as usize] {
            self.put(at as usize, list, node);
        }
    }

    // `place` is a node of the list, or the list's own index.
    fn put(&mut self, place: usize, list: u32, node: u32)
        requires list { list < length self.old.lists }
        requires place { ((place == (self.old.nodes + list)) || has place (chain self.old list)) ≡ true }
        requires node { node < self.old.nodes }
        requires free { list_of self.old node ≡ None }
        ensures changed { self.new ≡ changed self.old list (put_before place node (chain self.old list)) }
        ensures table { IsTable self.new }
    {
        let index = node as usize;
        let before = self.prevs[place];
        self.nexts[before] = index;
        self.prevs[place] = index;
        self.nexts[index] = place;
        self.prevs[index] = before;
        self.owners[index] = Some(list);
        self.work = self.work.saturating_add(1);
    }

    /// Takes a node out of its list.
    pub fn remove(&mut self, node: u32)
        requires { (l : ℕ) × (list_of self.old node ≡ Some l) }
        ensures changed { self.new ≡ removed self.old node }
        ensures table { IsTable self.new }
    {
        let index = node as usize;
        let before = self.prevs[index];
        let after = self.nexts[index];
        self.nexts[before] = after;
        self.prevs[after] = before;
        self.owners[index] = None;
        self.work = self.work.saturating_add(1);
    }

    /// Takes out the first node of a list.
    pub fn pop_front(&mut self, list: u32) -> Option<u32>
        requires { list < length self.old.lists }
        ensures first { result ≡ first (chain self.old list) }
        ensures rest { self.new ≡ popped self.old list }
        ensures table { IsTable self.new }
    {
        match self.front(list) {
            Some(node) => {
                self.remove(node);
                Some(node)
            }
            None => {
                self.work = self.work.saturating_add(1);
                None
            }
        }
    }
}
