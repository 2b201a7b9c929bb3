// The agenda by one chain.
ghost use Rattle.std.specs.Prelude.{◌≡◌, ℕ, ◌<◌, ◌≤◌, List, [], length, IfOk, IfSome};
ghost use Rattle.sci_links.specs.Table.{Table, IsTable, chain};
ghost use Rattle.sci_agenda.specs.Firing.{Meaning};
ghost use Rattle.sci_agenda.specs.Chained.{first_later, date_at};

use crate::agenda::Agenda;
use sci_base::NoMemory;
use sci_links::Links;
use std::alloc::Global;
use std::marker::Model;

/// An agenda of one chain, in the order of firing. `put` walks it.
#[derive(Drop)]
pub struct ChainAgenda {
    links: Links,
    dates: Vec<u64>,
    now: u64,
    ports: u32,
    puts: u64,
}

impl Model for ChainAgenda {
    ghost use Rattle.sci_agenda.specs.Firing.{Meaning};
    ghost use Rattle.sci_links.specs.Table.{chain};
    ghost use Rattle.sci_agenda.specs.Chained.{Chain, events_of, IsChain};

    ghost Value = { Chain };

    ghost view = { λ a. record { meaning = record { events = events_of a.dates.items (chain a.links 0); now = a.now; ports = a.ports }; puts = a.puts } };

    ghost invariant = { λ a. IsChain a.links a.dates.items a.ports };
}

impl ChainAgenda {
    /// No event waits, and the date is 0. Sources are numbered from 1 to `ports`.
    pub fn new(alloc: Global, ports: u32) -> Result<ChainAgenda, NoMemory>
        ensures meaning { IfOk result (λ a. a.meaning ≡ (record { events = []; now = 0; ports = ports })) }
        ensures puts { IfOk result (λ a. a.puts ≡ 0) }
    {
        let links = Links::new(alloc, 1, ports)?;
        let dates = zeros(alloc, ports)?;
        Ok(ChainAgenda {
            links,
            dates,
            now: 0,
            ports,
            puts: 0,
        })
    }
}

/// So many dates.
pub(crate) fn zeros(alloc: Global, count: u32) -> Result<Vec<u64>, NoMemory>
    ensures { IfOk result (λ v. length v.items ≡ count) }
{
    match made_zeros(alloc, count) {
        Ok(dates) => Ok(dates),
        Err(_) => Err(NoMemory),
    }
}

fn made_zeros(alloc: Global, count: u32) -> Result<Vec<u64>, NoMemory>
    ensures { IfOk result (λ v. length v.items ≡ count) }
{
    let mut dates = Vec::with_capacity(alloc, count as usize)?;
    for _node in 0..count {
        dates.push(0)?;
    }
    Ok(dates)
}

// The first node of a later date.
fn later(links: &Links, dates: &[u64], date: u64) -> Option<u32>
    requires table { IsTable links.now }
    requires lists { 0 < length links.now.lists }
    requires dates { links.now.nodes ≡ length dates.now }
    ensures { result ≡ first_later dates.now date (chain links.now 0) }
{
    let mut at = links.front(0);
    while let Some(node) = at {
        if date < dates[node as usize] {
            return Some(node);
        }
        at = links.next(node);
    }
    None
}

impl Agenda for ChainAgenda {
    ghost meaning = { λ a. a.meaning };

    ghost puts = { λ a. a.puts };

    fn put(&mut self, date: u64, source: u32) {
        let node = source - 1;
        self.dates[node as usize] = date;
        match later(&self.links, &self.dates, date) {
            Some(at) => self.links.insert_before(at, node),
            None => self.links.push_back(0, node),
        }
        self.puts = self.puts.saturating_add(1);
    }

    fn take(&mut self) -> Option<(u64, u32)> {
        let node = self.links.pop_front(0)?;
        let date = self.dates[node as usize];
        self.now = date;
        Some((date, node + 1))
    }

    fn next_date(&self) -> Option<u64> {
        let node = self.links.front(0)?;
        Some(self.dates[node as usize])
    }

    fn is_pending(&self, source: u32) -> bool {
        !self.links.is_free(source - 1)
    }

    fn remove(&mut self, source: u32) {
        self.links.remove(source - 1);
    }
}
