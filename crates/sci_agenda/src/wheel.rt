// The agenda by a wheel.
ghost use Rattle.std.specs.Prelude.{◌≡◌, ◌≢◌, ℕ, ◌<◌, ◌≤◌, ◌+◌, ◌/◌, ◌*◌, ◌%◌, ◌⊎◌, true, Some, None, List, [], length, IfOk, IfSome};
ghost use Rattle.sci_links.specs.Table.{Table, IsTable, chain, empty, has, list_of};
ghost use Rattle.sci_agenda.specs.Firing.{Meaning};
ghost use Rattle.sci_agenda.specs.Chained.{date_at};
ghost use Rattle.sci_agenda.specs.Wheel.{place, list_at, Placed, Moving, Turned, IsFirstList, IsLeastIn, IsLeast, IsPlaced};

use crate::agenda::Agenda;
use crate::chain::zeros;
use sci_base::NoMemory;
use sci_links::Links;
use std::alloc::Global;
use std::marker::Model;

/// An agenda of four levels of 256 chains, a timing wheel: the chain of an event is that of the highest digit, in base 256,
/// in which its date differs from `now`. `put` takes the same time whatever waits.
#[derive(Drop)]
pub struct WheelAgenda {
    links: Links,
    dates: Vec<u64>,
    now: u64,
    ports: u32,
    puts: u64,
}

impl Model for WheelAgenda {
    ghost use Rattle.sci_agenda.specs.Wheel.{Wheel, in_order, IsWheel};

    ghost Value = { Wheel };

    ghost view = { λ a. record {
      meaning = record { events = in_order a.dates.items a.links.lists; now = a.now; ports = a.ports };
      table = a.links;
      puts = a.puts;
    } };

    ghost invariant = { λ a. IsWheel a.links a.dates.items a.now a.ports a.puts };
}

impl WheelAgenda {
    /// No event waits, and the date is 0. Sources are numbered from 1 to `ports`.
    pub fn new(alloc: Global, ports: u32) -> Result<WheelAgenda, NoMemory>
        ensures meaning { IfOk result (λ a. a.meaning ≡ (record { events = []; now = 0; ports = ports })) }
        ensures table { IfOk result (λ a. a.table ≡ empty 1024 ports) }
        ensures puts { IfOk result (λ a. a.puts ≡ 0) }
    {
        let links = Links::new(alloc, 1024, ports)?;
        let dates = zeros(alloc, ports)?;
        Ok(WheelAgenda {
            links,
            dates,
            now: 0,
            ports,
            puts: 0,
        })
    }

    /// The calls so far that changed a chain: at most 8 for each `put`.
    pub fn work(&self) -> u64
        ensures work { result ≡ self.entry.now.table.work }
        ensures bounded { result ≤ 8 * self.entry.now.puts }
    {
        self.links.work()
    }

    /// The calls of `put` so far.
    pub fn puts(&self) -> u64
        ensures puts { result ≡ self.entry.now.puts }
        ensures placed { IsPlaced self.entry.now }
    {
        self.puts
    }
}

fn place(now: u64, date: u64) -> u32
    ensures { result ≡ place now date }
{
    if date / 256 == now / 256 {
        (date % 256) as u32
    } else if date / 65536 == now / 65536 {
        256 + (date / 256 % 256) as u32
    } else if date / 16777216 == now / 16777216 {
        512 + (date / 65536 % 256) as u32
    } else {
        768 + (date / 16777216 % 256) as u32
    }
}

// The lists in the order in which their events fire: those of a level by their digit, the last level from the digit of now on.
fn list_at(now: u64, rank: u32) -> u32
    requires { rank < 1024 }
    ensures { result ≡ list_at now rank }
{
    if rank < 768 {
        rank
    } else {
        768 + (rank - 768 + (now / 16777216 % 256) as u32) % 256
    }
}

// The first list of the last level with an event, where those of the other levels have none.
fn first_far(links: &Links, now: u64) -> Option<u32>
    requires table { IsTable links.now }
    requires lists { length links.now.lists ≡ 1024 }
    requires near { (q x : ℕ) → now % 256 ≤ q → q < 768 → has x (chain links.now (list_at now q)) ≡ true → ⊥ }
    ensures { IsFirstList links.now now result }
{
    for rank in 768..1024 {
        let list = list_at(now, rank);
        if links.front(list).is_some() {
            return Some(list);
        }
    }
    None
}

// The first list with an event, in the order in which they fire. None before the digit of now has one. Up to the last level each stands at its number.
fn first_list(links: &Links, now: u64) -> Option<u32>
    requires table { IsTable links.now }
    requires lists { length links.now.lists ≡ 1024 }
    ensures { IsFirstList links.now now result }
{
    for list in (now % 256) as u32..768 {
        if links.front(list).is_some() {
            return Some(list);
        }
    }
    first_far(links, now)
}

fn nearer(dates: &[u64], best: u32, node: u32) -> u32
    requires best { best < length dates.now }
    requires node { node < length dates.now }
    ensures node { date_at dates.now result ≤ date_at dates.now node }
    ensures best { date_at dates.now result ≤ date_at dates.now best }
    ensures chosen { (result ≡ best) ⊎ (result ≡ node) }
{
    if dates[best as usize] <= dates[node as usize] {
        best
    } else {
        node
    }
}

// A node of the least date in a list.
fn least_in(links: &Links, dates: &[u64], list: u32) -> Option<u32>
    requires table { IsTable links.now }
    requires lists { list < length links.now.lists }
    requires dates { links.now.nodes ≡ length dates.now }
    ensures { IsLeastIn dates.now (chain links.now list) result }
{
    let mut best = links.front(list)?;
    let mut at = Some(best);
    while let Some(node) = at {
        best = nearer(dates, best, node);
        at = links.next(node);
    }
    Some(best)
}

// A node of the least date. On the first level all dates of a list are the same.
fn least(links: &Links, dates: &[u64], now: u64) -> Option<u32>
    requires table { IsTable links.now }
    requires lists { length links.now.lists ≡ 1024 }
    requires dates { links.now.nodes ≡ length dates.now }
    requires placed { Placed links.now dates.now (place now) }
    requires from { (l x : ℕ) → has x (chain links.now l) ≡ true → now ≤ date_at dates.now x }
    requires until { (l x : ℕ) → has x (chain links.now l) ≡ true → date_at dates.now x < now + 2147483648 }
    ensures some { IfSome result (λ n. IsLeast links.now dates.now n) }
    ensures none { result ≡ None → (x l : ℕ) → list_of links.now x ≡ Some l → ⊥ }
{
    let list = first_list(links, now)?;
    if list < 256 {
        links.front(list)
    } else {
        least_in(links, dates, list)
    }
}

// Moves the nodes of a list to the lists of their dates.
fn spread(links: &mut Links, dates: &[u64], now: u64, list: u32)
    requires table { IsTable links.old }
    requires lists { length links.old.lists ≡ 1024 }
    requires nodes { links.old.nodes ≡ length dates.now }
    requires list { list < 1024 }
    requires falls { (x : ℕ) → has x (chain links.old list) ≡ true → place now (date_at dates.now x) / 256 < list / 256 }
    ensures moving { Moving links.old links.new dates.now (place now) list }
    ensures empty { chain links.new list ≡ [] }
    ensures table { IsTable links.new }
{
    while let Some(node) = links.front(list) {
        links.pop_front(list);
        links.push_back(place(now, dates[node as usize]), node);
    }
}

// Moves `now` to the least date.
fn turn(links: &mut Links, dates: &[u64], now: u64, date: u64)
    requires table { IsTable links.old }
    requires lists { length links.old.lists ≡ 1024 }
    requires nodes { links.old.nodes ≡ length dates.now }
    requires placed { Placed links.old dates.now (place now) }
    requires from { now ≤ date }
    requires least { (l x : ℕ) → has x (chain links.old l) ≡ true → date ≤ date_at dates.now x }
    requires until { (l x : ℕ) → has x (chain links.old l) ≡ true → date_at dates.now x < now + 2147483648 }
    ensures { Turned links.old links.new dates.now date }
{
    let list = place(now, date);
    if list >= 256 {
        spread(links, dates, date, list);
    }
}

impl Agenda for WheelAgenda {
    ghost use Rattle.std.specs.Prelude.{◌≡◌, true, IfSome};
    ghost use Rattle.sci_links.specs.Table.{counted};
    ghost use Rattle.sci_agenda.specs.Firing.{MayPut, IsPort, first, is_pending, after_put, after_take, after_remove};

    ghost meaning = { λ a. a.meaning };

    ghost puts = { λ a. a.puts };

    fn put(&mut self, date: u64, source: u32)
        requires { MayPut self.old.meaning date source }
        ensures put { self.new.meaning ≡ after_put self.old.meaning date source }
        ensures counted { self.new.puts ≡ counted self.old.puts }
    {
        let node = source - 1;
        self.dates[node as usize] = date;
        self.links.push_back(place(self.now, date), node);
        self.puts = self.puts.saturating_add(1);
    }

    fn take(&mut self) -> Option<(u64, u32)>
        ensures taken { result ≡ first self.old.meaning.events }
        ensures left { self.new.meaning ≡ after_take self.old.meaning }
        ensures port { IfSome result (λ e. IsPort self.old.meaning e.1) }
        ensures counted { self.new.puts ≡ self.old.puts }
    {
        let node = least(&self.links, &self.dates, self.now)?;
        let date = self.dates[node as usize];
        turn(&mut self.links, &self.dates, self.now, date);
        self.now = date;
        let first = self.links.pop_front((date % 256) as u32)?;
        Some((date, first + 1))
    }

    fn next_date(&self) -> Option<u64> {
        let node = least(&self.links, &self.dates, self.now)?;
        Some(self.dates[node as usize])
    }

    fn is_pending(&self, source: u32) -> bool {
        !self.links.is_free(source - 1)
    }

    fn remove(&mut self, source: u32)
        requires { is_pending source self.old.meaning.events ≡ true }
        ensures removed { self.new.meaning ≡ after_remove self.old.meaning source }
        ensures counted { self.new.puts ≡ self.old.puts }
    {
        self.links.remove(source - 1);
    }
}
