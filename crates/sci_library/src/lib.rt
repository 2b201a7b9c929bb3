//! The banks of all kinds, in boxes.
//!
//! The function that makes them keeps them, and lends them to a function that knows of each no more than that it is a bank, which makes a library
//! of them.
#![tactic(auto)]

ghost use Rattle.std.specs.Prelude.{◌≡◌, ◌+◌, Some, length, map, OnOk, OnErr};
ghost use Rattle.sci_bank.specs.Bank.{Meaning};
ghost use Rattle.sci_bank.specs.Library.{next_of};
ghost use Rattle.sci_library.specs.Banks.{fresh, IsBegun};

mod any_bank;

pub use any_bank::AnyBank;
use sci_bank::Bank;
use sci_base::NoMemory;
use sci_forms::KINDS;
use sci_kinds::Kind;

/// The kind whose bank comes next behind so many; none where all are there.
pub fn next_kind(count: usize) -> Option<Kind>
    ensures { result ≡ next_of count }
{
    if count < usize::from(KINDS) {
        sci_names::kind_at((count + 1) as u8)
    } else {
        None
    }
}

/// Puts the bank of the next kind, without instances and calls, behind those that are there.
pub fn put_fresh(
    banks: &mut Vec<Box<dyn Bank>>,
    kind: Kind,
    bank: Box<dyn Bank>,
) -> Result<(), NoMemory>
    requires begun { IsBegun (map meaning banks.old.items) }
    requires next { next_of (length banks.old.items) ≡ Some kind }
    requires fresh { meaning bank ≡ fresh kind }
    ensures begun { OnOk result (IsBegun (map meaning banks.new.items)) }
    ensures count { OnOk result (length banks.new.items ≡ length banks.old.items + 1) }
    ensures kept { OnErr result (map meaning banks.new.items ≡ map meaning banks.old.items) }
{
    match banks.push(bank) {
        Ok(()) => Ok(()),
        Err(_) => Err(NoMemory),
    }
}
