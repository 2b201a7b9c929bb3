//! The names of the table of due dates.
ghost use Rattle.std.specs.Prelude.{◌≡◌};
ghost use Rattle.sci_due.specs.Due.{coming as next_date_name, dates as dates_name, orders as orders_name, fresh as fresh_name, firsts as firsts_name};
ghost use Rattle.sci_due.specs.Due.{best as chosen_name, scan as scan_name, now as now_name, last as programmed_name, delay as delay_name};

use c_ast::Name;

/// By source the date of its pending event, -1 for none.
pub fn dates() -> Name
    ensures { result ≡ dates_name }
{
    Name {
        letter: b'v',
        number: 6,
    }
}

/// By source the order of its pending event.
pub fn orders() -> Name
    ensures { result ≡ orders_name }
{
    Name {
        letter: b'v',
        number: 7,
    }
}

/// By group of sources 1 where its first is known, and else 0.
pub fn fresh() -> Name
    ensures { result ≡ fresh_name }
{
    Name {
        letter: b'v',
        number: 8,
    }
}

/// By group the source that is its first, where it is known.
pub fn firsts() -> Name
    ensures { result ≡ firsts_name }
{
    Name {
        letter: b'v',
        number: 9,
    }
}

/// The date of the next event, or -1.
pub fn next_date() -> Name
    ensures { result ≡ next_date_name }
{
    Name {
        letter: b'd',
        number: 2,
    }
}

/// The source whose event comes first, counted from 0 without start; 0 where none is pending.
pub fn chosen() -> Name
    ensures { result ≡ chosen_name }
{
    Name {
        letter: b'b',
        number: 1,
    }
}

/// The counter of a scan.
pub fn scan() -> Name
    ensures { result ≡ scan_name }
{
    Name {
        letter: b'k',
        number: 1,
    }
}

/// The date of the reaction.
pub fn now() -> Name
    ensures { result ≡ now_name }
{
    Name {
        letter: b'd',
        number: 1,
    }
}

/// How many events were programmed so far.
pub fn programmed() -> Name
    ensures { result ≡ programmed_name }
{
    Name {
        letter: b'o',
        number: 1,
    }
}

/// A delay.
pub fn delay() -> Name
    ensures { result ≡ delay_name }
{
    Name {
        letter: b'e',
        number: 1,
    }
}
