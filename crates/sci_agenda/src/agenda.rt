// The interface of the events that wait.
ghost use Rattle.std.specs.Prelude.{◌≡◌, ℕ, Option, true, IsTrue, IfSome, ◌↔◌};
ghost use Rattle.sci_links.specs.Table.{counted};
ghost use Rattle.sci_agenda.specs.Firing.{Meaning, MayPut, IsPort, first, first_date, is_pending, after_put, after_take, after_remove};

/// The events that wait. Its meaning is their list as (date, source) in the order in which they fire, with the date of the
/// last one taken, 0 at first, and the number of sources, which are numbered from 1. Dates are in ticks. Beside it the events put so
/// far are counted, as far as 64 bits go.
pub trait Agenda {
    ghost meaning: { Self → Meaning };

    ghost puts: { Self → ℕ };

    /// Puts an event behind all of the same or a lesser date.
    fn put(&mut self, date: u64, source: u32)
        requires { MayPut (meaning self.old) date source }
        ensures put { meaning self.new ≡ after_put (meaning self.old) date source }
        ensures counted { puts self.new ≡ counted (puts self.old) };

    /// Takes out the first event; none where nothing waits.
    fn take(&mut self) -> Option<(u64, u32)>
        ensures taken { result ≡ first (meaning self.old).events }
        ensures left { meaning self.new ≡ after_take (meaning self.old) }
        ensures counted { puts self.new ≡ puts self.old }
        ensures port { IfSome result (λ e. IsPort (meaning self.old) e.1) };

    /// The date of the first event.
    fn next_date(&self) -> Option<u64>
        ensures { result ≡ first_date (meaning self.now).events };

    /// Whether an event of this source waits.
    fn is_pending(&self, source: u32) -> bool
        requires { IsPort (meaning self.now) source }
        ensures { result ≡ is_pending source (meaning self.now).events };

    /// Takes out the event of a source.
    fn remove(&mut self, source: u32)
        requires { is_pending source (meaning self.old).events ≡ true }
        ensures removed { meaning self.new ≡ after_remove (meaning self.old) source }
        ensures counted { puts self.new ≡ puts self.old };
}
