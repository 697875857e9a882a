//! The systems that the program can make.
ghost use Rattle.std.specs.Prelude.{◌≡◌, ◌↔◌, IsTrue, MatchOption};
ghost use Rattle.pst_cli.specs.Known.{IsKnown, name_of};

/// A sample system that the program can make for `pst run`.
#[derive(Clone, Copy, Debug, PartialEq, Eq, Drop)]
pub enum KnownSystem {
    /// `counter`: a number under a lock.
    Counter,
    /// `racy`: a counter that looks, yields and then stores.
    Racy,
    /// `stuck`: a counter that always answers 0.
    Stuck,
    /// `registry`: handles that are opened, read and closed.
    Registry,
    /// `queue`: numbers in the order in which they were put.
    Queue,
    /// `meet`: two flags, each of which looks for the other.
    Meet,
}

impl KnownSystem {
    /// The system of that name, if there is one: `counter`, `racy`, `stuck`, `registry`, `queue` or `meet`.
    pub fn named(name: &str) -> Option<KnownSystem>
        ensures { MatchOption result (IsKnown name.now → ⊥) (λ system. name.now ≡ name_of system) }
    {
        if name == "counter" {
            return Some(KnownSystem::Counter);
        }
        if name == "racy" {
            return Some(KnownSystem::Racy);
        }
        if name == "stuck" {
            return Some(KnownSystem::Stuck);
        }
        if name == "registry" {
            return Some(KnownSystem::Registry);
        }
        if name == "queue" {
            return Some(KnownSystem::Queue);
        }
        if name == "meet" {
            return Some(KnownSystem::Meet);
        }
        None
    }
}

/// Whether the program can make a system of that name.
pub fn is_known_system(name: &str) -> bool
    ensures { IsTrue result ↔ IsKnown name.now }
{
    KnownSystem::named(name).is_some()
}
