// Why something was not done, where memory may run out too.
#![tactic(auto)]

ghost use Rattle.std.specs.Prelude.{◌≡◌};
ghost use Rattle.failures.specs.Texts.{failure_text};
ghost use Rattle.failures.specs.declared.Failure.TheVariants.{Memory};

use std::alloc::{AllocError, AllocFailed};
use std::fmt;

// A reason of the call's own kind, or a want of memory, which says nothing of what was asked. It is no Option of a
// reason: `?` makes a want of memory of a failed allocation by From, which nobody but std can give an Option.
#[derive(Clone, Copy, Drop)]
pub enum Failure<E> {
    Because(E),
    Memory,
}

// A want of memory ends the work, whichever call meets it.
impl<E> From<AllocError> for Failure<E> {
    ghost from_gives = { λ _ r. r ≡ Memory };

    fn from(_e: AllocError) -> Failure<E> {
        Failure::Memory
    }
}

// The same of a push, whose value is of no more use.
impl<E, T: Drop> From<AllocFailed<T>> for Failure<E> {
    ghost from_gives = { λ _ r. r ≡ Memory };

    fn from(_e: AllocFailed<T>) -> Failure<E> {
        Failure::Memory
    }
}

// A reason reads the same alone and as why something was not done.
impl<E: fmt::Display> fmt::Display for Failure<E> {
    ghost output = { λ x. failure_text E.output x };

    fn fmt<W: fmt::Write>(&self, f: &mut fmt::Formatter<W>) -> fmt::Result {
        match self {
            Failure::Because(reason) => write!(f, "{reason}"),
            Failure::Memory => f.write_str("out of memory"),
        }
    }
}
