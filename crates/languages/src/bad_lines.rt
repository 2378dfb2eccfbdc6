ghost use Rattle.languages.specs.Texts.{bad_line_text};

use failures::Failure;
use std::fmt;

// A bad line: its number, counted from 1, and what was expected there.
#[derive(Clone, Copy, Debug, PartialEq, Eq)]
pub struct BadLine<E> {
    pub line: usize,
    pub expected: E,
}

// Why a script was not read: its first bad line, or a want of memory, which says nothing of the script.
pub type Unread<E> = Failure<BadLine<E>>;

// The line's number goes first, as in a compiler's message.
impl<E: fmt::Display> fmt::Display for BadLine<E> {
    ghost output = { λ x. bad_line_text E.output x };

    fn fmt<W: fmt::Write>(&self, f: &mut fmt::Formatter<W>) -> fmt::Result {
        let line = self.line;
        let expected = &self.expected;
        write!(f, "line {line}: {expected}")
    }
}
