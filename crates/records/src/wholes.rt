ghost use Rattle.std.specs.Prelude.{◌≡◌, ℤ, pos};

// A whole number, whatever its type is. Not `Into<i64>`: that says what a number may turn into, and a range has to name
// the one number that it is.
pub trait Whole: Copy {
    // The number itself.
    ghost whole: { Self → ℤ };

    fn whole(self) -> i64
        ensures { result ≡ whole self };
}

impl Whole for u8 {
    ghost whole = { pos };

    fn whole(self) -> i64 {
        i64::from(self)
    }
}

impl Whole for u32 {
    ghost whole = { pos };

    fn whole(self) -> i64 {
        i64::from(self)
    }
}

impl Whole for i32 {
    ghost whole = { λ z. z };

    fn whole(self) -> i64 {
        i64::from(self)
    }
}
