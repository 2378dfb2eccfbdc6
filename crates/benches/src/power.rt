ghost use Rattle.std.specs.Prelude.{◌≡◌};
ghost use Rattle.benches.specs.Supplies.{is_on, spent};

// Whether the power is on, and for how long: a fuse lets that many writes and flushes through and cuts the one after.
#[derive(Clone, Copy)]
pub enum Power {
    Off,
    Fuse(u32),
    Lasting,
}

impl Power {
    pub(crate) fn is_on(self) -> bool
        ensures { result ≡ is_on self }
    {
        !matches!(self, Power::Off)
    }

    // What one write or flush leaves of it.
    pub(crate) fn spent(self) -> Power
        ensures { result ≡ spent self }
    {
        match self {
            Power::Off | Power::Fuse(0) => Power::Off,
            Power::Fuse(left) => Power::Fuse(left - 1),
            Power::Lasting => Power::Lasting,
        }
    }
}
