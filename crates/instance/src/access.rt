// How much of a memory an access reaches.

ghost use Rattle.std.specs.Prelude.{◌≡◌};
ghost use Rattle.instance.specs.Store.{byte_count};

/// How many bytes a load or a store reaches.
#[derive(Clone, Copy, Debug, PartialEq, Eq)]
pub enum AccessSize {
    One,
    Two,
    Four,
    Eight,
}

impl AccessSize {
    /// The number of bytes: 1, 2, 4 or 8.
    #[inline]
    pub fn bytes(self) -> usize
        ensures { result ≡ byte_count self }
    {
        match self {
            AccessSize::One => 1,
            AccessSize::Two => 2,
            AccessSize::Four => 4,
            AccessSize::Eight => 8,
        }
    }
}
