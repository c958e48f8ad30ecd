//! Editions of Rust.
ghost use Rattle.std.specs.Prelude.{◌≡◌};
ghost use Rattle.tok_lexical.specs.Editions.{reserves_prefixes, reserves_guards};

/// An edition of Rust. The lexer reads the same tokens in the editions 2015 and 2018.
#[derive(Clone, Copy, PartialEq, Eq, PartialOrd, Ord, Hash, Debug, Default)]
pub enum Edition {
    Edition2015,
    Edition2018,
    #[default]
    Edition2021,
    Edition2024,
}

impl Edition {
    /// Returns `true` for the editions since 2021, which have reserved prefixes, C strings and raw
    /// lifetimes.
    pub fn reserves_prefixes(self) -> bool
        ensures { result ≡ reserves_prefixes self }
    {
        match self {
            Edition::Edition2015 | Edition::Edition2018 => false,
            Edition::Edition2021 | Edition::Edition2024 => true,
        }
    }

    /// Returns `true` for the edition 2024, which reserves a `#` directly before a quote or another
    /// `#`.
    pub fn reserves_guards(self) -> bool
        ensures { result ≡ reserves_guards self }
    {
        match self {
            Edition::Edition2024 => true,
            _ => false,
        }
    }
}
