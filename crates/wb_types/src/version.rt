//! Versions of the metadata.

ghost use Rattle.std.specs.Prelude.{◌≡◌, IfSome};

/// The layout that a metadata device is written in.
#[derive(Clone, Copy, PartialEq, Eq)]
pub enum Version {
    /// One tree, whose leaves hold the dirty bits.
    One,
    /// A mapping tree without dirty bits; those of a clean image have a tree of their own.
    Two,
}

impl Version {
    ghost use Rattle.wb_types.specs.Versions.{version_asked, version_number};

    /// Its number in a root.
    pub fn number(&self) -> u32
        ensures { result ≡ version_number self.now }
    {
        match self {
            Version::One => 1,
            Version::Two => 2,
        }
    }

    /// The version of a number, where there is one.
    pub fn of(number: u32) -> Option<Version>
        ensures found { IfSome result (λ version. number ≡ version_number version) }
        ensures only { (version : Version) → number ≡ version_number version → result ≡ Some version }
    {
        match number {
            1 => Some(Version::One),
            2 => Some(Version::Two),
            _ => None,
        }
    }

    /// The version that is asked for, by whether it is the second.
    pub fn asked(metadata2: bool) -> Version
        ensures { result ≡ version_asked metadata2 }
    {
        if metadata2 {
            Version::Two
        } else {
            Version::One
        }
    }
}
