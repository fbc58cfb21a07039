//! How many clients take part.

ghost use Rattle.std.specs.Prelude.{◌≤◌};

/// How many clients take part, each on a thread of its own.
#[derive(Clone, Copy)]
pub enum Crowd {
    One,
    Two,
    Four,
    Sixteen,
}

impl Crowd {
    /// How many they are.
    pub fn count(self) -> u64
        ensures some { 1 ≤ result }
        ensures few { result ≤ 16 }
    {
        match self {
            Crowd::One => 1,
            Crowd::Two => 2,
            Crowd::Four => 4,
            Crowd::Sixteen => 16,
        }
    }
}
