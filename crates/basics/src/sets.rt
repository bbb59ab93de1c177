// Sets of small numbers as masks: bit x of a mask says whether x is in the set.
ghost use Rattle.std.specs.Prelude.{◌≡◌, ℕ, ◌%◌, ◌^◌, ◌<◌, ◌≤◌};
ghost use Rattle.basics.specs.Widths.{widest, word_width};
ghost use Rattle.basics.specs.Sets.{has as member, only as single, union as either, without as removed};

// A type of numbers that serve as masks. A type says how wide it is and how it is converted; all else has a body here, which
// a type may replace by one in its own width.
pub trait Mask: Copy {
    // Numbers below the width can be in a set.
    const WIDTH: u8;

    ghost WIDTH: { ℕ };

    // The mask as a number.
    ghost number: { Self → ℕ };

    // The mask in the widest type.
    fn wide(self) -> u128
        ensures value { result ≡ number self }
        ensures fits { result < 2 ^ WIDTH }
        ensures at_most { WIDTH ≤ 128 };

    // The mask of what is below the width.
    fn narrow(wide: u128) -> Self
        ensures { number result ≡ wide % 2 ^ WIDTH };

    ghost at_most: { WIDTH ≤ 128 };

    // Whether x is in the set.
    fn has(self, x: u8) -> bool
        ensures { result ≡ member (number self) x }
    {
        let set = self.wide();
        x < Self::WIDTH && (set >> x) & 1 == 1
    }

    // The set with x; a number from the width on is left out.
    fn with(self, x: u8) -> Self
        ensures within { x < WIDTH → number result ≡ either (number self) (single x) }
        ensures past { WIDTH ≤ x → result ≡ self }
    {
        if x < Self::WIDTH {
            Self::narrow(self.wide() | (1 << x))
        } else {
            self
        }
    }

    // The set less x.
    fn without(self, x: u8) -> Self
        ensures { number result ≡ removed (number self) x }
    {
        let set = self.wide();
        if x < Self::WIDTH {
            Self::narrow(set ^ (set & (1 << x)))
        } else {
            self
        }
    }

    // What is in one of two sets.
    fn union(self, other: Self) -> Self
        ensures { number result ≡ either (number self) (number other) }
    {
        Self::narrow(self.wide() | other.wide())
    }
}

impl Mask for u32 {
    const WIDTH: u8 = 32;

    ghost WIDTH = { 32 };

    ghost number = { λ set. set };

    ghost at_most = { word_width };

    fn wide(self) -> u128 {
        u128::from(self)
    }

    fn narrow(wide: u128) -> u32 {
        (wide % (1 << 32)) as u32
    }

    // These four are the trait's in 32 bits: every gate and every move asks them, and in 128 bits they take longer.
    fn has(self, x: u8) -> bool {
        x < 32 && (self >> x) & 1 == 1
    }

    fn with(self, x: u8) -> u32 {
        if x < 32 { self | (1 << x) } else { self }
    }

    fn without(self, x: u8) -> u32 {
        if x < 32 {
            self ^ (self & (1 << x))
        } else {
            self
        }
    }

    fn union(self, other: u32) -> u32 {
        self | other
    }
}

impl Mask for u128 {
    const WIDTH: u8 = 128;

    ghost WIDTH = { 128 };

    ghost number = { λ set. set };

    ghost at_most = { widest };

    fn wide(self) -> u128 {
        self
    }

    fn narrow(wide: u128) -> u128 {
        wide
    }
}
