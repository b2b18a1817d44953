// The types of fields and values, by their letters.
ghost use Rattle.std.specs.Prelude.{◌≡◌, ℕ, ◌↔◌, Some};
ghost use Rattle.store.specs.Scalars.{scalar_of, letter_for};

use crate::tags::Kind;

// The type of a field or of a value: the kind and the size of its objects.
#[derive(Clone, Copy, PartialEq, Eq, Debug)]
pub struct Scalar {
    pub kind: Kind,
    pub size: u8,
}

impl Scalar {
    // The type that a letter of a layout or of a step stands for.
    pub fn from_letter(letter: u8) -> Option<Scalar>
        ensures { result ≡ scalar_of letter }
    {
        match letter as char {
            'b' => Some(Scalar {
                kind: Kind::Integral,
                size: 1,
            }),
            'h' => Some(Scalar {
                kind: Kind::Integral,
                size: 2,
            }),
            'w' => Some(Scalar {
                kind: Kind::Integral,
                size: 4,
            }),
            'f' => Some(Scalar {
                kind: Kind::Real,
                size: 4,
            }),
            'p' => Some(Scalar {
                kind: Kind::Pointer,
                size: 4,
            }),
            _ => None,
        }
    }

    // The letter that stands for the type; none for a type that no letter stands for.
    pub fn letter(self) -> Option<u8>
        ensures letter { result ≡ letter_for self }
        ensures stands { (l : ℕ) → (result ≡ Some l) ↔ (scalar_of l ≡ Some self) }
    {
        match (self.kind, self.size) {
            (Kind::Integral, 1) => Some(b'b'),
            (Kind::Integral, 2) => Some(b'h'),
            (Kind::Integral, 4) => Some(b'w'),
            (Kind::Real, 4) => Some(b'f'),
            (Kind::Pointer, 4) => Some(b'p'),
            _ => None,
        }
    }
}
