// The three kinds of body, in the order in which they stand in a file.
ghost use Rattle.std.specs.Prelude.{◌≡◌};
ghost use Rattle.weekly.specs.Kinds.{letter_of, kind_of};

#[derive(Clone, Copy, PartialEq, Eq, PartialOrd, Ord)]
pub(crate) enum Kind {
    Added,
    Note,
    Removed,
}

impl Kind {
    // The letter of the kind's entry. A name, and no `From`, since a kind is no byte: `u8::from(kind)` would not say what byte.
    pub(crate) fn letter(self) -> u8
        ensures { result ≡ letter_of self }
    {
        match self {
            Kind::Added => b'A',
            Kind::Note => b'N',
            Kind::Removed => b'R',
        }
    }

    // The kind of an entry with this letter. An `Option`, and no `TryFrom`, since its error would say nothing.
    pub(crate) fn from_letter(letter: u8) -> Option<Kind>
        ensures { result ≡ kind_of letter }
    {
        match letter {
            b'A' => Some(Kind::Added),
            b'N' => Some(Kind::Note),
            b'R' => Some(Kind::Removed),
            _ => None,
        }
    }
}
