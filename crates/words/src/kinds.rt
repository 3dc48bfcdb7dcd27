// What a word of a file holds.
ghost use Rattle.std.specs.Prelude.{◌≡◌};
ghost use Rattle.words.specs.Kinds.{kind_number};

// The kinds of document 01, "Net file".
#[derive(Clone, Copy)]
pub enum Kind {
    Width = 1,
    Height = 2,
    X = 3,
    Y = 4,
    Z = 5,
    End = 6,
}

impl Kind {
    // The document's number.
    pub fn number(self) -> u32
        ensures { result ≡ kind_number self }
    {
        self as u32
    }
}
