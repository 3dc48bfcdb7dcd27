// Why a call turns away what it was handed.
ghost use Rattle.std.specs.Prelude.{◌≡◌};
ghost use Rattle.net.specs.Results.{refusal_number};

// The rows of document 01's table "Turned away" and, from 13 on, those of document 02, a and c, under the names of
// include/ups.h, but for 11, UPS_RESULT there.
#[derive(Clone, Copy)]
pub enum Refusal {
    Size = 1,
    Short = 2,
    Range = 3,
    Depth = 4,
    Room = 5,
    Place = 6,
    MissingWord = 7,
    WrongWord = 8,
    Trailing = 9,
    Even = 10,
    ResultRange = 11,
    Threshold = 12,
    OutlineByte = 13,
    NotConnected = 14,
    OffDoor = 15,
    ControlRange = 16,
}

impl Refusal {
    // The documents' number.
    pub fn number(self) -> u32
        ensures { result ≡ refusal_number self }
    {
        self as u32
    }
}
