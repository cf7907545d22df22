// The refusals of documents 01 and 02, by name; C is handed their numbers.
ghost use Rattle.std.specs.Prelude.{◌≡◌};
ghost use Rattle.ground.specs.Refusals.{number, status};

#[derive(Clone, Copy, Debug, PartialEq, Eq)]
pub enum Refusal {
    // a lent length is wrong
    LengthWrong = 1,
    // a spare bit is set
    SpareSet = 2,
    // pattern above 27
    PatternAbove27 = 3,
    // block 762 with a pattern other than 0
    PatternNot0 = 4,
    // CRC wrong
    CrcWrong = 5,
    // Sig_Pipe_Ver not 0
    VersionNot0 = 6,
    // lists pass 750 bits
    ListsPass750 = 7,
    // a bit after the lists and before 750 is set
    PaddingSet = 8,
    // width no multiple
    WidthNoMultiple = 9,
    // a payload pipe in use without 32 taps
    Without32Taps = 10,
    // stream id twice
    IdTwice = 11,
    // sheet header wrong
    HeaderWrong = 12,
    // header counts differ from what the records say
    CountsDiffer = 13,
    // a section's top bits set
    TopBitsSet = 14,
    // stream type above 3; to write a payload word, above 2
    TypeUnknown = 15,
    // Encap_Ver not 0
    EncapNot0 = 16,
    // packet count above 8
    CountAbove8 = 17,
    // First_Header_Address of 1,503 to 4,094
    AddressWrong = 18,
    // no packets of an IP stream
    PacketsWrong = 19,
    // a disperser's profile whose taps are not 32
    ProfileWrong = 20,
    // a frame buffer of the wrong size
    FrameWrong = 21,
}

impl Refusal {
    // The number of the refusal in the documents' tables.
    pub fn number(self) -> u8
        ensures { result ≡ number self }
    {
        self as u8
    }
}

// The number of an answer as C is handed it: that of the refusal, and 0 where nothing is refused.
pub fn status<T: Copy>(answer: Result<T, Refusal>) -> u8
    ensures { result ≡ status answer }
{
    match answer {
        Ok(_) => 0,
        Err(refusal) => refusal.number(),
    }
}
