// The kinds of records, by their bytes; refusal 4.
ghost use Rattle.records.specs.Parts.{Decodes};

use refusal::Refusal;

#[derive(Clone, Copy, Debug, PartialEq, Eq)]
pub enum Kind {
    Start,
    Send,
    Arrive,
    Close,
    Crash,
    Suspect,
}

impl TryFrom<u8> for Kind {
    type Error = Refusal;

    ghost try_from_gives = { Decodes };

    fn try_from(code: u8) -> Result<Self, Refusal> {
        match code {
            1 => Ok(Kind::Start),
            2 => Ok(Kind::Send),
            3 => Ok(Kind::Arrive),
            4 => Ok(Kind::Close),
            5 => Ok(Kind::Crash),
            6 => Ok(Kind::Suspect),
            _ => Err(Refusal::Kind),
        }
    }
}
