// The kinds of lines.
use crate::trouble::Trouble;

// What a line says that a call must have left, or lends to the first one.
#[derive(Clone, Copy)]
pub enum Left {
    Script,
    Records,
    Directory,
    Same,
}

#[derive(Clone, Copy)]
pub enum Kind {
    // It asks nothing of a program.
    Nothing,
    Case,
    Lists,
    Left(Left),
    Counts,
    Edition,
    Read,
    Amend,
    Part,
}

// The kind of a line, by its first field.
impl TryFrom<&[u8]> for Kind {
    type Error = Trouble;

    fn try_from(word: &[u8]) -> Result<Kind, Trouble> {
        match word {
            b"define" | b"end" | b"step" => Ok(Kind::Nothing),
            b"case" => Ok(Kind::Case),
            b"lists" => Ok(Kind::Lists),
            b"script" => Ok(Kind::Left(Left::Script)),
            b"records" => Ok(Kind::Left(Left::Records)),
            b"directory" => Ok(Kind::Left(Left::Directory)),
            b"same" => Ok(Kind::Left(Left::Same)),
            b"counts" => Ok(Kind::Counts),
            b"edition" => Ok(Kind::Edition),
            b"read" => Ok(Kind::Read),
            b"amend" => Ok(Kind::Amend),
            b"part" => Ok(Kind::Part),
            _ => Err(Trouble::Malformed),
        }
    }
}
