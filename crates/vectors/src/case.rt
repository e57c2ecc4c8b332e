// Cases, as they are read.
use std::io::Read;

// What a case asks for.
#[derive(Clone, Copy)]
pub enum Kind {
    Read,
    Program,
    Build,
    Map,
    Write,
    Steps,
    Load,
    Drag,
    Losses,
}

impl Kind {
    // A case is told by a letter, and by its kind from here on. (`TryFrom` would need an error that says nothing.)
    fn from_letter(letter: u8) -> Option<Kind> {
        match letter {
            b'r' => Some(Kind::Read),
            b'p' => Some(Kind::Program),
            b'b' => Some(Kind::Build),
            b'm' => Some(Kind::Map),
            b'w' => Some(Kind::Write),
            b's' => Some(Kind::Steps),
            b'l' => Some(Kind::Load),
            b'd' => Some(Kind::Drag),
            b'a' => Some(Kind::Losses),
            _ => None,
        }
    }
}

#[derive(Clone, Copy)]
pub struct Head {
    // None where the letter is none of the nine.
    kind: Option<Kind>,
    entries: u16,
    room: u32,
    length: u32,
    questions: u8,
}

#[derive(Clone, Copy)]
pub struct Case<'a> {
    pub kind: Option<Kind>,
    // How many entries are lent, and how many bytes or losses.
    pub entries: usize,
    pub room: usize,
    pub body: &'a [u8],
    pub questions: &'a [u8],
}

impl Head {
    // None where no whole head is left.
    pub fn read(reader: &mut impl Read) -> Option<Head> {
        let mut head = [0; 12];
        reader.read_exact(&mut head).ok()?;
        let [letter, e0, e1, r0, r1, r2, r3, l0, l1, l2, l3, questions] = head;
        Some(Head {
            kind: Kind::from_letter(letter),
            entries: u16::from_be_bytes([e0, e1]),
            room: u32::from_be_bytes([r0, r1, r2, r3]),
            length: u32::from_be_bytes([l0, l1, l2, l3]),
            questions,
        })
    }

    // The case, whose body and questions go into the buffer. None where they are not whole, or longer than the buffer.
    pub fn case<'a>(self, reader: &mut impl Read, buffer: &'a mut [u8]) -> Option<Case<'a>> {
        // (no `From` makes a `u32` a `usize`, here and below)
        let length = self.length as usize;
        let rest = buffer.get_mut(..length + 8 * usize::from(self.questions))?;
        reader.read_exact(rest).ok()?;
        let (body, questions) = rest.split_at(length);
        Some(Case {
            kind: self.kind,
            entries: usize::from(self.entries),
            room: self.room as usize,
            body,
            questions,
        })
    }
}
