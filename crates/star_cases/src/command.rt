// What a line says, by its first letter.

#[derive(Clone, Copy)]
pub enum Command {
    Case,
    Long,
    Read,
    Fits,
    Write,
    Set,
    Look,
    Pairs,
    Number,
    Value,
    Build,
    Index,
    Ask,
    Hash,
    Old,
    Turn,
    Drop,
    Remark,
}

impl Command {
    // Whether its line has a file.
    pub fn has_file(self) -> bool {
        matches!(self, Command::Case | Command::Read | Command::Fits)
    }
}

impl From<&[u8]> for Command {
    fn from(line: &[u8]) -> Self {
        match line.first() {
            Some(b'c') => Command::Case,
            Some(b'1') => Command::Long,
            Some(b'r') => Command::Read,
            Some(b'f') => Command::Fits,
            Some(b'w') => Command::Write,
            Some(b's') => Command::Set,
            Some(b'l') => Command::Look,
            Some(b'p') => Command::Pairs,
            Some(b'n') => Command::Number,
            Some(b'v') => Command::Value,
            Some(b'b') => Command::Build,
            Some(b'i') => Command::Index,
            Some(b'a') => Command::Ask,
            Some(b'h') => Command::Hash,
            Some(b'o') => Command::Old,
            Some(b't') => Command::Turn,
            Some(b'd') => Command::Drop,
            _ => Command::Remark,
        }
    }
}
