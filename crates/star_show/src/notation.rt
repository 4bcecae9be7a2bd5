// The notation of files: \n \r \t \v \f \\ and \xNN as in C and every other byte as itself.
ghost use Rattle.std.specs.Prelude.{◌<◌};

// What a decimal or hexadecimal digit stands for.
pub fn digit(b: u8) -> u8
    ensures { result < 16 }
{
    (b % 16 + b / 64 * 9) % 16
}

// The byte that `\` and one letter stand for.
fn named(letter: u8) -> u8 {
    match letter {
        0 => b'\\',
        b'n' => 10,
        b'r' => 13,
        b't' => 9,
        b'v' => 11,
        b'f' => 12,
        b'x' => 0,
        b => b,
    }
}

// The byte that the first symbol of a line stands for, and what follows the symbol.
fn split_symbol(line: &[u8]) -> Option<(u8, &[u8])> {
    match line {
        [b'\\', b'x', high, low, rest @ ..] => Some((digit(*high) * 16 + digit(*low), rest)),
        [b'\\', letter, rest @ ..] => Some((named(*letter), rest)),
        [b, rest @ ..] => Some((*b, rest)),
        [] => None,
    }
}

// Writes the file that a line stands for into a room, as far as it fits, and answers what was written.
pub fn unescape<'a>(line: &[u8], room: &'a mut [u8]) -> &'a [u8] {
    let mut left = line;
    let mut count = 0;
    for byte in room.iter_mut() {
        let Some((b, rest)) = split_symbol(left) else {
            break;
        };
        *byte = b;
        left = rest;
        count += 1;
    }
    &room[..count]
}
