// The words of a line, parted by blanks.
use crate::notation;

// The first items, so many or all.
pub fn first<T>(items: &[T], size: u32) -> &[T] {
    items.get(..size as usize).unwrap_or(items)
}

// The first items, so many or all, to be written.
pub fn first_mut<T>(items: &mut [T], size: u32) -> &mut [T] {
    let end = items.len().min(size as usize);
    &mut items[..end]
}

// The first word of a line, and what follows the blank after it.
fn split_word(line: &[u8]) -> (&[u8], &[u8]) {
    match line.iter().position(|b| *b == b' ') {
        Some(end) => (&line[..end], &line[end + 1..]),
        None => (line, &[]),
    }
}

// The first word of a line.
pub fn word(line: &[u8]) -> &[u8] {
    split_word(line).0
}

// What follows the first word of a line.
pub fn rest(line: &[u8]) -> &[u8] {
    split_word(line).1
}

// The number that the first word of a line stands for, or the largest where it does not fit.
pub fn number(line: &[u8]) -> u32 {
    word(line).iter().fold(0, |n: u32, b| {
        n.saturating_mul(10)
            .saturating_add(u32::from(notation::digit(*b)))
    })
}

// Writes the numbers that the words of a line stand for to a table, as far as it has room, and answers how many there are.
pub fn numbers(line: &[u8], table: &mut [u32]) -> u32 {
    let mut count: u32 = 0;
    for word in line.split_inclusive(|b| *b == b' ') {
        if let Some(slot) = table.get_mut(count as usize) {
            *slot = number(word);
        }
        count = count.saturating_add(1);
    }
    count
}
