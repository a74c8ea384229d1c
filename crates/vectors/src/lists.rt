// The arguments of a line: text with its line breaks, and lists of numbers.
use arrayvec::ArrayVec;

// The document writes / for a line break.
pub(crate) fn break_lines(text: &mut [u8]) {
    for b in text.iter_mut() {
        if *b == b'/' {
            *b = b'\n';
        }
    }
}

// The number that a byte makes of the digits before it: what is no digit, or too much, is passed over.
fn with_digit(x: usize, b: u8) -> usize {
    if x < 1000000 && b.is_ascii_digit() {
        return x * 10 + usize::from(b - b'0');
    }
    x
}

fn number_of(piece: &[u8]) -> usize {
    piece.iter().fold(0, |x, &b| with_digit(x, b))
}

// The numbers of a list.
pub(crate) type Numbers = ArrayVec<usize, 320>;

// They are parted by commas; those that find no room are passed over. Where nothing stands before the first comma, the number is `first`.
pub(crate) fn numbers_of(list: &[u8], first: usize) -> Numbers {
    let mut numbers = Numbers::new();
    if list.is_empty() {
        return numbers;
    }
    for (k, piece) in list.split(|&b| b == b',').enumerate() {
        let is_left_out = k == 0 && piece.is_empty();
        let _ = numbers.try_push(if is_left_out { first } else { number_of(piece) });
    }
    numbers
}

// Number k of a list, or 0 where it has fewer.
pub(crate) fn number_at(numbers: &[usize], k: usize) -> usize {
    numbers.get(k).copied().unwrap_or(0)
}

// The numbers as bytes, as many as find room.
// Stays: `as` at the low byte of a number, since a number has no `From` into a byte, and `try_from` would have a case that never comes.
pub(crate) fn as_bytes<'a>(numbers: &[usize], room: &'a mut [u8]) -> &'a [u8] {
    let n = numbers.len().min(room.len());
    for (b, x) in room.iter_mut().zip(numbers) {
        *b = (x % 256) as u8;
    }
    &room[..n]
}
