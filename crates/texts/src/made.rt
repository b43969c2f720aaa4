// What a line means: numbers, or a text.
use arrayvec::ArrayVec;

// A text that a line means, up to the bytes that there is room for.
pub type Text = ArrayVec<u8, 65600>;

// The number that the digits write.
fn decimal(digits: &[u8]) -> u64 {
    digits.iter().fold(0u64, |value, digit| {
        value.wrapping_mul(10).wrapping_add(u64::from(*digit & 15))
    })
}

// Puts the numbers of a line, a blank before each, and behind them what counts up from the last; all stays as it is if there is none.
pub fn numbers(line: &[u8], out: &mut [u64]) {
    let mut numbers = line.split(|c| *c == b' ').skip(1).map(decimal);
    let mut last = None;
    for word in out.iter_mut() {
        last = numbers.next().or(last.map(|n: u64| n.wrapping_add(1)));
        *word = last.unwrap_or(*word);
    }
}

// Puts a text 1,022 times behind itself, or as often as there is room.
fn repeat(text: &mut Text) {
    for i in 0..1022 * text.len() {
        let byte = text[i];
        if text.try_push(byte).is_err() {
            return;
        }
    }
}

// Puts what a character means behind a text, if there is room. `$`, `&`, `_`, `@` and `~` mean line feed, carriage return, space and the
// bytes 0 and 255, any other character itself; but `%` repeats the text.
fn put(text: &mut Text, c: u8) {
    let byte = match c {
        b'%' => return repeat(text),
        b'$' => b'\n',
        b'&' => b'\r',
        b'_' => b' ',
        b'@' => 0,
        b'~' => 255,
        _ => c,
    };
    let _ = text.try_push(byte);
}

// Makes it the text that a line means from its third character on. It is lent, since a new one is 64 KB of zeros.
pub fn text(line: &[u8], text: &mut Text) {
    text.clear();
    for c in line.iter().skip(2) {
        put(text, *c);
    }
}
