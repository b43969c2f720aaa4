// How bytes of a text are printed: as they are, those that cannot be by `\n`, `\r` or their number.
use show::Hex;
use std::fmt;

#[derive(Clone, Copy)]
struct Byte(u8);

impl fmt::Display for Byte {
    fn fmt<W: fmt::Write>(&self, f: &mut fmt::Formatter<W>) -> fmt::Result {
        let byte = self.0;
        match byte {
            b'\n' => write!(f, "\\n"),
            b'\r' => write!(f, "\\r"),
            0x20..=0x7e => write!(f, "{}", char::from(byte)),
            _ => write!(f, "\\x{}", Hex(byte)),
        }
    }
}

// A text, or how many bytes one has that is too long to print, and the last of them.
#[derive(Clone, Copy)]
pub struct Text<'a>(pub &'a [u8]);

impl fmt::Display for Text<'_> {
    fn fmt<W: fmt::Write>(&self, f: &mut fmt::Formatter<W>) -> fmt::Result {
        let mut shown = self.0;
        let n = shown.len();
        if 256 < n {
            write!(f, "{n} bytes..")?;
            shown = &shown[n - 24..];
        }
        for byte in shown {
            write!(f, "{}", Byte(*byte))?;
        }
        Ok(())
    }
}

// What lies behind a text: in short, if it is as it was.
#[derive(Clone, Copy)]
pub struct Rest<'a>(pub &'a [u8]);

impl fmt::Display for Rest<'_> {
    fn fmt<W: fmt::Write>(&self, f: &mut fmt::Formatter<W>) -> fmt::Result {
        if self.0.iter().all(|byte| *byte == 0xee) {
            write!(f, "\\xee({})", self.0.len())
        } else {
            write!(f, "{}", Text(self.0))
        }
    }
}
