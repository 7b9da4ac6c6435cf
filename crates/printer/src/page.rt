//! A text that grows in a lent buffer. std's `write!` to a `&mut [u8]` promises neither that it succeeds nor what the
//! buffer then holds, and `sheet_text` promises the text of every sheet, so the parts are copied here.
ghost use Rattle.std.specs.Prelude.{◌+◌, ◌*◌, ◌≤◌, ◌<◌, ◌≡◌, length};
ghost use mathlib.Core.List.{[], ◌∷◌, ◌++◌, flat_map};
ghost use Rattle.relation.specs.Arcs.{pairs};
ghost use Rattle.sheet.specs.Text.{space};
ghost use Rattle.printer.specs.Text.{hex_byte, record_line, arc_line};
ghost use Rattle.printer.specs.Buffer.{Writes, line_of};

use itoa::{Buffer, Integer};

// The digits of the bytes, two for each, 0 to 9 or a to f, in a part of a text as long as they are.
fn digits(bytes: &[u8], part: &mut [u8])
    requires { length part.old ≡ 2 * length bytes.now }
    ensures { part.new ≡ flat_map hex_byte bytes.now }
{
    hex::encode_to_slice(bytes, part).unwrap();
}

// The text so far, at the start of the buffer.
#[derive(Drop)]
pub(crate) struct Page<'a> {
    out: &'a mut [u8],
    pub(crate) len: usize,
}

impl<'a> Page<'a> {
    pub(crate) fn new(out: &'a mut [u8]) -> Page<'a>
        ensures same { result.out.ghost_name ≡ out.entry.ghost_name }
        ensures held { result.out.now ≡ out.old }
        ensures empty { result.len ≡ 0 }
    {
        Page { out, len: 0 }
    }

    fn word(&mut self, word: &[u8])
        requires { self.old.len + length word.now ≤ length self.old.out.now }
        ensures { Writes self.old word.now self.new }
    {
        let end = self.len + word.len();
        self.out[self.len..end].copy_from_slice(word);
        self.len = end;
    }

    // the decimal digits of n
    fn number<T: Integer>(&mut self, n: T)
        requires { self.old.len + T.MAX_STR_LEN ≤ length self.old.out.now }
        ensures text { Writes self.old (T.text n) self.new }
        ensures most { self.new.len ≤ self.old.len + T.MAX_STR_LEN }
    {
        let mut digits = Buffer::new();
        self.word(digits.format(n).as_bytes());
    }

    // a space, then the decimal digits of n
    fn spaced<T: Integer>(&mut self, n: T)
        requires { self.old.len + T.MAX_STR_LEN < length self.old.out.now }
        ensures text { Writes self.old (space ∷ T.text n) self.new }
        ensures most { self.new.len ≤ self.old.len + T.MAX_STR_LEN + 1 }
    {
        self.word(b" ");
        self.number(n);
    }

    // A line of a word and numbers.
    pub(crate) fn line<T: Integer>(&mut self, word: &[u8], numbers: &[T])
        requires { self.old.len + length word.now + (T.MAX_STR_LEN + 1) * length numbers.now < length self.old.out.now }
        ensures text { Writes self.old (line_of T.text word.now numbers.now) self.new }
        ensures most { self.new.len ≤ self.old.len + length word.now + (T.MAX_STR_LEN + 1) * length numbers.now + 1 }
    {
        self.word(word);
        for n in numbers {
            self.spaced(*n);
        }
        self.word(b"\n");
    }

    // The line of a record: two digits for each byte, 0 to 9 or a to f.
    pub(crate) fn record(&mut self, bytes: &[u8])
        requires { self.old.len + 2 * length bytes.now + 8 ≤ length self.old.out.now }
        ensures { Writes self.old (record_line bytes.now) self.new }
    {
        self.word(b"record ");
        self.hexadecimal(bytes);
        self.word(b"\n");
    }

    fn hexadecimal(&mut self, bytes: &[u8])
        requires { self.old.len + 2 * length bytes.now ≤ length self.old.out.now }
        ensures { Writes self.old (flat_map hex_byte bytes.now) self.new }
    {
        let end = self.len + 2 * bytes.len();
        digits(bytes, &mut self.out[self.len..end]);
        self.len = end;
    }

    // A line for each arc: `reduced` has two bytes for each.
    pub(crate) fn arcs(&mut self, reduced: &[u8])
        requires { self.old.len + 4 * length reduced.now ≤ length self.old.out.now }
        ensures text { Writes self.old (flat_map arc_line (pairs reduced.now)) self.new }
        ensures most { self.new.len ≤ self.old.len + 4 * length reduced.now }
    {
        let (arcs, _) = reduced.as_chunks::<2>();
        for [u, v] in arcs {
            self.number(*u);
            self.spaced(*v);
            self.word(b"\n");
        }
    }
}
