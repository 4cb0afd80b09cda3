// What "ways" prints, as bytes in a lent buffer: numbers in decimal, words, and fields parted by one blank.
#![tactic(auto)]

ghost use Rattle.std.specs.Prelude.{◌≤◌, length};

const BLANK: u8 = b' ';

const NEWLINE: u8 = b'\n';

const ZERO: u8 = b'0';

// The least number of two digits.
const TWO_DIGITS: usize = 10;

// A lent buffer, and the place where the next byte is written.
#[derive(Drop)]
pub struct Page<'a> {
    out: &'a mut [u8],
    pub at: usize,
    pub ghost inside: { at ≤ length out.now },
}

// Each method that writes begins at the place, and leaves every byte before it and after what it wrote as it was. Its
// caller sees to the room.
impl<'a> Page<'a> {
    ghost use Rattle.std.specs.Prelude.{◌≡◌, [], ◌∷◌, ◌+◌, ◌*◌, ◌≤◌, length};
    ghost use Rattle.print_text.specs.Text.{newline, decimal, field, fields_after, fields, line};
    ghost use Rattle.print_text.specs.inner.Page.{HasRoom, Wrote, Begins};
    ghost use Rattle.print_text.specs.inner.Space.{number_room, field_room, byte_room, numbers_room};

    // A page that is written from its buffer's front.
    pub fn new(out: &'a mut [u8]) -> Page<'a>
        ensures { Begins out.entry result }
    {
        Page { out, at: 0 }
    }

    // How many bytes there is room for.
    pub fn room(&self) -> usize
        ensures { self.now.at + result ≡ length self.now.out.now }
    {
        self.out.len() - self.at
    }

    // Writes a number in decimal.
    #[tactic(auto, using(crate::proofs::Fields::number_fits))]
    pub fn put_number(&mut self, n: usize)
        requires { HasRoom number_room self.old }
        ensures wrote { Wrote self.old (decimal n) self.new }
        ensures at_most { self.new.at ≤ self.old.at + number_room }
    {
        self.put_digits(n)
    }

    // Writes a field that is not the first of its line: a blank, then a number.
    #[tactic(auto, using(crate::proofs::Fields::number_fits))]
    pub fn put_field(&mut self, n: usize)
        requires { HasRoom field_room self.old }
        ensures wrote { Wrote self.old (field n) self.new }
        ensures at_most { self.new.at ≤ self.old.at + field_room }
    {
        self.put_after_blank(n);
    }

    // Writes the numbers of the bytes, each as a field that is not the first of its line.
    pub fn put_fields(&mut self, numbers: &[u8])
        requires { HasRoom (byte_room * length numbers.now) self.old }
        ensures wrote { Wrote self.old (fields_after numbers.now) self.new }
        ensures at_most { self.new.at ≤ self.old.at + byte_room * length numbers.now }
    {
        for number in numbers {
            self.put_after_blank(usize::from(*number));
        }
    }

    // Writes the numbers, parted by one blank. Beside `put_fields` it writes other text, over numbers of another type:
    // one function of both would take a trait and say no less.
    pub fn put_numbers(&mut self, numbers: &[usize])
        requires { HasRoom (numbers_room (length numbers.now)) self.old }
        ensures wrote { Wrote self.old (fields numbers.now) self.new }
        ensures at_most { self.new.at ≤ self.old.at + numbers_room (length numbers.now) }
    {
        if let [first, rest @ ..] = numbers {
            self.put_number(*first);
            for number in rest {
                self.put_field(*number);
            }
        }
    }

    // Writes a line of numbers.
    pub fn put_line(&mut self, numbers: &[usize])
        requires { HasRoom (numbers_room (length numbers.now) + 1) self.old }
        ensures wrote { Wrote self.old (line numbers.now) self.new }
        ensures at_most { self.new.at ≤ self.old.at + numbers_room (length numbers.now) + 1 }
    {
        self.put_numbers(numbers);
        self.put_newline();
    }

    // Writes a word.
    pub fn put_word(&mut self, word: &[u8])
        requires { HasRoom (length word.now) self.old }
        ensures { Wrote self.old word.now self.new }
    {
        let end = self.at + word.len();
        self.out[self.at..end].copy_from_slice(word);
        self.at = end;
    }

    // Writes a newline, which ends a line.
    pub fn put_newline(&mut self)
        requires { HasRoom 1 self.old }
        ensures { Wrote self.old (newline ∷ []) self.new }
    {
        self.put_byte(NEWLINE);
    }

    // Writes one byte.
    fn put_byte(&mut self, byte: u8)
        requires { HasRoom 1 self.old }
        ensures { Wrote self.old (byte ∷ []) self.new }
    {
        self.out[self.at] = byte;
        self.at += 1;
    }

    // Writes a blank, then a number, where there is just the room for them.
    fn put_after_blank(&mut self, n: usize)
        requires { HasRoom (length (field n)) self.old }
        ensures { Wrote self.old (field n) self.new }
    {
        self.put_byte(BLANK);
        self.put_digits(n);
    }

    // Writes a number in decimal, its tens and then its last digit, where there is just the room for it. The library's
    // `write!` promises the text only where it succeeds, and not that it does.
    fn put_digits(&mut self, n: usize)
        requires { HasRoom (length (decimal n)) self.old }
        ensures { Wrote self.old (decimal n) self.new }
    {
        if n >= TWO_DIGITS {
            self.put_digits(n / 10);
        }
        self.put_byte(ZERO + (n % 10) as u8);
    }
}
