// Texts as they are put together. A text is a value: it is handed on and comes back longer, which is proved in far less time than a page
// that is lent from function to function.
ghost use Rattle.std.specs.Prelude.{◌<◌, ◌≤◌};

use printing::Page;
use refusals::Refusal;

// The number of standard output.
pub const STDOUT: i32 = 1;

// Room for the longest line: a menu of 64 octets with every name, or a mistake with every name that is expected.
const ROOM: usize = 640;

// The last byte of a text, which is a blank.
const LAST: usize = ROOM - 1;

// The set of every name of a kind.
const EVERY: u16 = 65535;

// A text: its bytes, with blanks behind them, and where the next one stands. Its memory is fixed, as all of the program's.
#[derive(Clone, Copy)]
pub struct Text {
    bytes: [u8; ROOM],
    len: usize,
}

impl Text {
    // A text with nothing in it.
    pub fn blank() -> Text {
        Text {
            bytes: [b' '; ROOM],
            len: 0,
        }
    }

    // A text that begins with these words.
    pub fn of(words: &str) -> Text {
        Text::blank().put_words(words)
    }

    // The same text, to which the next byte is put at a column.
    pub fn at(self, column: usize) -> Text {
        Text {
            len: column,
            ..self
        }
    }

    // How many bytes it has, and where the next one stands.
    pub fn len(&self) -> usize {
        self.len
    }

    // What stands in it, with the blank behind that.
    pub fn bytes(&self) -> &[u8] {
        &self.bytes[..self.len.min(LAST) + 1]
    }

    // A byte, where there is room.
    pub fn put(self, b: u8) -> Text {
        let mut text = self;
        if text.len < ROOM {
            text.bytes[text.len] = b;
            text.len += 1;
        }
        text
    }

    // Bytes as they are.
    pub fn put_bytes(self, bytes: &[u8]) -> Text {
        bytes.iter().fold(self, |text, b| text.put(*b))
    }

    // Words.
    pub fn put_words(self, words: &str) -> Text {
        self.put_bytes(words.as_bytes())
    }

    // Bytes as they are shown.
    pub fn put_shown(self, bytes: &[u8]) -> Text {
        bytes.iter().fold(self, |text, b| text.put(shown(*b)))
    }

    // What is written on a page that begins behind the text.
    fn on_page<F: FnOnce(&mut Page<'_>)>(self, write: F) -> Text
        requires { (page : _) → F.pre write page }
    {
        let mut text = self;
        let at = text.len;
        let mut page = Page {
            out: &mut text.bytes,
            at,
        };
        write(&mut page);
        text.len = page.at;
        text
    }

    // An octet in hex digits, with a blank before it.
    fn put_octet(self, octet: u8) -> Text {
        self.put(b' ').on_page(|page| page.put_octet(octet))
    }

    // Octets, a blank before each.
    pub fn put_octets(self, octets: &[u8]) -> Text {
        octets
            .iter()
            .fold(self, |text, octet| text.put_octet(*octet))
    }

    // A number in decimal digits.
    pub fn put_number(self, number: u64) -> Text {
        self.on_page(|page| page.put_decimal(number))
    }

    // A refusal, by its number.
    pub fn put_refusal(self, refusal: Refusal) -> Text {
        self.put_words(" refusal ")
            .put_number(u64::from(u8::from(refusal)))
    }

    // The names of a kind that are in a set, a blank before each.
    pub fn put_names(self, kind: u8, set: u16) -> Text {
        self.on_page(|page| names::put_names(page, kind, set))
    }

    // Every name of a kind.
    pub fn put_every(self, kind: u8) -> Text {
        self.put_names(kind, EVERY)
    }

    // How long it is without the blanks at its end, and without its last byte.
    fn trimmed(&self) -> usize
        ensures { result ≤ 639 }
    {
        match self.bytes[..LAST].iter().rposition(|b| *b != b' ') {
            Some(last) => last + 1,
            None => 0,
        }
    }

    // Writes it as a line, without the blanks at its end.
    pub fn say(self) {
        let end = self.trimmed();
        let mut bytes = self.bytes;
        bytes[end] = b'\n';
        io::write_all(STDOUT, &bytes[..end + 1]);
    }
}

// A byte as it is shown.
pub fn shown(b: u8) -> u8 {
    match b {
        b' '..=b'~' => b,
        _ => b'?',
    }
}
