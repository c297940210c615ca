// Lists what is heard in the characters 0 and 1 of standard input, a line for each report, as document 01 lays down at the end
// of 'Worked values'. Input is read in blocks, and what a block reports is gathered and written at once.
#![tactic(auto, using(printing::proofs::Pages::text_within, printing::proofs::Pages::decimal_within))]

ghost use Rattle.std.specs.Prelude.{◌≤◌, ◌<◌, length};
ghost use Rattle.listening.proofs.Ranges.{Fits};

use listening::{Heard, Listener};
use printing::Page;
use refusals::Refusal;
use std::io::{Read, Stdin};
use std::marker::Model;

// Room that is kept for the next line, which has at most 222 bytes: 20 digits, a word of four, 64 octets, three digits, and what parts
// and ends them.
const LINE_ROOM: usize = 256;

// The number of standard output.
const STDOUT: i32 = 1;

// The line's record, and how many bits were heard.
#[derive(Clone, Copy)]
struct State {
    rec: Listener,
    bits: u64,
    ghost fits: { Fits rec },
}

// The lines that are gathered, on a page that they never leave.
#[derive(Drop)]
struct Lines<'a> {
    page: Page<'a>,
}

impl<'a> Model for Lines<'a> {
    ghost use Rattle.printing.specs.Page.{Page as Paper};
    ghost use Rattle.printing.proofs.Pages.{Within};

    ghost Value = { Paper };

    ghost view = { λ l. l.page };

    ghost invariant = { λ l. Within l.page };
}

impl<'a> Lines<'a> {
    // Octets with single spaces between, or - where there are none.
    fn put_octets(&mut self, octets: &[u8]) {
        let Some((first, rest)) = octets.split_first() else {
            self.page.put_text(b"-");
            return;
        };
        self.page.put_octet(*first);
        for &octet in rest {
            self.page.put_text(b" ");
            self.page.put_octet(octet);
        }
    }

    // A message: its word, octets and span.
    fn put_message(&mut self, place: u64, word: &[u8], octets: &[u8], span: u16) {
        self.page.put_decimal(place);
        self.page.put_text(word);
        self.put_octets(octets);
        self.page.put_text(b"\t");
        self.page.put_decimal(u64::from(span));
        self.page.put_text(b"\n");
    }

    fn put_cj(&mut self, place: u64) {
        self.page.put_decimal(place);
        self.page.put_text(b"\tCJ\t-\t-\n");
    }

    fn put_refusal(&mut self, place: u64, r: Refusal) {
        self.page.put_decimal(place);
        self.page.put_text(b"\tR");
        self.page.put_decimal(u64::from(u8::from(r)));
        self.page.put_text(b"\t-\t-\n");
    }

    // The line of a report.
    fn put_line(&mut self, place: u64, report: Result<Heard, Refusal>, octets: &[u8]) {
        match report {
            Ok(Heard::Nothing) => {}
            Ok(Heard::Ci(span)) => self.put_message(place, b"\tCI\t", octets, span),
            Ok(Heard::Menu(span, _)) => self.put_message(place, b"\tMENU\t", octets, span),
            Ok(Heard::Cj) => self.put_cj(place),
            Err(r) => self.put_refusal(place, r),
        }
    }

    // Writes what is gathered.
    fn write(&mut self) {
        let at = self.page.at;
        io::write_all(STDOUT, &self.page.out[..at]);
        self.page.at = 0;
    }

    // Whether little room is left for another line.
    fn is_full(&self) -> bool {
        self.page.out.len() - self.page.at < LINE_ROOM
    }
}

impl State {
    // Hears bits up to the first that reports something, and gathers its line. Answers how many bits it took.
    #[tactic(auto, using(crate::proofs::Held::held))]
    fn hear(&mut self, bits: &[u8], lines: &mut Lines<'_>) -> usize
        requires { 0 < length bits.now }
        ensures some { 0 < result }
        ensures most { result ≤ length bits.now }
    {
        let heard = listening::hear_many(self.rec, bits);
        let place = self.bits.wrapping_add(heard.taken as u64 - 1);
        self.rec = heard.rec;
        let message = heard.rec.msg;
        let octets = &message.octets[..message.len as usize];
        lines.put_line(place, heard.report, octets);
        if lines.is_full() {
            lines.write();
        }
        // What was refused as no bit is not counted.
        self.bits = match heard.report {
            Err(Refusal::NotABit) => place,
            _ => place.wrapping_add(1),
        };
        heard.taken
    }

    // Lists what the bits report.
    fn list(&mut self, bits: &[u8], lines: &mut Lines<'_>) {
        let mut rest = bits;
        // no `for`: a turn takes as many bits as there are up to the next report
        while !rest.is_empty() {
            let taken = self.hear(rest, lines);
            rest = &rest[taken..];
        }
        lines.write();
    }
}

// Characters to bits, in place: 0 and 1 become 0 and 1, line feeds go, any other byte becomes one that is no bit. Answers how
// many there are. By index, since what is kept is stored over what was read.
fn to_bits(text: &mut [u8]) -> usize
    ensures { result ≤ length text.new }
{
    let mut n = 0;
    for i in 0..text.len() {
        let b = text[i];
        if b != b'\n' {
            text[n] = b.wrapping_sub(b'0');
            n += 1;
        }
    }
    n
}

// How many bytes came at once; none where nothing comes any more, or nothing can be read.
fn read_once(mut input: Stdin, text: &mut [u8]) -> usize
    ensures { result ≤ length text.new }
{
    input.read(text).unwrap_or(0)
}

// Lists what comes, block by block, until nothing comes any more, or nothing can be read.
fn list_all(input: Stdin, text: &mut [u8], lines: &mut Lines<'_>) {
    let mut state = State {
        rec: listening::fresh_line(),
        bits: 0,
    };
    for _turn in 0..u64::MAX {
        let n = read_once(input, text);
        if n == 0 {
            return;
        }
        let count = to_bits(&mut text[..n]);
        state.list(&text[..count], lines);
    }
}

fn main(rt: HostRuntime) {
    io::write_all(STDOUT, b"bit\twhat\toctets\tspan\n");
    let mut text = io::large_buffer();
    let mut out = io::large_buffer();
    let mut lines = Lines {
        page: Page {
            out: &mut out,
            at: 0,
        },
    };
    list_all(rt.stdin(), &mut text, &mut lines);
}
