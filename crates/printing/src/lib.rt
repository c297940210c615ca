// Printing on a page that is lent: a buffer, and the place of the next byte in it. Each method writes from that place on, and leaves out
// what has no room.
#![tactic(auto, using(laws::proofs::Cases::cases, crate::proofs::Pages::typed_on, crate::proofs::Pages::typed_end), unfolding(laws::specs::Logic::when, crate::specs::Page::typed))]

ghost use Rattle.std.specs.Prelude.{◌≤◌, ◌≡◌};
ghost use Rattle.printing.specs.Page.{struck, typed, hex_digit, hex_octet, TypedDecimal};

use std::marker::Model;

// A page, with the place of the next byte. Every place is allowed, also one past the end: nothing is written there.
#[derive(Drop)]
pub struct Page<'a> {
    pub out: &'a mut [u8],
    pub at: usize,
}

impl<'a> Model for Page<'a> {
    ghost use Rattle.printing.specs.Page.{Page as Paper};

    ghost Value = { Paper };

    ghost view = { λ p. record { lent = p.out.ghost_name; buffer = p.out.now; at = p.at } };
}

// Ten before the letter A.
const TEN_BEFORE_A: u8 = b'A' - 10;

// A hexadecimal digit, in upper case.
fn hex_digit(n: u8) -> u8
    requires { n ≤ 15 }
    ensures { result ≡ hex_digit n }
{
    if n < 10 { b'0' + n } else { TEN_BEFORE_A + n }
}

impl<'a> Page<'a> {
    // A byte.
    fn put(&mut self, b: u8)
        ensures { self.new ≡ struck self.old b }
    {
        if self.at < self.out.len() {
            self.out[self.at] = b;
            self.at += 1;
        }
    }

    // The bytes of a text.
    pub fn put_text(&mut self, text: &[u8])
        ensures { self.new ≡ typed self.old text.now }
    {
        for &b in text {
            self.put(b);
        }
    }

    // An octet in two hexadecimal digits.
    pub fn put_octet(&mut self, b: u8)
        ensures { self.new ≡ typed self.old (hex_octet b) }
    {
        self.put(hex_digit(b / 16));
        self.put(hex_digit(b % 16));
    }

    // A number in decimal digits.
    pub fn put_decimal(&mut self, number: u64)
        ensures { TypedDecimal self.old number self.new }
    {
        let mut digits = [0u8; 20];
        let count = io::decimal(number, &mut digits);
        self.put_text(&digits[..count]);
    }
}
