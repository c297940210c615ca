// Names: the words for ends, functions, modulations and options, as document 01 and the header have them, and what each names.
#![tactic(auto)]

ghost use Rattle.std.specs.Prelude.{◌≡◌};
ghost use Rattle.printing.specs.Page.{typed};
ghost use Rattle.names.specs.Names.{lower, same_letters, names, named, named_by, names_of};
ghost use Rattle.names.specs.Inner.{lent, entries, shown};

use items::Item;
use printing::Page;

// What a word may name: an end of the call, a line of a call text, a call function, an item or a PCM option by document 01's name for it,
// an item by the other name that V.8 has for it, a part of an end's line, what an end wants, what its line is, an option of the access
// group. Numbers and no enum, since `put_names` takes every u8, and writes nothing where no name is of that kind.
pub const END: u8 = 1;

pub const LINE: u8 = 2;

pub const FUNCTION: u8 = 3;

pub const MODE: u8 = 4;

pub const OTHER_MODE: u8 = 5;

pub const PART: u8 = 6;

pub const WANTED: u8 = 7;

pub const QUALITY: u8 = 8;

pub const ACCESS: u8 = 9;

// What a word names: its kind, and which of that kind.
#[derive(Clone, Copy)]
pub struct Meaning {
    pub kind: u8,
    pub number: u8,
}

// Each name, the kind of what it names, and which of that kind.
const NAMES: [(&[u8], u8, u8); 41] = [
    (b"caller", END, 1),
    (b"answerer", END, 2),
    (b"call", LINE, 5),
    (b"Te", LINE, 6),
    (b"damaged", LINE, 7),
    (b"blocks", LINE, 8),
    (b"cadence", LINE, 9),
    (b"answers", LINE, 10),
    (b"H.324", FUNCTION, 1),
    (b"textphone", FUNCTION, 2),
    (b"videotex", FUNCTION, 3),
    (b"fax-sent", FUNCTION, 4),
    (b"fax-received", FUNCTION, 5),
    (b"data", FUNCTION, 6),
    (b"V.34", MODE, 1),
    (b"V.34-half-duplex", MODE, 2),
    (b"V.32bis", MODE, 3),
    (b"V.22bis", MODE, 4),
    (b"V.17", MODE, 5),
    (b"V.29-half-duplex", MODE, 6),
    (b"V.27ter", MODE, 7),
    (b"V.26ter", MODE, 8),
    (b"V.26bis", MODE, 9),
    (b"V.23", MODE, 10),
    (b"V.23-half-duplex", MODE, 11),
    (b"V.21", MODE, 12),
    (b"PCM-analogue", MODE, 13),
    (b"PCM-digital", MODE, 14),
    (b"V.91", MODE, 15),
    (b"V.32", OTHER_MODE, 3),
    (b"V.22", OTHER_MODE, 4),
    (b"home", PART, 3),
    (b"wants", PART, 4),
    (b"sends", PART, 8),
    (b"LAPM", WANTED, 0),
    (b"access", WANTED, 1),
    (b"cellular", QUALITY, 2),
    (b"digital", QUALITY, 3),
    (b"caller-cellular", ACCESS, 0),
    (b"answerer-cellular", ACCESS, 1),
    (b"digital-network", ACCESS, 2),
];

// A letter in lower case; every other byte as it is.
#[tactic(auto, using(laws::proofs::Cases::cases), unfolding(laws::specs::Logic::when))]
fn lower(b: u8) -> u8
    ensures { result ≡ lower b }
{
    if b < b'A' {
        b
    } else if b <= b'Z' {
        b + 32
    } else {
        b
    }
}

// Whether a word is the name, in upper or in lower case. Letter by letter and not by the library's comparison of words: by that its two
// wrong programs, of one letter for all and of small letters, could not be told from right ones.
fn is_name(name: &[u8], word: &[u8]) -> bool
    ensures { result ≡ same_letters word.now name.now }
{
    if word.len() != name.len() {
        return false;
    }
    for i in 0..word.len() {
        if lower(word[i]) != lower(name[i]) {
            return false;
        }
    }
    true
}

// What a word names by some names.
#[tactic(auto, using(crate::proofs::Each::named_here, crate::proofs::Each::named_end))]
fn named_by(names: &[(&[u8], u8, u8)], word: &[u8]) -> Option<Meaning>
    ensures { result ≡ named_by (entries lent names.now) word.now }
{
    for &(name, kind, number) in names {
        if is_name(name, word) {
            return Some(Meaning { kind, number });
        }
    }
    None
}

// What a word names, where it is a name.
pub fn named(word: &[u8]) -> Option<Meaning>
    ensures { result ≡ named word.now }
{
    named_by(&NAMES, word)
}

// Whether what is named is of this kind and in the set.
#[tactic(auto, using(laws::proofs::Cases::cases), unfolding(laws::specs::Logic::both))]
fn shown(its_kind: u8, number: u8, kind: u8, set: u16) -> bool
    ensures { result ≡ shown its_kind number kind set }
{
    its_kind == kind && items::in_set(set, Item(number))
}

// Those of some names that are of a kind and in a set, a blank before each.
fn put_shown(page: &mut Page<'_>, names: &[(&[u8], u8, u8)], kind: u8, set: u16)
    ensures { page.new ≡ typed page.old (names_of kind set (entries lent names.now)) }
{
    for &(name, its_kind, number) in names {
        if shown(its_kind, number, kind, set) {
            page.put_text(b" ");
            page.put_text(name);
        }
    }
}

// The names of a kind whose numbers are in a set, a blank before each.
pub fn put_names(page: &mut Page<'_>, kind: u8, set: u16)
    ensures { page.new ≡ typed page.old (names_of kind set names) }
{
    put_shown(page, &NAMES, kind, set);
}
