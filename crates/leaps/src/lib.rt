// Leaps: what many bits do to the ear, up to the first that asks for something.
//
// Most bits ask for nothing, and the framing does not have to be asked about each. Of a bit that goes by while hunting two tests
// are enough; and ten bits together, behind a 1, are known for an octet, for the end of a message or for a menu sync.
#![tactic(auto)]

ghost use Rattle.std.specs.Prelude.{ℕ, ◌<◌, ◌≤◌, ◌≡◌, true, length, drop, IfSome};
ghost use Rattle.octets.specs.declared.Kind.TheVariants.{Menu};
ghost use Rattle.sequences.specs.Line.{sync};
ghost use Rattle.framing.specs.Framing.{value, hunting, boundary};
ghost use Rattle.leaps.specs.Leaps.{advanced};
ghost use Rattle.leaps.specs.Inner.{full, reached, stands_out, Passes, Leads, TenAt, after_ten, is_stored};

use framing::{
    BOUNDARY, CJ_WORD, Ear, FRAMED_0, HUNTING, MENU_SYNC, MOST_HEARD, MOST_OCTETS, NOTHING, REPORT,
    START_MENU, STORE, TEN_ONES, TOP_BIT, TOP_TEN,
};

// The eleven bits heard last are the top eleven of the past.
const TOP_ELEVEN: u32 = 2097152;

// The ear behind the bits that were heard, what the last of them asks for, 0 where that is nothing, and where the next bit is.
#[derive(Clone, Copy)]
pub struct Advanced {
    pub ear: Ear,
    pub act: u32,
    pub at: usize,
}

// The past behind the bits that went by, and where the next one is.
#[derive(Clone, Copy)]
struct Passed {
    past: u32,
    at: usize,
}

// What follows where thirty bits or more were heard.
fn reach(past: u32, place: u32, act: u32, at: usize) -> Advanced
    ensures { result ≡ reached past place act at }
{
    Advanced {
        ear: Ear {
            past,
            heard: MOST_HEARD,
            place,
        },
        act,
        at,
    }
}

// Whether the bits heard last are CJ, or ten 1s and a 0.
#[tactic(auto, using(laws::proofs::Cases::cases), unfolding(laws::specs::Logic::either, crate::specs::Inner::stands_out, sequences::specs::Line::cj, sequences::specs::Line::framed_all, sequences::specs::Line::framed))]
fn stands_out(past: u32) -> bool
    ensures { result ≡ stands_out past }
{
    past / 4 == CJ_WORD || past / TOP_ELEVEN == TEN_ONES
}

// Passes over the bits that leave a hunting ear hunting.
fn pass_hunting(mut past: u32, bits: &[u8], from: usize) -> Passed
    requires { from ≤ length bits.now }
    ensures { Passes past bits.now from result }
{
    for (passed, &bit) in bits[from..].iter().enumerate() {
        let at = from + passed;
        if 1 < bit {
            return Passed { past, at };
        }
        let next = past / 2 + bit as u32 * TOP_BIT;
        if stands_out(next) {
            return Passed { past, at };
        }
        past = next;
    }
    Passed {
        past,
        at: bits.len(),
    }
}

// The number that the ten bytes from `from` on make, the first lowest, where they are there and are bits. They are read from the last on: when
// it was measured, hearing menus took 1.4 times as long from the first on.
fn ten_at(bits: &[u8], from: usize) -> Option<u32>
    requires { from ≤ length bits.now }
    ensures { IfSome result (TenAt bits.now from) }
{
    let ten = bits[from..].first_chunk::<10>()?;
    let mut number = 0;
    for k in (0..10).rev() {
        let bit = ten[k];
        if 1 < bit {
            return None;
        }
        number = number * 2 + bit as u32;
    }
    Some(number)
}

// The past once ten bits of this number are heard.
fn after_ten(past: u32, number: u32) -> u32
    requires { number < 1024 }
    ensures { result ≡ after_ten past number }
{
    past / 1024 + number * TOP_TEN
}

// Whether ten bits of this number, which make this past, are an octet that is stored. One that is 0 is left to the framing: it may
// end CJ.
#[tactic(auto, using(laws::proofs::Cases::cases), unfolding(laws::specs::Logic::both, crate::specs::Inner::is_stored))]
fn is_stored(number: u32, past: u32, len: u8) -> bool
    ensures { result ≡ is_stored number past len }
{
    number % 2 == 0
        && (FRAMED_0 < number && (len < MOST_OCTETS && !octets::is_bad(framing::octet_heard(past))))
}

// At an octet boundary: an octet in its frame, or the ten 1s that end a message.
fn leap_boundary(past: u32, len: u8, bits: &[u8], from: usize) -> Advanced
    requires { from ≤ length bits.now }
    ensures { Leads (full past boundary) len bits.now from result }
{
    let here = reach(past, BOUNDARY, NOTHING, from);
    if past < TOP_BIT {
        return here;
    }
    let Some(number) = ten_at(bits, from) else {
        return here;
    };
    let next = after_ten(past, number);
    if number == TEN_ONES {
        reach(next, HUNTING, REPORT, from + 10)
    } else if is_stored(number, next, len) {
        reach(next, BOUNDARY, STORE, from + 10)
    } else {
        here
    }
}

fn menu_sync_at(bits: &[u8], from: usize) -> bool
    requires { from ≤ length bits.now }
    ensures { result ≡ true → TenAt bits.now from (value (sync Menu)) }
{
    ten_at(bits, from) == Some(MENU_SYNC)
}

// While hunting: the bits that go by, and a menu sync behind them.
fn leap_hunting(past: u32, bits: &[u8], from: usize) -> Advanced
    requires { from ≤ length bits.now }
    ensures { (len : ℕ) → Leads (full past hunting) len bits.now from result }
{
    let Passed { past, at } = pass_hunting(past, bits, from);
    if past / TOP_TEN == TEN_ONES && menu_sync_at(bits, at) {
        reach(after_ten(past, MENU_SYNC), BOUNDARY, START_MENU, at + 10)
    } else {
        reach(past, HUNTING, NOTHING, at)
    }
}

// Some bits at once, or none.
fn leap(ear: Ear, len: u8, bits: &[u8], from: usize) -> Advanced
    requires { from ≤ length bits.now }
    ensures { Leads ear len bits.now from result }
{
    let full = ear.heard == MOST_HEARD;
    if full && ear.place == HUNTING {
        leap_hunting(ear.past, bits, from)
    } else if full && ear.place == BOUNDARY {
        leap_boundary(ear.past, len, bits, from)
    } else {
        Advanced {
            ear,
            act: NOTHING,
            at: from,
        }
    }
}

// Hears the bits from `from` on, up to the first that asks for something.
pub fn advance(mut ear: Ear, len: u8, bits: &[u8], from: usize) -> Advanced
    ensures { result ≡ advanced ear len (drop from bits.now) from }
{
    let mut i = from;
    // no `for`: a turn moves on by as many bits as it leaps over
    while i < bits.len() {
        let l = leap(ear, len, bits, i);
        if l.act != NOTHING {
            return l;
        }
        let Some(&bit) = bits.get(l.at) else {
            return l;
        };
        let t = framing::turn(l.ear, len, bit);
        ear = t.ear;
        i = l.at + 1;
        if t.act != NOTHING {
            return Advanced {
                ear,
                act: t.act,
                at: i,
            };
        }
    }
    Advanced {
        ear,
        act: NOTHING,
        at: i,
    }
}
