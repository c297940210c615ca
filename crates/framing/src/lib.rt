// The framing: the ear of a line, and what one bit does to it.
#![tactic(auto)]

ghost use Rattle.std.specs.Prelude.{◌≡◌, ◌<◌};
ghost use Rattle.refusals.specs.Refusals.{number};
ghost use Rattle.framing.specs.Ranges.{ear_in_range};
ghost use Rattle.framing.specs.Framing.{pushed, more, is_cj, octet_of, refusal_in, go, hunted, synced, bounded, stopped, ended, placed, turned, turned_by};

use refusals::Refusal;

// What was heard last: the newest bit on top, how many bits were heard up to 30, and where in the framing the next bit is.
#[repr(C)]
#[derive(Clone, Copy)]
pub struct Ear {
    pub past: u32,
    pub heard: u32,
    pub place: u32,
}

// The places of docs/RANGES.md: hunting; in a sync, up to its last bit; at an octet boundary; in an octet; at its stop position; and
// behind the ending 1s, up to the last of them. Numbers and no enum, as C holds them in an ear, which may be out of their range.
pub const HUNTING: u32 = 0;

const IN_SYNC: u32 = 1;

const LAST_OF_SYNC: u32 = 9;

pub const BOUNDARY: u32 = 10;

const IN_OCTET: u32 = 11;

const STOP_POSITION: u32 = 19;

const ENDING_ONES: u32 = 20;

const LAST_OF_ENDING: u32 = 28;

// What a bit asks for, its act: nothing, that a CI or a menu starts, that an octet is stored, that the message is reported, that CJ is
// told, or a refusal, 16 above its number. A number and no enum: `refusal_in`, and `act_on` and `tell` of listening, take every u32.
pub const NOTHING: u32 = 0;

pub const START_CI: u32 = 1;

pub const START_MENU: u32 = 2;

pub const STORE: u32 = 3;

pub const REPORT: u32 = 4;

pub const TELL_CJ: u32 = 5;

const NOT_A_BIT: u32 = 17;

const STOP_BIT_ZERO: u32 = 18;

const BAD_OCTET: u32 = 19;

const TOO_MANY_OCTETS: u32 = 20;

pub const BAD_RECORD: u32 = 26;

const CUT_SHORT: u32 = 29;

// How many octets a message has at most, as its record counts them.
pub const MOST_OCTETS: u8 = octets::MOST_OCTETS as u8;

// CJ is told once so many bits were heard.
pub const MOST_HEARD: u32 = 30;

// Ten bits of the line as a number, the first lowest: ten 1s, the syncs, and the octet 0 in its frame.
pub const TEN_ONES: u32 = 1023;

const CI_SYNC: u32 = 512;

pub const MENU_SYNC: u32 = 960;

pub const FRAMED_0: u32 = 512;

// CJ: the octet 0 three times.
pub const CJ_WORD: u32 = FRAMED_0 + FRAMED_0 * 1024 + FRAMED_0 * 1048576;

// The bit heard last is the top one of the past, the ten bits heard last are its top ten, and below the last one stands an octet.
pub const TOP_BIT: u32 = 2147483648;

pub const TOP_TEN: u32 = 4194304;

const TOP_NINE: u32 = 8388608;

// The next place in the framing, and the act.
#[derive(Clone, Copy)]
struct Placed {
    place: u32,
    act: u32,
}

// The ear once it is turned, and the act.
#[derive(Clone, Copy)]
pub struct Turned {
    pub ear: Ear,
    pub act: u32,
}

// The ranges of docs/RANGES.md, of the ear.
#[tactic(auto, using(laws::proofs::Cases::cases), unfolding(laws::specs::Logic::both))]
pub fn ear_fits(ear: Ear) -> bool
    ensures { result ≡ ear_in_range ear }
{
    ear.heard <= MOST_HEARD && ear.place <= LAST_OF_ENDING
}

// The refusal that an act above those of the messages is.
#[tactic(auto, using(laws::proofs::Cases::cases), unfolding(laws::specs::Logic::when, crate::specs::Framing::refusal_in))]
pub fn refusal_in(act: u32) -> Refusal
    ensures { number result ≡ refusal_in act }
{
    match act {
        NOT_A_BIT => Refusal::NotABit,
        STOP_BIT_ZERO => Refusal::StopBitZero,
        BAD_OCTET => Refusal::BadOctet,
        TOO_MANY_OCTETS => Refusal::TooManyOctets,
        BAD_RECORD => Refusal::BadRecord,
        _ => Refusal::CutShort,
    }
}

fn push(past: u32, bit: u8) -> u32
    requires { bit < 2 }
    ensures { result ≡ pushed past bit }
{
    past / 2 + bit as u32 * TOP_BIT
}

#[tactic(auto, using(laws::proofs::Cases::cases), unfolding(laws::specs::Logic::when, crate::specs::Framing::more))]
fn one_more(heard: u32) -> u32
    ensures { result ≡ more heard }
{
    if heard < MOST_HEARD { heard + 1 } else { heard }
}

#[tactic(auto, using(laws::proofs::Cases::cases), unfolding(laws::specs::Logic::both, crate::specs::Framing::is_cj, sequences::specs::Line::cj, sequences::specs::Line::framed_all, sequences::specs::Line::framed))]
fn ends_cj(past: u32, heard: u32) -> bool
    ensures { result ≡ is_cj past heard }
{
    past / 4 == CJ_WORD && heard == MOST_HEARD
}

// The octet whose stop bit is heard last.
pub fn octet_heard(past: u32) -> u8
    ensures { result ≡ octet_of past }
{
    (past / TOP_NINE % 256) as u8
}

fn go_to(place: u32, act: u32) -> Placed
    ensures { result ≡ go place act }
{
    Placed { place, act }
}

#[tactic(auto, using(laws::proofs::Cases::cases), unfolding(laws::specs::Logic::when, laws::specs::Logic::both, crate::specs::Framing::hunted))]
fn hunt(before: u32, bit: u8) -> u32
    ensures { result ≡ hunted before bit }
{
    if bit == 0 && before / TOP_TEN == TEN_ONES {
        IN_SYNC
    } else {
        HUNTING
    }
}

#[tactic(auto, using(laws::proofs::Cases::cases), unfolding(laws::specs::Logic::when, crate::specs::Framing::synced))]
fn end_sync(past: u32) -> Placed
    ensures { result ≡ synced past }
{
    match past / TOP_TEN {
        CI_SYNC => go_to(BOUNDARY, START_CI),
        MENU_SYNC => go_to(BOUNDARY, START_MENU),
        _ => go_to(HUNTING, NOTHING),
    }
}

#[tactic(auto, using(laws::proofs::Cases::cases), unfolding(laws::specs::Logic::when, crate::specs::Framing::bounded))]
fn at_boundary(bit: u8) -> Placed
    ensures { result ≡ bounded bit }
{
    if bit == 0 {
        go_to(IN_OCTET, NOTHING)
    } else {
        go_to(ENDING_ONES, NOTHING)
    }
}

#[tactic(auto, using(laws::proofs::Cases::cases), unfolding(laws::specs::Logic::when, laws::specs::Logic::both, crate::specs::Framing::stopped))]
fn at_stop(past: u32, len: u8, bit: u8) -> Placed
    ensures { result ≡ stopped past len bit }
{
    if bit == 0 {
        go_to(HUNTING, STOP_BIT_ZERO)
    } else if octets::is_bad(octet_heard(past)) {
        go_to(HUNTING, BAD_OCTET)
    } else if len == MOST_OCTETS {
        go_to(HUNTING, TOO_MANY_OCTETS)
    } else {
        go_to(BOUNDARY, STORE)
    }
}

#[tactic(auto, using(laws::proofs::Cases::cases), unfolding(laws::specs::Logic::when, crate::specs::Framing::ended))]
fn at_end(place: u32, before: u32, bit: u8) -> Placed
    ensures { result ≡ ended place before bit }
{
    if bit == 0 {
        go_to(hunt(before, bit), CUT_SHORT)
    } else if place < LAST_OF_ENDING {
        go_to(place + 1, NOTHING)
    } else {
        go_to(HUNTING, REPORT)
    }
}

#[tactic(auto, using(laws::proofs::Cases::cases), unfolding(laws::specs::Logic::when, crate::specs::Framing::placed))]
fn place_bit(place: u32, before: u32, past: u32, len: u8, bit: u8) -> Placed
    ensures { result ≡ placed place before past len bit }
{
    // no `match`: it becomes a table, and a bit takes longer to find its place in that than by these tests
    if place == HUNTING {
        go_to(hunt(before, bit), NOTHING)
    } else if place < LAST_OF_SYNC {
        go_to(place + 1, NOTHING)
    } else if place == LAST_OF_SYNC {
        end_sync(past)
    } else if place == BOUNDARY {
        at_boundary(bit)
    } else if place < STOP_POSITION {
        go_to(place + 1, NOTHING)
    } else if place == STOP_POSITION {
        at_stop(past, len, bit)
    } else {
        at_end(place, before, bit)
    }
}

#[tactic(auto, using(laws::proofs::Cases::cases), unfolding(laws::specs::Logic::when, crate::specs::Framing::turned))]
fn turn_on(ear: Ear, len: u8, bit: u8) -> Turned
    requires { bit < 2 }
    ensures { result ≡ turned ear len bit }
{
    let past = push(ear.past, bit);
    let heard = one_more(ear.heard);
    let Placed { place, act } = if ends_cj(past, heard) {
        go_to(HUNTING, TELL_CJ)
    } else {
        place_bit(ear.place, ear.past, past, len, bit)
    };
    Turned {
        ear: Ear { past, heard, place },
        act,
    }
}

// A bit turns the ear and says what is to be done; a byte that is no bit is refused and turns nothing.
#[tactic(auto, using(laws::proofs::Cases::cases), unfolding(laws::specs::Logic::when))]
pub fn turn(ear: Ear, len: u8, bit: u8) -> Turned
    ensures { result ≡ turned_by ear len bit }
{
    if 1 < bit {
        Turned {
            ear,
            act: NOT_A_BIT,
        }
    } else {
        turn_on(ear, len, bit)
    }
}
