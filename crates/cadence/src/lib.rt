// The cadence: CI on and off, given out bit by bit, and what is left of it once an answer is heard.
#![tactic(auto, using(laws::proofs::Cases::cases), unfolding(laws::specs::Logic::when, laws::specs::Logic::both, laws::specs::Logic::either, crate::specs::Giving::cadence_fits, crate::specs::Giving::left))]

ghost use Rattle.std.specs.Prelude.{◌≡◌, ◌+◌, ◌%◌, ◌<◌, ◌≤◌, ltb, length};
ghost use Rattle.laws.specs.Logic.{when};
ghost use Rattle.laws.specs.Front.{front};
ghost use Rattle.cadence.specs.Cadence.{is_function, is_cadence, on_bits};
ghost use Rattle.cadence.specs.Giving.{place_fits, cadence_fits, no_cadence, is_none, begun, left, remembering, due, Gives, given};
ghost use Rattle.cadence.specs.Inner.{ci_number, bit_here, bits_here};

use refusals::Refusal;

// CI sequences, then bit times of silence, again and again: how many of each, and the function that CI names. Where in this the next
// bit stands, how many bits were given out, and the tone that ended it. As numbers, since a host in C holds it in its session;
// docs/RANGES.md says what they may be.
#[repr(C)]
#[derive(Clone, Copy, PartialEq, Eq)]
pub struct Cadence {
    pub off: u16,
    pub place: u16,
    pub on: u8,
    pub function: u8,
    pub sent: u8,
    pub tone: u8,
}

// A bit time of silence in a lent buffer: no bit.
pub const SILENCE: u8 = 2;

// No tone was heard.
pub const NO_TONE: u8 = 0;

const LEAST_ON: u8 = 3;

const MOST_ON: u8 = 20;

const LEAST_OFF: u16 = 120;

const MOST_OFF: u16 = 600;

const FIRST_FUNCTION: u8 = 1;

const LAST_FUNCTION: u8 = 6;

// The tones have the numbers of their events: ANSam and ANS.
const LAST_TONE: u8 = 2;

// How many bits a CI sequence has, and how many are sent at the least: three sequences.
const SEQUENCE: u16 = 30;

const THREE_SEQUENCES: u8 = 90;

// A CI sequence as one number, its first bit lowest: ten 1s, the sync, and an octet with tag 1 in its frame; and the weight of the
// function in it.
const CI_OF_0: u32 = 539493375;

const FUNCTION_WEIGHT: u32 = 67108864;

// What giving bits out answers, and the cadence behind them.
#[derive(Clone, Copy)]
pub struct Given {
    pub cadence: Cadence,
    pub answer: Result<usize, Refusal>,
}

// A function that CI may name.
pub fn is_function(function: u8) -> bool
    ensures { result ≡ is_function function }
{
    (FIRST_FUNCTION..=LAST_FUNCTION).contains(&function)
}

// Sequences on, and bit times off.
pub fn is_cadence(on: u8, off: u16) -> bool
    ensures { result ≡ is_cadence on off }
{
    (LEAST_ON..=MOST_ON).contains(&on) && (LEAST_OFF..=MOST_OFF).contains(&off)
}

fn on_bits(on: u8) -> u16
    ensures { result ≡ on_bits on }
{
    u16::from(on) * SEQUENCE
}

// The place within its period: of the first three sequences it is as many bits as were sent.
fn place_fits(place: u16, sent: u8, end: u16) -> bool
    ensures { result ≡ place_fits place sent end }
{
    place < end && (sent == THREE_SEQUENCES || (sent < THREE_SEQUENCES && place == u16::from(sent)))
}

pub fn fits(c: Cadence) -> bool
    ensures { result ≡ cadence_fits c }
{
    is_function(c.function)
        && (is_cadence(c.on, c.off)
            && (c.tone <= LAST_TONE && place_fits(c.place, c.sent, on_bits(c.on) + c.off)))
}

// An answerer's: none.
pub fn no_cadence() -> Cadence
    ensures { result ≡ no_cadence }
{
    Cadence {
        off: 0,
        place: 0,
        on: 0,
        function: 0,
        sent: 0,
        tone: NO_TONE,
    }
}

pub fn is_none(c: Cadence) -> bool
    ensures { result ≡ is_none c }
{
    c == no_cadence()
}

// A caller's, at the start of a call.
pub fn begin(function: u8, on: u8, off: u16) -> Cadence
    ensures { result ≡ begun function on off }
{
    Cadence {
        off,
        on,
        function,
        ..no_cadence()
    }
}

// How many bits are left at ANSam or ANS: up to the third sequence's end, or to that of the sequence being sent.
pub fn bits_left(c: Cadence) -> u16
    ensures { result ≡ left c }
{
    if c.sent < THREE_SEQUENCES {
        return u16::from(THREE_SEQUENCES - c.sent);
    }
    if c.place < on_bits(c.on) {
        return (SEQUENCE - c.place % SEQUENCE) % SEQUENCE;
    }
    0
}

// The tone that ends the cadence.
pub fn remember(c: Cadence, tone: u8) -> Cadence
    ensures { result ≡ remembering c tone }
{
    Cadence { tone, ..c }
}

// How many bits come of those that are asked for.
fn bits_due(c: Cadence, asked: usize) -> usize
    ensures { result ≡ due c asked }
{
    if c.tone == NO_TONE {
        return asked;
    }
    asked.min(usize::from(bits_left(c)))
}

fn ci_number(function: u8) -> u32
    requires { function < 8 }
    ensures { result ≡ ci_number function }
{
    CI_OF_0 + FUNCTION_WEIGHT * u32::from(function)
}

fn bit_at(ci: u32, on: u16, place: u16) -> u8
    ensures { result ≡ bit_here ci on place }
{
    if place < on {
        return ((ci >> (place % SEQUENCE)) % 2) as u8;
    }
    SILENCE
}

// Behind the last place of a period comes the first of the next.
fn next_place(place: u16, end: u16) -> u16
    requires { place < end }
    ensures { result ≡ (place + 1) % end }
{
    let next = place + 1;
    if next < end { next } else { 0 }
}

// So many bits from a place on, at the front of what is lent. Answers the place behind them.
fn fill(out: &mut [u8], n: usize, ci: u32, on: u16, end: u16, from: u16) -> u16
    requires n_in_bounds { n ≤ length out.old }
    requires from_lt_end { from < end }
    ensures { (result ≡ (from + n) % end) × (out.new ≡ front (bits_here ci on end from n) out.old) }
{
    let mut place = from;
    for bit in &mut out[..n] {
        *bit = bit_at(ci, on, place);
        place = next_place(place, end);
    }
    place
}

// How many bits were sent, counted up to three sequences.
fn sent_after(sent: u8, n: usize) -> u8
    requires { sent ≤ 90 }
    ensures { result ≡ when (ltb (sent + n) 90) (sent + n) 90 }
{
    if n < usize::from(THREE_SEQUENCES - sent) {
        return sent + n as u8;
    }
    THREE_SEQUENCES
}

// The next bits of the cadence, as many as the buffer takes, or as are left behind a tone.
pub fn give(c: Cadence, out: &mut [u8]) -> Given
    ensures { Gives (given c out.old) result out.new }
{
    if fits(c) {
        let n = bits_due(c, out.len());
        let on = on_bits(c.on);
        let place = fill(out, n, ci_number(c.function), on, on + c.off, c.place);
        return Given {
            cadence: Cadence {
                place,
                sent: sent_after(c.sent, n),
                ..c
            },
            answer: Ok(n),
        };
    }
    Given {
        cadence: c,
        answer: Err(Refusal::BadRecord),
    }
}
