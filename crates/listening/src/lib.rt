// Listening: what is heard on a line, bit by bit. The host keeps one record for each line.
//
// The record is large and a bit touches little of it. So a bit has two parts: `turn_ear` needs the ear and four numbers, and says what
// is to be done; `act_on` does that to the messages, and `tell` says what it tells. Whoever hears a bit goes through these.
#![tactic(auto)]

ghost use Rattle.std.specs.Prelude.{◌≡◌, Ok};
ghost use Rattle.listening.specs.Record.{message_in_range, parts_in_range, in_range, empty, fresh};
ghost use Rattle.listening.specs.Hearing.{says_heard, started, stored, changed, octets_of, agreed, span_of, reported, told_alone, told, messages_after, listener_of, heard_bit, ear_turned, listened, heard_bits, Hears, HearsMany};
ghost use Rattle.listening.specs.Spans.{says_span, spanned, last_span};

use framing::{
    BAD_RECORD, Ear, HUNTING, MOST_OCTETS, REPORT, START_CI, START_MENU, STORE, TELL_CJ, Turned,
};
use refusals::Refusal;

// A message: 1 for CI, 2 for a menu, 0 for none; how many octets it has; and these.
#[repr(C)]
#[derive(Clone, Copy)]
pub struct Message {
    pub kind: u8,
    pub len: u8,
    pub octets: [u8; 64],
}

// The record of a line: the ear, the message being heard or heard last, and the message reported last.
#[repr(C)]
#[derive(Clone, Copy)]
pub struct Listener {
    pub ear: Ear,
    pub msg: Message,
    pub last: Message,
}

// What a bit reports. A message carries its span, the number of bits from the first of its sync to the one that reports it, both counted;
// behind it a menu says whether it is agreed. With that in front a record of many bits would be copied once more.
#[derive(Clone, Copy, Debug, PartialEq, Eq)]
pub enum Heard {
    Nothing,
    Ci(u16),
    Menu(u16, bool),
    Cj,
}

// The message being heard or heard last, and the message reported last.
#[derive(Clone, Copy)]
pub struct Messages {
    pub msg: Message,
    pub last: Message,
}

// A bit: the record behind it, and what it reports.
#[derive(Clone, Copy)]
pub struct BitHeard {
    pub rec: Listener,
    pub report: Result<Heard, Refusal>,
}

// Many bits: how many were taken, and what the last of them reported.
#[derive(Clone, Copy)]
pub struct BitsHeard {
    pub rec: Listener,
    pub taken: usize,
    pub report: Result<Heard, Refusal>,
}

// The kinds of a message: numbers, as C holds them in a record, which may be out of their range.
const NO_MESSAGE: u8 = 0;

const CI: u8 = 1;

const MENU: u8 = 2;

fn start(m: Message, kind: u8) -> Message
    ensures { result ≡ started m kind }
{
    Message { kind, len: 0, ..m }
}

// A message of 64 octets takes no further one: the framing refuses that. So there is nothing to test here.
fn put(m: Message, b: u8) -> Message
    ensures { result ≡ stored m b }
{
    let n = m.len % MOST_OCTETS;
    let mut next = m;
    next.octets[n as usize] = b;
    next.len = n + 1;
    next
}

// What an act does to the message being heard.
#[tactic(auto, using(laws::proofs::Cases::cases), unfolding(laws::specs::Logic::when, crate::specs::Hearing::changed))]
fn change(m: Message, act: u32, past: u32) -> Message
    ensures { result ≡ changed m act past }
{
    match act {
        START_CI => start(m, CI),
        START_MENU => start(m, MENU),
        STORE => put(m, framing::octet_heard(past)),
        _ => m,
    }
}

impl Message {
    // The octets that count; all where the record says that there are more.
    fn heard(&self) -> &[u8]
        ensures { result.now ≡ octets_of self.now }
    {
        self.octets.get(..self.len as usize).unwrap_or(&self.octets)
    }
}

// Whether a menu is agreed, where `last` was reported just before it.
#[tactic(auto, using(laws::proofs::Cases::cases), unfolding(laws::specs::Logic::both, crate::specs::Hearing::agreed))]
fn agree(m: Message, last: Message) -> bool
    ensures { result ≡ agreed m last }
{
    octets::can_read(m.heard()) && (m.kind == last.kind && octets::same(m.heard(), last.heard()))
}

// The span of a message of so many octets: ten bits for its sync, ten for each octet, and the ten 1s.
fn span_of(len: u8) -> u16
    ensures { result ≡ span_of len }
{
    20 + 10 * (len as u16)
}

#[tactic(auto, using(laws::proofs::Cases::cases), unfolding(laws::specs::Logic::when, crate::specs::Hearing::reported))]
fn report_of(m: Message, last: Message) -> Heard
    ensures { says_heard (Ok result) ≡ reported m last }
{
    let span = span_of(m.len);
    if m.kind == CI {
        Heard::Ci(span)
    } else {
        Heard::Menu(span, agree(m, last))
    }
}

// What an act tells that reports no message.
#[tactic(auto, using(laws::proofs::Cases::cases), unfolding(laws::specs::Logic::when, crate::specs::Hearing::told_alone))]
fn tell_alone(act: u32) -> Result<Heard, Refusal>
    ensures { says_heard result ≡ told_alone act }
{
    if act < REPORT {
        Ok(Heard::Nothing)
    } else if act == TELL_CJ {
        Ok(Heard::Cj)
    } else {
        Err(framing::refusal_in(act))
    }
}

// What an act tells.
#[tactic(auto, using(laws::proofs::Cases::cases), unfolding(laws::specs::Logic::when, crate::specs::Hearing::told))]
pub fn tell(act: u32, m: Message, last: Message) -> Result<Heard, Refusal>
    ensures { says_heard result ≡ told act m last }
{
    if act == REPORT {
        Ok(report_of(m, last))
    } else {
        tell_alone(act)
    }
}

#[tactic(auto, using(laws::proofs::Cases::cases), unfolding(laws::specs::Logic::both))]
fn message_fits(kind: u8, len: u8) -> bool
    ensures { result ≡ message_in_range kind len }
{
    kind <= MENU && len <= MOST_OCTETS
}

// The ranges of docs/RANGES.md, of what a bit looks at; one by one, since `turn_ear` is passed no more of a record.
#[tactic(auto, using(laws::proofs::Cases::cases), unfolding(laws::specs::Logic::both))]
fn parts_fit(ear: Ear, kind: u8, len: u8, last_kind: u8, last_len: u8) -> bool
    ensures { result ≡ parts_in_range ear kind len last_kind last_len }
{
    framing::ear_fits(ear) && (message_fits(kind, len) && message_fits(last_kind, last_len))
}

fn fits(rec: Listener) -> bool
    ensures { result ≡ in_range rec }
{
    let Listener { ear, msg, last } = rec;
    parts_fit(ear, msg.kind, msg.len, last.kind, last.len)
}

// The first part of a bit: the ear is turned, unless the record is out of its range. Most bits ask for nothing more.
#[tactic(auto, using(laws::proofs::Cases::cases), unfolding(laws::specs::Logic::when, crate::specs::Hearing::ear_turned))]
pub fn turn_ear(ear: Ear, kind: u8, len: u8, last_kind: u8, last_len: u8, bit: u8) -> Turned
    ensures { result ≡ ear_turned ear kind len last_kind last_len bit }
{
    if parts_fit(ear, kind, len, last_kind, last_len) {
        framing::turn(ear, len, bit)
    } else {
        Turned {
            ear,
            act: BAD_RECORD,
        }
    }
}

// The second part, where something is asked for: what that does to the two messages. `tell` says what it tells.
#[tactic(auto, using(crate::proofs::Acts::messages_report, crate::proofs::Acts::messages_other))]
pub fn act_on(msg: Message, last: Message, act: u32, past: u32) -> Messages
    ensures { result ≡ messages_after msg last act past }
{
    if act == REPORT {
        Messages { msg, last: msg }
    } else {
        Messages {
            msg: change(msg, act, past),
            last,
        }
    }
}

// The record with this ear and these messages.
pub fn listener_of(ear: Ear, messages: Messages) -> Listener
    ensures { result ≡ listener_of ear messages }
{
    let Messages { msg, last } = messages;
    Listener { ear, msg, last }
}

// A bit: what it reports, and the record after it.
pub fn hear(rec: Listener, bit: u8) -> BitHeard
    ensures { Hears (heard_bit rec bit) result }
{
    let Listener { ear, msg, last } = rec;
    let turned = turn_ear(ear, msg.kind, msg.len, last.kind, last.len, bit);
    let next = turned.ear;
    let after = act_on(msg, last, turned.act, next.past);
    BitHeard {
        rec: listener_of(next, after),
        report: tell(turned.act, msg, last),
    }
}

#[tactic(auto, using(laws::proofs::Cases::cases), unfolding(laws::specs::Logic::when, crate::specs::Spans::spanned))]
fn span_in(m: Message) -> Option<u16>
    ensures { says_span (Ok result) ≡ spanned m }
{
    if m.kind == NO_MESSAGE {
        None
    } else {
        Some(span_of(m.len))
    }
}

// The span of the message reported last, where there is one, for a host to which its report came as a number.
#[tactic(auto, using(laws::proofs::Cases::cases), unfolding(laws::specs::Logic::when, crate::specs::Spans::last_span))]
pub fn last_span(rec: Listener) -> Result<Option<u16>, Refusal>
    ensures { says_span result ≡ last_span rec }
{
    if fits(rec) {
        Ok(span_in(rec.last))
    } else {
        Err(Refusal::BadRecord)
    }
}

fn no_message() -> Message
    ensures { result ≡ empty }
{
    Message {
        kind: NO_MESSAGE,
        len: 0,
        octets: [0; 64],
    }
}

// A record of a line on which nothing was heard.
pub fn fresh_line() -> Listener
    ensures { result ≡ fresh }
{
    Listener {
        ear: Ear {
            past: 0,
            heard: 0,
            place: HUNTING,
        },
        msg: no_message(),
        last: no_message(),
    }
}

// Bits up to the first that reports something. The message reported last stands still meanwhile.
fn run(rec: Listener, bits: &[u8]) -> BitsHeard
    ensures { HearsMany (listened rec bits.now 0) result }
{
    let Listener {
        mut ear,
        mut msg,
        last,
    } = rec;
    let mut i = 0;
    // no `for`: a turn moves on by as many bits as ask for nothing
    while i < bits.len() {
        let a = leaps::advance(ear, msg.len, bits, i);
        ear = a.ear;
        i = a.at;
        let act = a.act;
        if act == STORE {
            // as `put` does it, but in place and before all else: an octet comes often, and the message is large
            let n = msg.len % MOST_OCTETS;
            msg.octets[n as usize] = framing::octet_heard(ear.past);
            msg.len = n + 1;
        } else if act == REPORT {
            // what `tell` would say; the compiler puts it in place only where a report stands apart
            return BitsHeard {
                rec: listener_of(ear, act_on(msg, last, act, ear.past)),
                taken: i,
                report: Ok(report_of(msg, last)),
            };
        } else if REPORT < act {
            return BitsHeard {
                rec: listener_of(ear, act_on(msg, last, act, ear.past)),
                taken: i,
                report: tell_alone(act),
            };
        } else {
            msg = change(msg, act, ear.past);
        }
    }
    BitsHeard {
        rec: Listener { ear, msg, last },
        taken: i,
        report: Ok(Heard::Nothing),
    }
}

// Many bits: hears them up to the first that reports something, and answers how many were taken.
#[tactic(auto, using(laws::proofs::Cases::cases), unfolding(laws::specs::Logic::when))]
pub fn hear_many(rec: Listener, bits: &[u8]) -> BitsHeard
    ensures { HearsMany (heard_bits rec bits.now) result }
{
    if fits(rec) {
        run(rec, bits)
    } else {
        BitsHeard {
            rec,
            taken: 0,
            report: Err(Refusal::BadRecord),
        }
    }
}
