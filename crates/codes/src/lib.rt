// Codes: the answers of the library as the numbers that cross to C, and the numbers that C passes as what they ask for.
#![tactic(auto)]

ghost use Rattle.std.specs.Prelude.{◌≡◌, ◌%◌, ◌^◌, pos, neg_ℤ};
ghost use Rattle.refusals.specs.Refusals.{number};
ghost use Rattle.listening.specs.Hearing as hearing;
ghost use Rattle.listening.specs.Spans as spans;
ghost use Rattle.choices.specs.Choosing.{says_choice};
ghost use Rattle.steps.specs.Stepping as stepping;
ghost use Rattle.refusals.specs.Lent.{says_wrote};
ghost use Rattle.menus.specs.Groups as groups;
ghost use Rattle.codes.specs.Writing.{kind_of, write_code, cut_said};
ghost use Rattle.codes.specs.Hearing.{told_code, span_code, act_coded};
ghost use Rattle.codes.specs.Reading.{looked_code, cut_looked, no_offer};
ghost use Rattle.codes.specs.Choosing.{choice_code, source_code};
ghost use Rattle.codes.specs.Inner.{report_code, length_code, place_code, mode_code};
ghost use Rattle.codes.specs.Steps.{no_session, step_code, carried_of};

use choices::Choice;
use items::Item;
use listening::{Heard, Listener};
use menus::Offer;
use octets::Kind;
use offers::Source;
use refusals::Refusal;
use steps::{Answer, Session};

// Numbers that C gets or passes (include/tailsprig.h). A tag that is nowhere: no place is as high.
const NOWHERE: i32 = 64;

// No choice is as high.
const PAST_CHOICES: i32 = 24;

// What an event carries where it may carry nothing.
const NOTHING_CARRIED: u8 = 255;

// A refusal n is told as -n.
pub fn refusal_code(r: Refusal) -> i32
    ensures { result ≡ neg_ℤ (pos (number r)) }
{
    -i32::from(u8::from(r))
}

// How many there are, as far as an i32 holds that; what is counted here is shown to be less.
fn count_code(n: usize) -> i32
    ensures { result ≡ pos (n % 2 ^ 31) }
{
    (n % 2147483648) as i32
}

// How many were written, or why nothing was.
pub fn wrote_code(w: Result<usize, Refusal>) -> i32
    ensures { result ≡ write_code (cut_said (says_wrote w)) }
{
    w.map_or_else(refusal_code, count_code)
}

// 1 for CI, 2 for a menu.
#[tactic(auto, using(laws::proofs::Cases::cases), unfolding(laws::specs::Logic::when))]
pub fn kind_of(kind: u8) -> Option<Kind>
    ensures { result ≡ kind_of kind }
{
    match kind {
        1 => Some(Kind::Ci),
        2 => Some(Kind::Menu),
        _ => None,
    }
}

fn report_code(h: Heard) -> i32
    ensures { result ≡ report_code h }
{
    match h {
        Heard::Nothing => 0,
        Heard::Ci(_) => 1,
        Heard::Menu(_, false) => 2,
        Heard::Menu(_, true) => 3,
        Heard::Cj => 4,
    }
}

// What was heard.
pub fn heard_code(h: Result<Heard, Refusal>) -> i32
    ensures { result ≡ told_code (hearing.says_heard h) }
{
    h.map_or_else(refusal_code, report_code)
}

// A span as it is; no message has one of 0.
fn length_code(span: Option<u16>) -> i32
    ensures { result ≡ length_code span }
{
    span.map_or(0, i32::from)
}

// The span of the message reported last.
pub fn span_code(span: Result<Option<u16>, Refusal>) -> i32
    ensures { result ≡ span_code (spans.says_span span) }
{
    span.map_or_else(refusal_code, length_code)
}

// The second part of a bit: the record behind it, and its report as a number.
#[derive(Clone, Copy)]
pub struct Acted {
    pub rec: Listener,
    pub code: i32,
}

pub fn act_code(rec: Listener, act: u32) -> Acted
    ensures { result ≡ act_coded rec act }
{
    // Field by field: taken apart by one pattern the record is copied whole, by a memcpy, which the library has none of.
    let ear = rec.ear;
    let msg = rec.msg;
    let last = rec.last;
    let report = listening::tell(act, msg, last);
    Acted {
        rec: listening::listener_of(ear, listening::act_on(msg, last, act, ear.past)),
        code: heard_code(report),
    }
}

// A place, 64 for nowhere.
fn place_code(place: Option<usize>) -> i32
    ensures { result ≡ place_code place }
{
    place.map_or(NOWHERE, count_code)
}

// Where a tag stands.
pub fn found_code(f: Result<Option<usize>, Refusal>) -> i32
    ensures { result ≡ looked_code (cut_looked (groups.says_found f)) }
{
    f.map_or_else(refusal_code, place_code)
}

// What stands beside a menu's refusal.
pub fn no_offer() -> Offer
    ensures { result ≡ no_offer }
{
    Offer {
        function: 0,
        items: 0,
        pcm: 0,
        lapm: false,
        access: false,
        access_options: 0,
    }
}

// In which menu a call function octet stands.
pub fn source_code(source: Source) -> u8
    ensures { result ≡ source_code source }
{
    match source {
        Source::Neither => 0,
        Source::Heard => 1,
        Source::Own => 2,
    }
}

// An item is below 16, PCM options are above.
fn mode_code(choice: Choice) -> i32
    ensures { result ≡ mode_code choice }
{
    match choice {
        Choice::Nothing => 0,
        Choice::Mode(Item(item)) => i32::from(item),
        Choice::Pcm(options) => 16 + i32::from(options),
    }
}

// What both ends go on with.
pub fn choice_code(choice: Result<Choice, Refusal>) -> i32
    ensures { result ≡ choice_code (says_choice choice) }
{
    choice.map_or_else(refusal_code, mode_code)
}

// What stands beside a refused start.
pub fn no_session() -> Session
    ensures { result ≡ no_session }
{
    Session {
        entry: 0,
        te: 0,
        cadence: cadence::no_cadence(),
        end: 0,
        state: 0,
        chosen: 0,
        ended: 0,
    }
}

// A state is below 16, the ways to end are above, choices to go on with from 32 on.
fn taken_code(answer: Answer) -> i32
    ensures { result ≡ step_code (stepping.says_answered answer) }
{
    match answer {
        Answer::Same => 0,
        Answer::Entered(state) => i32::from(state),
        Answer::Ended(how) => 16 + i32::from(how),
        Answer::GoOn(choice) => 32 + i32::from(choice),
    }
}

// The answer to a step.
pub fn step_code(answer: Result<Answer, Refusal>) -> i32
    ensures { result ≡ step_code (stepping.says_answer answer) }
{
    answer.map_or_else(refusal_code, taken_code)
}

// What an event carries, from the code of a choice or an item: 255 for a number that no event may carry.
pub fn carried(value: i32) -> u8
    ensures { result ≡ carried_of value }
{
    // One test behind the other: of a signed number, the arms of a match were tried, and a proof has no facts of theirs to cite.
    if value == -11 {
        return steps::REFUSED_WITH_11;
    }
    if value < 0 {
        return NOTHING_CARRIED;
    }
    if value < PAST_CHOICES {
        return value as u8;
    }
    NOTHING_CARRIED
}
