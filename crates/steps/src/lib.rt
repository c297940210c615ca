// Steps: the session of an end, how it starts, what an event changes in it, and the bits that a caller gives out.
//
// One constant table, by state and event, is the rule. A step tests the session, the event and the clock, and looks up the row.
#![tactic(auto, using(laws::proofs::Cases::cases), unfolding(laws::specs::Logic::when, laws::specs::Logic::both, laws::specs::Logic::either, crate::specs::Session::in_range, crate::specs::Stepping::elapsed, crate::specs::Stepping::timed, crate::specs::Stepping::stepped_in, crate::specs::Drawing::drawn))]

ghost use Rattle.std.specs.Prelude.{◌≡◌};
ghost use Rattle.laws.specs.Logic.{both};
ghost use Rattle.refusals.specs.Refusals.{number};
ghost use Rattle.cadence.specs.Cadence.{is_function};
ghost use Rattle.steps.specs.Table.{condition_number, rows};
ghost use Rattle.steps.specs.Session.{between, is_item, is_choice, is_te, end_fits, of_end, state_fits, early, choice_fits, ended_fits, beginning, cadence_of, in_range, caller_from, answerer_from, default_te, says_started, started_caller};
ghost use Rattle.steps.specs.Inner.{what_holds, find_held};
ghost use Rattle.steps.specs.Stepping.{says_answered, Steps, elapsed, owns, carries, is_sent, row_fits, find_row, chosen_after, renewed, ended_as, answer_of, entering, row_taken, with_cadence, remembered, moved, refused_step, timed, stepped_in, stepped};
ghost use Rattle.steps.specs.Drawing.{Draws, drawn};

use cadence::Cadence;
use refusals::Refusal;

// What an end keeps of its call, as numbers, since a host in C holds it; docs/RANGES.md says what they may be. The time of the
// start or of the last change of state, Te, the cadence of CI, which end this is, its state, the choice, and how the session ended.
#[repr(C)]
#[derive(Clone, Copy)]
pub struct Session {
    pub entry: u32,
    pub te: u32,
    pub cadence: Cadence,
    pub end: u8,
    pub state: u8,
    pub chosen: u8,
    pub ended: u8,
}

// The ends. They, states, endings and events are numbers: C holds them in its session or passes them, and may pass any.
pub const CALLER: u8 = 1;

pub const ANSWERER: u8 = 2;

// The states of both ends, in the order of document 01's table.
pub const CALLER_STILL: u8 = 1;

pub const CALLING: u8 = 2;

pub const QUIET: u8 = 3;

pub const MENU: u8 = 4;

pub const CLOSING: u8 = 5;

pub const PAUSE: u8 = 6;

pub const ANSWERER_STILL: u8 = 7;

pub const ANSWERING: u8 = 8;

pub const JOINT: u8 = 9;

pub const OVER: u8 = 10;

// How a session ended. In a row GO_ON means as chosen, or left where nothing is.
pub const GOING: u8 = 0;

pub const LEFT: u8 = 1;

pub const LATE: u8 = 2;

pub const CLEARED: u8 = 3;

pub const NOT_OFFERED: u8 = 4;

pub const GO_ON: u8 = 5;

// The caller's events, the answerer's, and the tick, which is for both.
pub const ANSAM: u8 = 1;

pub const ANS: u8 = 2;

pub const SIG_A: u8 = 3;

pub const AGREED_JM: u8 = 4;

pub const CJ_SENT: u8 = 5;

pub const AGREED_CM: u8 = 6;

pub const SIG_C: u8 = 7;

pub const CJ: u8 = 8;

pub const TICK: u8 = 9;

// What an agreed JM carries whose choice was refused with 11: no choice is as high.
pub const REFUSED_WITH_11: u8 = 24;

// What a row asks for besides its state, its event and elapsed time.
#[derive(Clone, Copy)]
enum Condition {
    Always,
    TeElapsed,
    NoneChosen,
    JmRefused,
    ChosenItem,
    // No tone was heard, and nothing is left to send of the cadence; no tone was heard; ANSam or ANS was heard, and nothing is left.
    NothingLeft,
    NoTone,
    BehindAnsam,
    BehindAns,
}

impl Condition {
    fn number(self) -> usize
        ensures { result ≡ condition_number self }
    {
        match self {
            Condition::Always => 0,
            Condition::TeElapsed => 1,
            Condition::NoneChosen => 2,
            Condition::JmRefused => 3,
            Condition::ChosenItem => 4,
            Condition::NothingLeft => 5,
            Condition::NoTone => 6,
            Condition::BehindAnsam => 7,
            Condition::BehindAns => 8,
        }
    }
}

// Where a row leads to: the next state, and how the session ended. One that leads to its own state remembers its event, a tone.
#[derive(Clone, Copy)]
struct To(u8, u8);

// In this state, at this event, with so many milliseconds elapsed, where this condition holds. What it leads to stands first: the
// compiler then has no need to keep the table in memory (docs/SPEED.md).
#[derive(Clone, Copy)]
struct Row {
    to: To,
    state: u8,
    event: u8,
    least: u32,
    condition: Condition,
}

// Document 01's table. The first row that applies counts, so an exception stands before the row that it is taken from.
const ROWS: [Row; 23] = [
    // elapsed 1,000: calling
    Row {
        state: CALLER_STILL,
        event: TICK,
        least: 1000,
        condition: Condition::Always,
        to: To(CALLING, GOING),
    },
    // ANSam: quiet. ANS or sigA: over, left. Where CI is left to send, ANSam or ANS is remembered, and a tick behind its last bit
    // makes the change
    Row {
        state: CALLING,
        event: ANSAM,
        least: 0,
        condition: Condition::NothingLeft,
        to: To(QUIET, GOING),
    },
    Row {
        state: CALLING,
        event: ANSAM,
        least: 0,
        condition: Condition::NoTone,
        to: To(CALLING, GOING),
    },
    Row {
        state: CALLING,
        event: ANS,
        least: 0,
        condition: Condition::NothingLeft,
        to: To(OVER, LEFT),
    },
    Row {
        state: CALLING,
        event: ANS,
        least: 0,
        condition: Condition::NoTone,
        to: To(CALLING, GOING),
    },
    Row {
        state: CALLING,
        event: TICK,
        least: 0,
        condition: Condition::BehindAnsam,
        to: To(QUIET, GOING),
    },
    Row {
        state: CALLING,
        event: TICK,
        least: 0,
        condition: Condition::BehindAns,
        to: To(OVER, LEFT),
    },
    Row {
        state: CALLING,
        event: SIG_A,
        least: 0,
        condition: Condition::Always,
        to: To(OVER, LEFT),
    },
    // elapsed Te: menu (sends CM)
    Row {
        state: QUIET,
        event: TICK,
        least: 0,
        condition: Condition::TeElapsed,
        to: To(MENU, GOING),
    },
    // agreed JM: closing (sends CJ); where the choice is refused with 11: over, not offered. Elapsed 10,000: over, late
    Row {
        state: MENU,
        event: AGREED_JM,
        least: 0,
        condition: Condition::JmRefused,
        to: To(OVER, NOT_OFFERED),
    },
    Row {
        state: MENU,
        event: AGREED_JM,
        least: 0,
        condition: Condition::Always,
        to: To(CLOSING, GOING),
    },
    Row {
        state: MENU,
        event: TICK,
        least: 10000,
        condition: Condition::Always,
        to: To(OVER, LATE),
    },
    // CJ sent: pause; choice none: over, cleared
    Row {
        state: CLOSING,
        event: CJ_SENT,
        least: 0,
        condition: Condition::NoneChosen,
        to: To(OVER, CLEARED),
    },
    Row {
        state: CLOSING,
        event: CJ_SENT,
        least: 0,
        condition: Condition::Always,
        to: To(PAUSE, GOING),
    },
    // elapsed 75: over, go on as chosen or left
    Row {
        state: PAUSE,
        event: TICK,
        least: 75,
        condition: Condition::Always,
        to: To(OVER, GO_ON),
    },
    // elapsed 200: answering (sends ANSam)
    Row {
        state: ANSWERER_STILL,
        event: TICK,
        least: 200,
        condition: Condition::Always,
        to: To(ANSWERING, GOING),
    },
    // agreed CM: joint (sends JM). sigC, or elapsed 5,000: pause, then left
    Row {
        state: ANSWERING,
        event: AGREED_CM,
        least: 0,
        condition: Condition::Always,
        to: To(JOINT, GOING),
    },
    Row {
        state: ANSWERING,
        event: SIG_C,
        least: 0,
        condition: Condition::Always,
        to: To(PAUSE, GOING),
    },
    Row {
        state: ANSWERING,
        event: TICK,
        least: 5000,
        condition: Condition::Always,
        to: To(PAUSE, GOING),
    },
    // CJ: pause, choice none: over, cleared. sigC of the chosen item: pause. Elapsed 10,000: over, late
    Row {
        state: JOINT,
        event: CJ,
        least: 0,
        condition: Condition::NoneChosen,
        to: To(OVER, CLEARED),
    },
    Row {
        state: JOINT,
        event: CJ,
        least: 0,
        condition: Condition::Always,
        to: To(PAUSE, GOING),
    },
    Row {
        state: JOINT,
        event: SIG_C,
        least: 0,
        condition: Condition::ChosenItem,
        to: To(PAUSE, GOING),
    },
    Row {
        state: JOINT,
        event: TICK,
        least: 10000,
        condition: Condition::Always,
        to: To(OVER, LATE),
    },
];

// The choice none, the items, and the PCM options, which are held above 16: numbers, as C holds them in its session.
const NONE: u8 = 0;

const FIRST_ITEM: u8 = 1;

const LAST_ITEM: u8 = 12;

const FIRST_PCM: u8 = 17;

const LAST_PCM: u8 = 23;

// Te, and Te without a value.
const LEAST_TE: u32 = 500;

const MOST_TE: u32 = 5000;

pub const DEFAULT_TE: u32 = 1000;

// Half the range of the clock: a time that is as far away lies before.
const HALF_RANGE: u32 = 2147483648;

// What an event that is not refused is answered: nothing changed, a state was entered, or the session ended in this way or goes on
// with this choice.
#[derive(Clone, Copy)]
pub enum Answer {
    Same,
    Entered(u8),
    Ended(u8),
    GoOn(u8),
}

#[derive(Clone, Copy)]
pub struct Stepped {
    pub session: Session,
    pub answer: Result<Answer, Refusal>,
}

// What asking for bits leaves: the session, and how many bits came.
#[derive(Clone, Copy)]
pub struct Drawn {
    pub session: Session,
    pub answer: Result<usize, Refusal>,
}

fn is_between(low: u8, high: u8, n: u8) -> bool
    ensures { result ≡ between low high n }
{
    (low..=high).contains(&n)
}

fn is_item(value: u8) -> bool
    ensures { result ≡ is_item value }
{
    is_between(FIRST_ITEM, LAST_ITEM, value)
}

// A choice as a number.
fn is_choice(value: u8) -> bool
    ensures { result ≡ is_choice value }
{
    value == NONE || (is_item(value) || is_between(FIRST_PCM, LAST_PCM, value))
}

// Te within its range.
pub fn is_te(te: u32) -> bool
    ensures { result ≡ is_te te }
{
    (LEAST_TE..=MOST_TE).contains(&te)
}

// Which end this is, and its Te; the answerer has none.
fn end_fits(end: u8, te: u32) -> bool
    ensures { result ≡ end_fits end te }
{
    if end == CALLER {
        return is_te(te);
    }
    end == ANSWERER && te == 0
}

// A number from low to high at the caller, and from least to most at the answerer.
fn is_of_end(end: u8, low: u8, high: u8, least: u8, most: u8, n: u8) -> bool
    ensures { result ≡ of_end end low high least most n }
{
    if end == CALLER {
        return is_between(low, high, n);
    }
    is_between(least, most, n)
}

fn state_fits(end: u8, state: u8) -> bool
    ensures { result ≡ state_fits end state }
{
    state == OVER || is_of_end(end, CALLER_STILL, PAUSE, PAUSE, JOINT, state)
}

// A state before a menu is agreed.
fn is_early(state: u8) -> bool
    ensures { result ≡ early state }
{
    state < CLOSING || is_between(ANSWERER_STILL, ANSWERING, state)
}

fn choice_fits(state: u8, none: bool) -> bool
    ensures { result ≡ choice_fits state none }
{
    if is_early(state) {
        return none;
    }
    true
}

fn ended_fits(state: u8, none: bool, ended: u8) -> bool
    ensures { result ≡ ended_fits state none ended }
{
    if state == OVER {
        if ended == GO_ON {
            return !none;
        }
        return is_between(LEFT, NOT_OFFERED, ended);
    }
    ended == GOING
}

// In the caller's first state nothing was sent and no tone was heard.
fn begins(state: u8, sent: u8, tone: u8) -> bool
    ensures { result ≡ beginning state sent tone }
{
    if state == CALLER_STILL {
        return sent == 0 && tone == cadence::NO_TONE;
    }
    true
}

// The cadence is the caller's.
fn cadence_fits(end: u8, state: u8, c: Cadence) -> bool
    ensures { result ≡ cadence_of end state c }
{
    if end == CALLER {
        return cadence::fits(c) && begins(state, c.sent, c.tone);
    }
    cadence::is_none(c)
}

fn in_range(session: Session) -> bool
    ensures { result ≡ in_range session }
{
    let state = session.state;
    let none = session.chosen == NONE;
    end_fits(session.end, session.te)
        && (state_fits(session.end, state)
            && (is_choice(session.chosen)
                && (choice_fits(state, none)
                    && (ended_fits(state, none, session.ended)
                        && cadence_fits(session.end, state, session.cadence)))))
}

fn caller_from(start: u32, te: u32, cadence: Cadence) -> Session
    ensures { result ≡ caller_from start te cadence }
{
    Session {
        entry: start,
        te,
        cadence,
        end: CALLER,
        state: CALLER_STILL,
        chosen: NONE,
        ended: GOING,
    }
}

// Te, and a function that CI may name.
fn may_call(te: u32, function: u8) -> bool
    ensures { result ≡ both (is_te te) (is_function function) }
{
    is_te(te) && cadence::is_function(function)
}

// A caller's start with a given Te: the function that CI names, its sequences on, and its bit times off.
pub fn start_caller(start: u32, te: u32, function: u8, on: u8, off: u16) -> Result<Session, Refusal>
    ensures { says_started result ≡ started_caller start te function on off }
{
    if may_call(te, function) {
        if cadence::is_cadence(on, off) {
            return Ok(caller_from(start, te, cadence::begin(function, on, off)));
        }
        return Err(Refusal::BadCadence);
    }
    Err(Refusal::BadRecord)
}

// A caller's start without a value for Te.
pub fn start_caller_default(start: u32, function: u8, on: u8, off: u16) -> Result<Session, Refusal>
    ensures { says_started result ≡ started_caller start default_te function on off }
{
    start_caller(start, DEFAULT_TE, function, on, off)
}

pub fn start_answerer(start: u32) -> Session
    ensures { result ≡ answerer_from start }
{
    Session {
        entry: start,
        te: 0,
        cadence: cadence::no_cadence(),
        end: ANSWERER,
        state: ANSWERER_STILL,
        chosen: NONE,
        ended: GOING,
    }
}

// The clock wraps, and so does the difference.
fn since(now: u32, entry: u32) -> u32
    ensures { result ≡ elapsed now entry }
{
    now.wrapping_sub(entry)
}

// An event, what it carries, and its time.
#[derive(Clone, Copy)]
struct Event {
    kind: u8,
    value: u8,
    now: u32,
}

impl Event {
    fn is_own(self, end: u8) -> bool
        ensures { result ≡ owns end self.kind }
    {
        self.kind == TICK || is_of_end(end, ANSAM, CJ_SENT, AGREED_CM, CJ, self.kind)
    }

    // Whether it may carry its value. Events that carry nothing have no value to be tested.
    fn may_carry(self) -> bool
        ensures { result ≡ carries self.kind self.value }
    {
        match self.kind {
            AGREED_JM => self.value == REFUSED_WITH_11 || is_choice(self.value),
            AGREED_CM => is_choice(self.value),
            SIG_C => is_item(self.value),
            _ => true,
        }
    }

    // One of this end, with a value that it may carry.
    fn may_take(self, end: u8) -> bool
        ensures { result ≡ both (owns end self.kind) (carries self.kind self.value) }
    {
        self.is_own(end) && self.may_carry()
    }

    // The choice once it is taken: an agreed menu brings one.
    fn choice_after(self, chosen: u8) -> u8
        ensures { result ≡ chosen_after self.kind self.value chosen }
    {
        match self.kind {
            AGREED_JM if self.value == REFUSED_WITH_11 => NONE,
            AGREED_JM | AGREED_CM => self.value,
            _ => chosen,
        }
    }
}

// This tone was heard, or with NO_TONE none, and nothing is left to send.
fn is_sent(tone: u8, c: Cadence) -> bool
    ensures { result ≡ is_sent tone c }
{
    c.tone == tone && cadence::bits_left(c) == 0
}

// What each condition comes to, by its number. It is found before rows are looked at: with a method that tests the session for each row
// a step takes a fifth longer, and with one that picks a field of a struct twice as long (docs/SPEED.md).
fn what_holds(session: Session, value: u8, passed: u32) -> [bool; 9]
    ensures { result ≡ what_holds session value passed }
{
    let c = session.cadence;
    [
        true,
        session.te <= passed,
        session.chosen == NONE,
        value == REFUSED_WITH_11,
        value == session.chosen,
        is_sent(cadence::NO_TONE, c),
        c.tone == cadence::NO_TONE,
        is_sent(ANSAM, c),
        is_sent(ANS, c),
    ]
}

fn row_applies(row: Row, state: u8, event: u8, passed: u32, holding: bool) -> bool
    ensures { result ≡ row_fits row state event passed holding }
{
    row.state == state && (row.event == event && (row.least <= passed && holding))
}

// What the first row that applies leads to.
fn find_in(part: &[Row], state: u8, event: u8, passed: u32, holding: [bool; 9]) -> Option<To>
    ensures { result ≡ find_held state event passed holding part.now }
{
    for row in part {
        if row_applies(*row, state, event, passed, holding[row.condition.number()]) {
            return Some(row.to);
        }
    }
    None
}

// The table is looked at in two parts, since the compiler unrolls a search of 21 rows at the most (docs/SPEED.md).
fn find_row(session: Session, event: Event, passed: u32) -> Option<To>
    ensures { result ≡ find_row session event.kind event.value passed rows }
{
    let table = ROWS;
    let holding = what_holds(session, event.value, passed);
    match find_in(&table[..12], session.state, event.kind, passed, holding) {
        Some(to) => Some(to),
        None => find_in(&table[12..], session.state, event.kind, passed, holding),
    }
}

// The session at a change of state: the time of the event is the entry time.
fn renew(session: Session, event: Event) -> Session
    ensures { result ≡ renewed session event.kind event.value event.now }
{
    Session {
        entry: event.now,
        chosen: event.choice_after(session.chosen),
        ..session
    }
}

// Going on without a choice is leaving.
fn ending_of(ended: u8, chosen: u8) -> u8
    ensures { result ≡ ended_as ended chosen }
{
    if ended == GO_ON {
        if chosen == NONE {
            return LEFT;
        }
        return GO_ON;
    }
    ended
}

fn answer_of(state: u8, ended: u8, chosen: u8) -> Answer
    ensures { says_answered result ≡ answer_of state ended chosen }
{
    if state == OVER {
        if ended == GO_ON {
            return Answer::GoOn(chosen);
        }
        return Answer::Ended(ended);
    }
    Answer::Entered(state)
}

fn enter(session: Session, state: u8, ended: u8) -> Stepped
    ensures { Steps (entering session state ended) result }
{
    Stepped {
        session: Session {
            state,
            ended,
            ..session
        },
        answer: Ok(answer_of(state, ended, session.chosen)),
    }
}

fn take_row(session: Session, to: To) -> Stepped
    ensures { Steps (row_taken session to) result }
{
    enter(session, to.0, ending_of(to.1, session.chosen))
}

fn with_cadence(session: Session, cadence: Cadence) -> Session
    ensures { result ≡ with_cadence session cadence }
{
    Session { cadence, ..session }
}

// A row that leads to its own state: the tone is remembered, and all else stays.
fn remember(session: Session, event: u8) -> Stepped
    ensures { Steps (remembered session event) result }
{
    Stepped {
        session: with_cadence(session, cadence::remember(session.cadence, event)),
        answer: Ok(Answer::Same),
    }
}

// The row that applies is taken; where none does, nothing changes.
fn step_on(session: Session, event: Event, passed: u32) -> Stepped
    ensures { Steps (moved session event.kind event.value event.now (find_row session event.kind event.value passed rows)) result }
{
    let Some(to) = find_row(session, event, passed) else {
        return Stepped {
            session,
            answer: Ok(Answer::Same),
        };
    };
    if to.0 == session.state {
        return remember(session, event.kind);
    }
    take_row(renew(session, event), to)
}

fn refuse_step(session: Session, refusal: Refusal) -> Stepped
    ensures { Steps (refused_step (number refusal) session) result }
{
    Stepped {
        session,
        answer: Err(refusal),
    }
}

// An event that this end may take.
fn step_timed(session: Session, event: Event) -> Stepped
    ensures { Steps (timed session event.kind event.value event.now) result }
{
    let passed = since(event.now, session.entry);
    if passed < HALF_RANGE {
        return step_on(session, event, passed);
    }
    refuse_step(session, Refusal::Clock)
}

// A session in range.
fn step_in(session: Session, event: Event) -> Stepped
    ensures { Steps (stepped_in session event.kind event.value event.now) result }
{
    if session.state == OVER {
        return refuse_step(session, Refusal::AfterOver);
    }
    if event.may_take(session.end) {
        return step_timed(session, event);
    }
    refuse_step(session, Refusal::WrongEvent)
}

// An event, what it carries, and its time. A choice is carried as the session holds it, REFUSED_WITH_11 by an agreed JM alone; sigC
// carries an item. Other events carry nothing, and their value is not looked at. A number that is no event is no event of this end.
pub fn step(session: Session, event: u8, value: u8, now: u32) -> Stepped
    ensures { Steps (stepped session event value now) result }
{
    if in_range(session) {
        return step_in(
            session,
            Event {
                kind: event,
                value,
                now,
            },
        );
    }
    refuse_step(session, Refusal::BadRecord)
}

// The next bits that a caller gives out, as many as the buffer takes, or as are left behind ANSam or ANS; in calling alone.
pub fn draw(session: Session, out: &mut [u8]) -> Drawn
    ensures { Draws (drawn session out.old) result out.new }
{
    if in_range(session) {
        if session.state == CALLING {
            let given = cadence::give(session.cadence, out);
            return Drawn {
                session: with_cadence(session, given.cadence),
                answer: given.answer,
            };
        }
        return Drawn {
            session,
            answer: Ok(0),
        };
    }
    Drawn {
        session,
        answer: Err(Refusal::BadRecord),
    }
}
