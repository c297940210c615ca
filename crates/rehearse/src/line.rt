// An end of the call: what a host keeps for each line, and what it does with events, reports and bits. examples/line.c hands over the same
// events at the same places; its bits are laid out otherwise, with CJ right behind the copy and no 1 behind that.
ghost use Rattle.std.specs.Prelude.{◌≤◌};

use super::ladder;
use listening::{Heard, Listener};
use octets::{Kind, MOST_OCTETS};
use plans::Plan;
use refusals::Refusal;
use steps::{Answer, Session};

// How many bits an octet takes on the line.
const OCTET_BITS: usize = 10;

// Room for the bits of one copy of the longest menu, for CJ behind it, and for the 1 that is sent where there is nothing to send; where
// these stand, and where CJ ends.
const MOST_BITS: usize = 691;

const CJ_AT: usize = 660;

const LAST_OF_CJ: usize = 689;

const IDLE: usize = 690;

// The octets of a menu or of a field, in fixed memory.
#[derive(Clone, Copy)]
pub struct Made {
    octets: [u8; MOST_OCTETS],
    len: usize,
    ghost fits: { len ≤ 64 },
}

impl Made {
    // What was written into a buffer, of which no more than all is kept.
    pub fn new(octets: [u8; MOST_OCTETS], len: usize) -> Made {
        Made {
            octets,
            len: len.min(MOST_OCTETS),
        }
    }

    // What a call writes into a buffer with room for a menu, or why it writes nothing.
    pub fn by<F: FnOnce(&mut [u8]) -> Result<usize, Refusal>>(write: F) -> Result<Made, Refusal>
        requires { (out : _) → F.pre write out }
    {
        let mut octets = [0u8; MOST_OCTETS];
        let len = write(&mut octets)?;
        Ok(Made::new(octets, len))
    }

    pub fn octets(&self) -> &[u8] {
        &self.octets[..self.len]
    }
}

// What an end is told of what it hears: a CI, with its octet where it has one alone; a menu; that one is agreed; CJ; a refusal; or that no
// JM can be made for a CM.
#[derive(Clone, Copy, PartialEq, Eq)]
pub enum Told {
    Ci(Option<u8>),
    Menu,
    Agreed,
    Cj,
    Refused(Refusal),
    NotAnswered(Refusal),
}

impl Told {
    // A CI.
    fn ci(octets: &[u8]) -> Told {
        match octets {
            [octet] => Told::Ci(Some(*octet)),
            _ => Told::Ci(None),
        }
    }

    // What the next report may repeat: a menu that is not agreed is another each time, and so is a CI of several octets, or of the octet 0,
    // which no CI has.
    fn repeatable(self) -> Option<Told> {
        match self {
            Told::Menu | Told::Ci(None | Some(0)) => None,
            _ => Some(self),
        }
    }
}

// What is sent outside calling: one copy of the menu, CJ and a 1, a byte for each bit, at fixed places; how many bits the copy has; the
// place of the next bit.
#[derive(Clone, Copy)]
struct Sending {
    bits: [u8; MOST_BITS],
    len: usize,
    next: usize,
}

impl Sending {
    // Nothing to send.
    fn idle() -> Sending {
        Sending {
            bits: [1u8; MOST_BITS],
            len: 0,
            next: 0,
        }
    }

    // One copy of a menu, and CJ.
    fn of(menu: &Made) -> Sending {
        let mut sending = Sending::idle();
        let wrote = sequences::write(Kind::Menu, menu.octets(), 1, &mut sending.bits);
        sending.len = wrote.unwrap_or(0);
        let _ = sequences::write_cj(&mut sending.bits[CJ_AT..]);
        sending
    }

    // The place of the next bit in a state. The caller finishes the octet that it is sending with its stop bit (V.8, 8.1.2), the ten 1s and
    // the sync are ten bits as well, and CJ follows.
    fn place(&self, state: u8) -> usize {
        match state {
            steps::MENU | steps::JOINT => self.next,
            steps::CLOSING if self.next % OCTET_BITS == 0 => self.next.max(CJ_AT),
            steps::CLOSING => self.next,
            _ => IDLE,
        }
    }

    // The bit at a place. The next one stands behind it; behind a copy of the menu, and behind all, at the front.
    fn take(&mut self, place: usize) -> u8 {
        let behind = place.wrapping_add(1);
        self.next = if behind == self.len {
            0
        } else {
            behind % MOST_BITS
        };
        self.bits[place % MOST_BITS]
    }
}

// What a host keeps for each line: what is planned; the time of this bit; the CM or JM of this end, and what it sends of that; what the next
// report may repeat; whether this end is on the line.
#[derive(Clone, Copy)]
pub struct Line {
    plan: Plan,
    pub now: u32,
    pub session: Session,
    ear: Listener,
    pub menu: Made,
    sending: Sending,
    told: Option<Told>,
    there: bool,
}

// The choice, as an event carries it.
fn carried_choice(cm: &[u8], jm: &[u8]) -> u8 {
    codes::carried(codes::choice_code(choices::choice_of(cm, jm)))
}

// A bit that was given out, where it is none of silence.
fn sounding(bit: u8) -> Option<u8> {
    (bit != cadence::SILENCE).then_some(bit)
}

impl Line {
    // A call starts, with nothing made or heard.
    pub fn new(session: Session, plan: Plan) -> Line {
        Line {
            plan,
            now: 0,
            session,
            ear: listening::fresh_line(),
            menu: Made::new([0u8; MOST_OCTETS], 0),
            sending: Sending::idle(),
            told: None,
            there: false,
        }
    }

    // A menu that this end made. It is sent from its front, where nothing was sent before.
    pub fn set_menu(&mut self, menu: Made) {
        self.menu = menu;
        self.sending = Sending::of(&menu);
    }

    // An event. A state that is entered is told. Where none is, the session is kept too: it may remember a tone.
    fn step(&mut self, event: u8, value: u8) {
        let stepped = steps::step(self.session, event, value, self.now);
        self.session = stepped.session;
        if matches!(
            stepped.answer,
            Ok(Answer::Entered(_) | Answer::Ended(_) | Answer::GoOn(_))
        ) {
            ladder::entered(self);
        }
    }

    // An end comes on the line when its session starts, which is told.
    fn come(&mut self) {
        if !self.there && self.session.entry <= self.now {
            self.there = true;
            ladder::entered(self);
        }
    }

    // A bit time begins: a tick, and the tone that the line card hears while the other end is in a state. An end that is not on the line yet
    // gets neither.
    pub fn tick(&mut self, other: Session, now: u32) {
        self.now = now;
        self.come();
        if self.there {
            self.step(steps::TICK, 0);
            if other.state == steps::ANSWERING {
                self.step(steps::ANSAM, 0);
            }
        }
    }

    // The next bit to the line, or silence, as where this end is not on it yet.
    pub fn bit(&mut self) -> Option<u8> {
        if !self.there {
            return None;
        }
        match self.session.state {
            steps::CALLING => self.cadence_bit(),
            _ => Some(self.copy_bit()),
        }
    }

    // The next bit of the cadence, or silence. An on period is told with its first bit.
    fn cadence_bit(&mut self) -> Option<u8> {
        let mut bits = [cadence::SILENCE; 1];
        let drawn = steps::draw(self.session, &mut bits);
        let bit = sounding(bits[0]);
        if self.session.cadence.place == 0 && bit.is_some() {
            ladder::calls(self);
        }
        self.session = drawn.session;
        bit
    }

    // The next bit outside calling. A menu is sent until the state changes, CJ once.
    fn copy_bit(&mut self) -> u8 {
        let place = self.sending.place(self.session.state);
        let bit = self.sending.take(place);
        if place == LAST_OF_CJ {
            self.step(steps::CJ_SENT, 0);
        }
        bit
    }

    // What both menus let both ends go on with: it is told, and the event carries it.
    fn choose(&mut self, event: u8, choice: u8) {
        ladder::chosen(self, choice);
        self.told = Some(Told::Agreed);
        self.step(event, choice);
    }

    // A CM for which no JM can be made, as where that would be too long: the session gets no event. Not told again for the next copy.
    fn not_answered(&mut self, refusal: Refusal) {
        let told = Some(Told::NotAnswered(refusal));
        if told != self.told {
            ladder::not_answered(self, refusal);
        }
        self.told = told;
    }

    // A CM to answer with the JM for it.
    fn hear_cm(&mut self, cm: &[u8]) {
        let own = plans::record_of(self.plan, steps::ANSWERER);
        match Made::by(|out| offers::make_jm(own, cm, out)) {
            Ok(jm) => {
                self.set_menu(jm);
                self.choose(steps::AGREED_CM, carried_choice(cm, jm.octets()));
            }
            Err(refusal) => self.not_answered(refusal),
        }
    }

    // The answer to the caller's CM.
    fn hear_jm(&mut self, jm: &[u8]) {
        let choice = carried_choice(self.menu.octets(), jm);
        self.choose(steps::AGREED_JM, choice);
    }

    // A report that nothing waits for: not told where it repeats the one before.
    fn tell(&mut self, told: Told, heard: &[u8]) {
        if self.told != Some(told) {
            ladder::heard(self, told, heard);
        }
        self.told = told.repeatable();
    }

    // A menu that was heard twice: the caller's answer to its CM, or a CM to answer. Nothing waits for any other.
    fn hear_agreed(&mut self, heard: &[u8]) {
        match self.session.state {
            steps::MENU => self.hear_jm(heard),
            steps::ANSWERING => self.hear_cm(heard),
            _ => self.tell(Told::Agreed, heard),
        }
    }

    // What the listener reports, with the octets that it keeps.
    fn report(&mut self, report: Result<Heard, Refusal>, heard: &[u8]) {
        match report {
            Ok(Heard::Nothing) => {}
            Ok(Heard::Ci(_)) => self.tell(Told::ci(heard), heard),
            Ok(Heard::Menu(_, true)) => self.hear_agreed(heard),
            Ok(Heard::Menu(_, false)) => self.tell(Told::Menu, heard),
            Ok(Heard::Cj) => {
                self.tell(Told::Cj, &[]);
                self.step(steps::CJ, 0);
            }
            Err(refusal) => self.tell(Told::Refused(refusal), &[]),
        }
    }

    // A bit from the line, or silence, which the listener does not get; what it reports behind that is told anew. An end that is over hears
    // nothing: its line is in another modulation, or cleared. Nor does one that is not on the line yet.
    pub fn hear(&mut self, bit: Option<u8>) {
        if self.session.state == steps::OVER || !self.there {
            return;
        }
        match bit {
            Some(bit) => {
                let heard = listening::hear(self.ear, bit);
                self.ear = heard.rec;
                let msg = heard.rec.msg;
                let kept = Made::new(msg.octets, usize::from(msg.len));
                self.report(heard.report, kept.octets());
            }
            None => self.told = None,
        }
    }
}
