// Rehearses a call: reads a call text, runs both ends over a line of 300 bit/s, and prints the plan as it was understood and a ladder
// of the call: when each end enters which state, what it sends and hears, with CI once for each on period, and what it goes on with. What
// is wrong with a text, with its blocks or with a CM that it gives is told in one line, and nothing is rehearsed; where there is no text,
// what one looks like.
#![tactic(auto)]

mod help;
mod ladder;
mod line;
mod text;

ghost use Rattle.std.specs.Prelude.{◌≡◌, ◌<◌, length};

use line::{Line, Made};
use octets::{Kind, MOST_OCTETS, Purpose};
use plans::{Mistake, Plan};
use printing::Page;
use refusals::Refusal;
use steps::Session;
use text::Text;

// The number of standard input.
const STDIN: i32 = 0;

// Room for a text, and for a plan: the longest, every bit damaged, takes less, so what is printed can be read.
const ROOM: usize = 131072;

// How long a call is rehearsed, in bits.
const BIT_TIMES: u32 = plans::BIT_TIMES as u32;

// How many bytes of a word are shown.
const MOST_SHOWN: usize = 40;

// Room for a CM that is given: one octet more than a menu has, so that of a longer one too many are kept.
const MOST_GIVEN: usize = MOST_OCTETS + 1;

// The function data.
const DATA: u8 = 6;

// How many bits both ends send.
const LINE_BITS: usize = 2 * plans::BIT_TIMES;

// Room, with a promise of its length: where a large array is made, its length takes long to prove.
fn room() -> [u8; ROOM]
    ensures { 131072 ≡ length result }
{
    [b' '; ROOM]
}

// No damaged bit.
fn undamaged() -> [u8; LINE_BITS]
    ensures { 18000 ≡ length result }
{
    [0u8; LINE_BITS]
}

// A bit as it arrives: inverted where it is damaged. Silence is no bit, and damage changes nothing of it.
fn arriving(bit: Option<u8>, damaged: &[u8], place: usize) -> Option<u8> {
    let bit = bit?;
    let damage = damaged.get(place).copied().unwrap_or(0);
    Some(bit ^ damage)
}

// Both ends of the line.
#[derive(Clone, Copy)]
struct Ends {
    caller: Line,
    answerer: Line,
}

impl Ends {
    // One bit time: each end sends a bit, and hears that of the other.
    fn bit_time(&mut self, damaged: &[u8], time: u32)
        requires { time < 9000 }
    {
        let now = time * 10 / 3;
        let caller = self.caller.session;
        let answerer = self.answerer.session;
        self.caller.tick(answerer, now);
        let calling = self.caller.bit();
        self.answerer.tick(caller, now);
        let answering = self.answerer.bit();
        let there = arriving(calling, damaged, plans::bit_place(steps::CALLER, time));
        let back = arriving(answering, damaged, plans::bit_place(steps::ANSWERER, time));
        self.caller.hear(back);
        self.answerer.hear(there);
    }

    fn is_over(&self) -> bool {
        self.caller.session.state == steps::OVER && self.answerer.session.state == steps::OVER
    }

    // Runs the call until both ends are over, or the time is.
    fn run(&mut self, damaged: &[u8]) {
        for time in 0..BIT_TIMES {
            self.bit_time(damaged, time);
            if self.is_over() {
                return;
            }
        }
    }

    // How the call ended.
    fn ending(&self) -> Text {
        if self.is_over() {
            return ladder::ending(self.caller.session, self.answerer.session);
        }
        Text::of(ladder::NOT_OVER)
    }
}

// When the answerer comes on the line: it is still before it answers.
fn comes(plan: Plan) -> u32 {
    u32::from(plan.answers).wrapping_sub(plans::FIRST_ANSWER)
}

// The ladder of a call, and how it ended.
fn put_ladder(plan: Plan, first: Session, cm: Made, damaged: &[u8]) {
    Text::of(ladder::HEADING).say();
    let mut ends = Ends {
        caller: Line::new(first, plan),
        answerer: Line::new(steps::start_answerer(comes(plan)), plan),
    };
    ends.caller.set_menu(cm);
    ends.run(damaged);
    ends.ending().say();
}

// The plan as it was understood.
fn put_plan(plan: Plan, cm: &[u8], blocks: &[u8], damaged: &[u8]) {
    let mut text = room();
    let mut page = Page {
        out: &mut text,
        at: 0,
    };
    plans::put_plan(&mut page, plan, cm, blocks, damaged);
    let len = page.at.min(ROOM);
    io::write_all(text::STDOUT, &text[..len]);
}

// The function that CI names: that of CM, or data where a stranger's CM calls for none of the six.
fn called(cm: &[u8]) -> u8 {
    let offer = ladder::offer_in(cm);
    if cadence::is_function(offer.function) {
        return offer.function;
    }
    DATA
}

// The ladder of a plan: it has a Te and a cadence that a caller starts with.
fn put_started(plan: Plan, cm: Made, damaged: &[u8]) {
    let function = called(cm.octets());
    let started = steps::start_caller(0, u32::from(plan.te), function, plan.on, plan.off);
    if let Ok(first) = started {
        put_ladder(plan, first, cm, damaged);
    }
}

// The plan, and the ladder of its call with this CM.
fn put_call(text: &[u8], plan: Plan, blocks: &[u8], cm: Made) {
    let mut damaged = undamaged();
    plans::mark(text, &mut damaged);
    put_plan(plan, cm.octets(), blocks, &damaged);
    Text::blank().say();
    put_started(plan, cm, &damaged);
}

// Why there is no CM for a plan: its blocks do not fit, or its octets are no blocks.
fn unmade(refusal: Refusal) -> &'static str {
    match refusal {
        Refusal::TooManyOctets => "the blocks do not fit into a CM of 64 octets",
        _ => {
            "the octets are not blocks: a block is longer than what remains, or a code does not fit in it"
        }
    }
}

// The call of a caller that is known, where CM can be made with its blocks.
fn call_known(text: &[u8], plan: Plan, blocks: &[u8]) {
    let own = plans::record_of(plan, steps::CALLER);
    match Made::by(|out| offers::make_cm(own, plan.function, blocks, out)) {
        Ok(cm) => put_call(text, plan, blocks, cm),
        Err(refusal) => Text::of(unmade(refusal)).say(),
    }
}

// The octets of blocks or of a CM that a text gives, as far as a menu has room for them.
fn given(text: &[u8], whose: u8) -> Made {
    let mut octets = [0u8; MOST_OCTETS];
    let count = plans::put_octets_of(text, whose, &mut octets);
    Made::new(octets, count)
}

// Why the CM that a text gives cannot be sent.
fn unsent(refusal: Refusal) -> Text {
    Text::of("the CM that is given cannot be sent,").put_refusal(refusal)
}

// The call of a stranger, where the CM that the text gives can be sent.
fn call_given(text: &[u8], plan: Plan) {
    let mut octets = [0u8; MOST_GIVEN];
    let count = plans::put_octets_of(text, plans::OF_CM, &mut octets);
    let cm = &octets[..count.min(MOST_GIVEN)];
    match octets::test(Purpose::Writing(Kind::Menu), cm) {
        Ok(()) => put_call(text, plan, &[], given(text, plans::OF_CM)),
        Err(refusal) => unsent(refusal).say(),
    }
}

// A plan: its call. A menu has room for fewer octets of blocks than are kept here, so what is cut off changes nothing.
fn call(text: &[u8], plan: Plan) {
    let kept = given(text, plans::OF_BLOCKS);
    let blocks = kept.octets();
    if plan.function != plans::STRANGER {
        call_known(text, plan, blocks);
    } else if blocks.is_empty() {
        call_given(text, plan);
    } else {
        Text::of("a CM that is sent as it is takes no blocks").say();
    }
}

// Where a mistake stands in its line: at a word, which is cut off where it is long, or at the end.
fn put_place(text: Text, word: &[u8]) -> Text {
    if word.is_empty() {
        return text.put_words(", at its end: ");
    }
    text.put_words(", '")
        .put_shown(&word[..word.len().min(MOST_SHOWN)])
        .put_words("': ")
}

// Where a mistake stands in a text.
fn place(text: &[u8], at: usize) -> Text {
    let number = 1 + plans::lines_before(text, at) as u64;
    put_place(
        Text::of("line ").put_number(number),
        plans::word_at(text, at),
    )
}

// A mistake; a text that lacks a line has no place for it.
fn mistake_text(text: &[u8], mistake: Mistake) -> Text {
    let before = match mistake.what {
        plans::NO_CALLER | plans::NO_ANSWERER | plans::NO_CALL => Text::blank(),
        _ => place(text, mistake.at),
    };
    help::put_mistake(before, mistake.what)
}

// A text: its call, or the first mistake in it.
fn rehearse(text: &[u8]) {
    match plans::read(text) {
        Ok(plan) => call(text, plan),
        Err(mistake) => mistake_text(text, mistake).say(),
    }
}

fn answer(text: &[u8]) {
    match text.len() {
        0 => help::say(),
        ROOM.. => Text::of("the text is longer than 131071 bytes").say(),
        _ => rehearse(text),
    }
}

fn main() {
    let mut text = room();
    let n = io::read_full(STDIN, &mut text);
    answer(&text[..n]);
}
