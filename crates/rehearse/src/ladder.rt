// The ladder: rows of what happens to the caller on the left and to the answerer on the right, and between them what is sent and heard.
ghost use Rattle.std.specs.Prelude.{◌<◌, ◌≤◌, length};

use super::line::{Line, Made, Told};
use super::text;
use super::text::Text;
use fields::{Block, Span};
use menus::Offer;
use refusals::Refusal;
use steps::Session;

// The columns: milliseconds end at 5, the ends' own stand at 7 and 86, and the middle has the 66 between 19 and 85.
const CLOCK_END: usize = 5;

const CALLER_COLUMN: usize = 7;

const BEFORE_MIDDLE: usize = 18;

const MIDDLE: usize = 19;

const ANSWERER_COLUMN: usize = 86;

// How much of a text stands in a row, with the blank before it: the rest of the middle is for an arrow.
const PIECE: usize = 63;

// The arrows, over the whole middle.
const TO_ANSWERER: &str = "----------------------------------------------------------------->";

const TO_CALLER: &str = "<-----------------------------------------------------------------";

// The heading of the ladder.
pub const HEADING: &str =
    "   ms  caller                                                                         answerer";

// What is said of a call that is not over.
pub const NOT_OVER: &str = "the call is not over after 30 seconds";

// What happens to an end: it enters a state, or something is told of what it hears.
#[derive(Clone, Copy)]
enum Event {
    Entered(u8),
    Heard(Told),
}

impl Event {
    // The word for it, in the column of the end.
    fn word(self) -> &'static str {
        match self {
            Event::Entered(state) => state_word(state),
            Event::Heard(Told::Agreed) => "agreed",
            Event::Heard(Told::Refused(_) | Told::NotAnswered(_)) => "refused",
            Event::Heard(_) => "hears",
        }
    }

    // What is sent crosses the middle.
    fn arrow(self) -> &'static str {
        match self {
            Event::Entered(state) => state_arrow(state),
            Event::Heard(_) => "",
        }
    }
}

// The word for a state. States, ends and choices are the numbers of steps, whose records C holds.
fn state_word(state: u8) -> &'static str {
    match state {
        steps::CALLER_STILL => "still",
        steps::CALLING => "calling",
        steps::QUIET => "quiet",
        steps::MENU => "menu",
        steps::CLOSING => "closing",
        steps::PAUSE => "pause",
        steps::ANSWERER_STILL => "still",
        steps::ANSWERING => "answering",
        steps::JOINT => "joint",
        steps::OVER => "over",
        _ => "",
    }
}

fn state_arrow(state: u8) -> &'static str {
    match state {
        steps::CALLING | steps::MENU | steps::CLOSING => TO_ANSWERER,
        steps::ANSWERING | steps::JOINT => TO_CALLER,
        _ => "",
    }
}

// What a menu offers; nothing where it cannot be read.
pub fn offer_in(octets: &[u8]) -> Offer {
    menus::read(octets).unwrap_or(codes::no_offer())
}

// The modes of an offer, as a set of names: the items, and behind them PCM.
fn modes_of(offer: Offer) -> u16 {
    offer.items & 0x1ffe | u16::from(offer.pcm & 7) << 13
}

// What a menu offers, behind its name.
fn put_offer(name: Text, offer: Offer) -> Text {
    let mut text = name.put_names(names::FUNCTION, 1 << (offer.function % 8));
    let modes = modes_of(offer);
    if modes != 0 {
        text = text.put_words(":").put_names(names::MODE, modes);
    }
    if offer.lapm {
        text = text.put_words(", LAPM");
    }
    if offer.access {
        text = text
            .put_words(", access")
            .put_names(names::ACCESS, u16::from(offer.access_options));
    }
    text
}

// A menu, or a CI: its name, what it offers, and its octets, set apart, where it has some.
fn menu_text(name: &str, octets: &[u8]) -> Text {
    let offered = put_offer(Text::of(name), offer_in(octets));
    if octets.is_empty() {
        return offered;
    }
    offered.put(b' ').put_octets(octets)
}

// How long the piece is that fills a row with the front of a text, with the blanks around it: up to the last blank that it has room for.
fn piece_len(rest: &[u8]) -> usize
    requires { 1 < length rest.now }
    ensures { (1 < result) × (result ≤ length rest.now) }
{
    let most = rest.len().min(PIECE + 1);
    match rest[2..most].iter().rposition(|b| *b == b' ') {
        Some(place) => place + 3,
        None => 2,
    }
}

// Milliseconds, up to the column where they end.
fn clock(now: u32) -> Text {
    let digits = Text::blank().put_number(u64::from(now)).len();
    Text::blank()
        .at(CLOCK_END.saturating_sub(digits))
        .put_number(u64::from(now))
}

// A row for an end, with a piece of a text at its side of the middle and a word in its own column.
fn put_end(row: Text, end: u8, piece: &[u8], word: &str) -> Text {
    match end {
        steps::CALLER => row
            .at(BEFORE_MIDDLE)
            .put_bytes(piece)
            .at(CALLER_COLUMN)
            .put_words(word),
        _ => row
            .at(ANSWERER_COLUMN.saturating_sub(piece.len()))
            .put_bytes(piece)
            .at(ANSWERER_COLUMN)
            .put_words(word),
    }
}

// A row: the clock, an arrow and a word for what happens to an end, which further rows have not, and a piece of the text for it.
fn row(line: &Line, event: Option<Event>, piece: &[u8]) -> Text {
    let end = line.session.end;
    match event {
        Some(event) => {
            let arrow = clock(line.now).at(MIDDLE).put_words(event.arrow());
            put_end(arrow, end, piece, event.word())
        }
        None => put_end(Text::blank(), end, piece, ""),
    }
}

// What happens to an end, with the text for it, in as many rows as it takes; with no event, further rows of the last one. A while: where a
// row begins is known from the one before.
fn tell(line: &Line, event: Option<Event>, text: Text) {
    let mut event = event;
    let mut rest = text.bytes();
    while 1 < rest.len() {
        let len = piece_len(rest);
        row(line, event, &rest[..len]).say();
        event = None;
        rest = &rest[len - 1..];
    }
}

// What both ends go on with, by its number.
fn choice_words(choice: u8) -> &'static str {
    match choice {
        0 => " no shared mode",
        1 => " item 1 (V.34 duplex)",
        2 => " item 2 (V.34 half duplex)",
        3 => " item 3 (V.32 bis)",
        4 => " item 4 (V.22 bis)",
        5 => " item 5 (V.17)",
        6 => " item 6 (V.29 half duplex)",
        7 => " item 7 (V.27 ter)",
        8 => " item 8 (V.26 ter)",
        9 => " item 9 (V.26 bis)",
        10 => " item 10 (V.23 duplex)",
        11 => " item 11 (V.23 half duplex)",
        12 => " item 12 (V.21)",
        17 => " PCM (answerer analogue)",
        18 => " PCM (answerer digital)",
        19 => " PCM (answerer analogue, answerer digital)",
        20 => " PCM (V.91)",
        21 => " PCM (answerer analogue, V.91)",
        22 => " PCM (answerer digital, V.91)",
        23 => " PCM (answerer analogue, answerer digital, V.91)",
        steps::REFUSED_WITH_11 => " a choice that is refused (11)",
        _ => "",
    }
}

// How a session ended, and what it goes on with, behind the words for that.
fn put_outcome(text: Text, goes_on: &str, session: Session) -> Text {
    match session.ended {
        steps::LEFT => text.put_words(" left"),
        steps::LATE => text.put_words(" gave up, late"),
        steps::CLEARED => text.put_words(" cleared, no mode is shared"),
        steps::NOT_OFFERED => text.put_words(" ended, the choice was not offered"),
        steps::GO_ON => text
            .put_words(goes_on)
            .put_words(choice_words(session.chosen)),
        _ => text,
    }
}

const GOES_ON: &str = " goes on with";

// A state is entered: what the end sends there, or how its session ended. Where nothing is sent, a blank keeps the row. Of calling nothing
// is told here: it begins with an on period.
pub fn entered(line: &Line) {
    let state = line.session.state;
    let text = match state {
        steps::CALLING => Text::blank(),
        steps::MENU => menu_text(" CM", line.menu.octets()),
        steps::JOINT => menu_text(" JM", line.menu.octets()),
        steps::CLOSING => Text::of(" CJ"),
        steps::ANSWERING => Text::of(" ANSam"),
        steps::OVER => put_outcome(Text::blank(), GOES_ON, line.session),
        _ => Text::of(" "),
    };
    tell(line, Some(Event::Entered(state)), text);
}

// An on period begins: the CI that is sent in it.
pub fn calls(line: &Line) {
    let octet = octets::category_octet(octets::CALL_FUNCTION, line.session.cadence.function);
    let text = menu_text(" CI", &[octet]);
    tell(line, Some(Event::Entered(steps::CALLING)), text);
}

// A choice is made, by a menu that was heard.
pub fn chosen(line: &Line, choice: u8) {
    let text = Text::of(choice_words(choice));
    tell(line, Some(Event::Heard(Told::Agreed)), text);
}

// A CM is not answered.
pub fn not_answered(line: &Line, refusal: Refusal) {
    let text = Text::of(" no JM,").put_refusal(refusal);
    tell(line, Some(Event::Heard(Told::NotAnswered(refusal))), text);
}

// A part of octets, or none where they end before it.
fn part_of(octets: &[u8], span: Span) -> &[u8] {
    if span.place <= octets.len() && span.size <= octets.len() - span.place {
        return &octets[span.place..span.place + span.size];
    }
    &[]
}

// A part that a block may have: its octets behind its name, or that it lacks it.
fn put_part(text: Text, name: &str, lacking: &str, octets: &[u8]) -> Text {
    if octets.is_empty() {
        return text.put_words(lacking);
    }
    text.put_words(name).put_octets(octets)
}

// Octets as characters, where there are some and all of them are printable.
fn put_quoted(text: Text, octets: &[u8]) -> Text {
    if octets.is_empty() || octets.iter().any(|b| text::shown(*b) != *b) {
        return text;
    }
    text.put_words(" \"").put_bytes(octets).put(b'"')
}

// A block of a field in words.
fn block_text(octets: &[u8], block: Block, number: usize) -> Text {
    let country = Text::of(" block ")
        .put_number(number as u64)
        .put_words(": country")
        .put_octets(part_of(octets, block.country));
    let provider = put_part(
        country,
        ", provider",
        ", no provider code",
        part_of(octets, block.provider),
    );
    let rest = part_of(octets, block.rest);
    put_quoted(put_part(provider, ", rest", ", no rest", rest), rest)
}

// The blocks of a field, each in rows below what was heard. There are no more of them than octets.
fn tell_blocks(line: &Line, octets: &[u8]) {
    let mut place: usize = 0;
    for before in 0..octets.len() {
        let block = fields::block_at(octets, place);
        if block.whole.size == 0 {
            return;
        }
        tell(line, None, block_text(octets, block, before + 1));
        place = place.wrapping_add(block.whole.size);
    }
}

// Why the field of a menu is refused; a menu that cannot be read is refused whole, and of its field nothing is told.
fn tell_refused(line: &Line, refusal: Refusal) {
    match refusal {
        Refusal::BadBlock => tell(line, None, Text::of(" its field is refused with 14")),
        Refusal::BadPacking => tell(line, None, Text::of(" its field is refused with 15")),
        _ => {}
    }
}

// The field of a CM that was heard.
fn tell_field(line: &Line, cm: &[u8]) {
    match Made::by(|out| fields::read_field(cm, out)) {
        Ok(field) => tell_blocks(line, field.octets()),
        Err(refusal) => tell_refused(line, refusal),
    }
}

// The name of the menu that an end hears.
fn menu_name(end: u8) -> &'static str {
    match end {
        steps::CALLER => " JM",
        _ => " CM",
    }
}

// What was heard. Below a CM that is not agreed yet stands what its field says.
pub fn heard(line: &Line, told: Told, octets: &[u8]) {
    let end = line.session.end;
    let text = match told {
        Told::Ci(_) => menu_text(" CI", octets),
        Told::Menu | Told::Agreed => menu_text(menu_name(end), octets),
        Told::Cj => Text::of(" CJ"),
        Told::Refused(refusal) | Told::NotAnswered(refusal) => {
            Text::blank().put_refusal(refusal)
        }
    };
    tell(line, Some(Event::Heard(told)), text);
    if told == Told::Menu && end == steps::ANSWERER {
        tell_field(line, octets);
    }
}

// Whether both ends ended in the same way; a choice counts where they go on with it.
fn is_alike(caller: Session, answerer: Session) -> bool {
    caller.ended == answerer.ended
        && (caller.ended < steps::GO_ON || caller.chosen == answerer.chosen)
}

// How the call ended.
pub fn ending(caller: Session, answerer: Session) -> Text {
    if is_alike(caller, answerer) {
        return put_outcome(Text::of("both ends"), " go on with", caller);
    }
    let first = put_outcome(Text::of("the ends differ: the caller"), GOES_ON, caller);
    put_outcome(first.put_words("; the answerer"), GOES_ON, answerer)
}
