// Plans: a call text as people write it, read into a plan of the call or the first mistake in it, and a plan in its plain form.
//
//     caller    data V.34 V.32bis V.22bis V.21, wants LAPM
//     answerer  data V.32bis V.22bis V.26ter
//     call      data
//     Te        500
//     cadence   5 450
//     answers   4000
//     blocks    05 B5 01 41 31 30
//     damaged   caller 485 609
//
// Of a stranger, whose record nobody knows, the caller's line gives CM as it is, and no function is called:
//
//     caller    sends C1 45
//
// Words stand apart by blanks, tabs and commas, in upper or lower case; # begins a comment. The lines may come in any order.
#![tactic(auto, using(laws::proofs::Cases::cases, printing::proofs::Pages::typed_joined, crate::proofs::Numbers::decimal_typed), unfolding(laws::specs::Logic::when, laws::specs::Logic::both, laws::specs::Logic::either, printing::specs::Page::typed, names::specs::Bytes::bytes, crate::specs::Inner::lacking, crate::specs::Text::octet, crate::specs::Plain::function_text, crate::specs::Plain::called_text, crate::specs::Plain::caller_text, crate::specs::Plain::damage_text, crate::specs::Plain::plain, crate::specs::Reading::number_word, crate::specs::Reading::say, crate::specs::Reading::lacks_call, crate::specs::Reading::planning, crate::specs::Reading::cadenced, crate::specs::Reading::answering, crate::specs::Reading::part_word, crate::specs::Reading::is_said, crate::specs::Reading::read_word, crate::specs::Reading::record_of, crate::specs::Reading::record_mistake, crate::specs::Reading::with_home, crate::specs::Reading::finish_end, crate::specs::Reading::finish_line, crate::specs::Reading::missing, crate::specs::Reading::scan_after))]

ghost use Rattle.std.specs.Prelude.{Some, ◌≡◌, ◌+◌, ◌-◌, ◌%◌, ◌<◌, ◌≤◌, List, [], ◌++◌, length, take, drop, set, ◌==◌, slice_index};
ghost use Rattle.laws.specs.Logic.{when, both};
ghost use Rattle.laws.specs.Front.{front};
ghost use Rattle.printing.specs.Page.{typed};
ghost use Rattle.plans.specs.Text.{ends_word, word_length, with_digit, number, hex_value, octet, lines_before, word_at};
ghost use Rattle.plans.specs.Reading.{mistaken, going, place, set_at, store, added, say, first_of, is_said, begin_named, behind_name, lacks_call, planning, cadenced, answering, all_said, nothing_yet, part_word, name_word, is_on, is_answer, at_number, at_octets, number_word, listed, one_of, read_word, modes_of, record_of, record_mistake, with_home, finish_end, finish_line, between, scan_after, begins_word, read_byte, fresh, finished, read_text, bit_place, marked_bit, marked, octet_at, octets_in, call_not_had, default_on, default_off, default_answer};
ghost use Rattle.plans.specs.Plain.{function_text, functions_text, wants_text, end_text, entry_front, octets_text, bits_text, damage_text, decimal, caller_text, called_text, head_text, cadence_text, answers_text, plain};
ghost use Rattle.plans.specs.Inner.{told_text, lacking};
ghost use Rattle.cadence.specs.Cadence.{is_cadence};
ghost use Rattle.steps.specs.Session.{default_te};

use items::Item;
use names::Meaning;
use printing::Page;
use records::{Modes, Record};

// How long a call is rehearsed, in bits of 300 a second: 30 seconds.
pub const BIT_TIMES: usize = 9000;

// What may come next in a text: the beginning of a line, or within an end's line, behind `home`, behind `wants`, behind `call`, behind
// `Te`, behind `damaged`, the first bit and further bits, the end of the line. The same numbers say what is missing where it does not
// come. They are numbers and no enum, so that what does not come is the mistake of its own number, by which a program finds the text for it.
pub const BEGIN: u8 = 1;

pub const IN_END: u8 = 2;

pub const AFTER_HOME: u8 = 3;

pub const AFTER_WANTS: u8 = 4;

pub const AFTER_CALL: u8 = 5;

pub const AFTER_TE: u8 = 6;

pub const AFTER_DAMAGED: u8 = 7;

pub const FIRST_BIT: u8 = 8;

pub const BITS: u8 = 9;

pub const DONE: u8 = 10;

// Other mistakes: what is said already; a mode before a function; an end without a function; a home function that the end has not; PCM
// of an analogue or a digital modem without V.34; no caller, no answerer, no call in the whole text; a call with a function that the
// caller has not.
pub const TWICE: u8 = 11;

pub const MODE_FIRST: u8 = 12;

pub const NO_FUNCTION: u8 = 13;

pub const HOME_NOT_HAD: u8 = 14;

pub const PCM_ALONE: u8 = 15;

pub const NO_CALLER: u8 = 16;

pub const NO_ANSWERER: u8 = 17;

pub const NO_CALL: u8 = 18;

pub const CALL_NOT_HAD: u8 = 19;

// Behind `blocks` and `sends`: the first octet and further octets, as what may come next and as what is missing.
pub const FIRST_OCTET: u8 = 20;

pub const OCTETS: u8 = 21;

// The mistake that a CM is given, and something else is said of the caller or of the call.
pub const SENDS_ALONE: u8 = 22;

// Behind `cadence`: how many sequences an on period has, and behind that how many bit times an off period has.
pub const AFTER_CADENCE: u8 = 23;

pub const AFTER_ON: u8 = 24;

// Behind `answers`: when the answerer does.
pub const AFTER_ANSWERS: u8 = 25;

// The number of the names behind which octets stand, of the line for blocks and of the part for a CM: names have numbers below 16.
const OCTETS_BEHIND: u8 = 8;

// The number of the name behind which a cadence stands.
const CADENCE_BEHIND: u8 = 9;

// The number of the name behind which the time of the answer stands.
const ANSWERS_BEHIND: u8 = 10;

// In place of a function: the caller's record is not known, and the text gives its CM.
pub const STRANGER: u8 = 7;

// Whose octets a text gives: those of blocks stand in lines that are about no end, those of a CM in the line of the caller.
pub const OF_BLOCKS: u8 = 0;

pub const OF_CM: u8 = steps::CALLER;

// How many sets an end has.
const SETS: u8 = 8;

// Where the home function stands among the sets of an end.
const HOME: u8 = 7;

const LINE_FEED: u8 = 10;

const COMMENT: u8 = b'#';

// The characters of ASCII that stand ten before A and ten before a.
const TEN_BEFORE_A: u8 = 55;

const TEN_BEFORE_SMALL_A: u8 = 87;

// Te of a start without a value.
const DEFAULT_TE: u16 = steps::DEFAULT_TE as u16;

// The cadence of a text that gives none: sequences on, half a second, and bit times off, one and a half.
const DEFAULT_ON: u16 = 5;

const DEFAULT_OFF: u16 = 450;

// When ANSam begins, in milliseconds: 200 where the answerer is on the line from the first on; and at the latest, so that a rehearsal has time
// for the call.
pub const FIRST_ANSWER: u32 = 200;

const LAST_ANSWER: u32 = 20000;

const DEFAULT_ANSWER: u16 = FIRST_ANSWER as u16;

// How many bits both ends have in a rehearsal.
const BITS_OF_BOTH: usize = 2 * BIT_TIMES;

// How many damaged bits or octets the plain form has in a line.
const ENTRIES_A_LINE: usize = 16;

// A call: what is said of both ends, the function of the caller or STRANGER, Te, how many sequences CI is on and bit times off, and when the
// answerer answers. Of each end there are eight sets, the caller's first: what it wants and what its line is; each function's modes, with 0
// in the set where the end has it; and last, as a number, its home function. What is not said is 0: the theorems of specs/Good.antt tell it so.
#[derive(Clone, Copy)]
pub struct Plan {
    pub sets: [u16; 16],
    pub function: u8,
    pub te: u16,
    pub on: u8,
    pub off: u16,
    pub answers: u16,
}

// The first mistake of a text, by its number, and its place.
#[derive(Clone, Copy, Debug, PartialEq, Eq)]
pub struct Mistake {
    pub what: u8,
    pub at: usize,
}

// A text, read up to a byte: what is planned; of its line the end that it is about, the last function that it names, to which modes belong,
// and the first, each 0 where there is none, which no name has as its number; what may come next; and a mistake, where one is made.
#[derive(Clone, Copy)]
struct Reading {
    plan: Plan,
    end: u8,
    function: u8,
    first: u8,
    context: u8,
    what: Option<u8>,
}

// Where a byte stands: between words, in a word, in a comment.
#[derive(Clone, Copy)]
enum Scan {
    Between,
    InWord,
    InComment,
}

// A text, read up to a byte: what it says, and where that byte stands.
#[derive(Clone, Copy)]
struct Spot {
    r: Reading,
    scan: Scan,
}

// Where the byte behind a byte stands, outside comments.
fn after_byte(b: u8) -> Scan
    ensures { result ≡ scan_after between b }
{
    match b {
        b' ' | b'\t' | b'\r' | b',' => Scan::Between,
        LINE_FEED => Scan::Between,
        COMMENT => Scan::InComment,
        _ => Scan::InWord,
    }
}

// The same behind a byte that may stand in a comment, which a line feed ends.
fn scan_after(scan: Scan, b: u8) -> Scan
    ensures { result ≡ scan_after scan b }
{
    if b == LINE_FEED {
        return Scan::Between;
    }
    match scan {
        Scan::InComment => Scan::InComment,
        Scan::Between | Scan::InWord => after_byte(b),
    }
}

// Whether a byte stands in no word.
fn ends_word(b: u8) -> bool
    ensures { result ≡ ends_word b }
{
    match after_byte(b) {
        Scan::InWord => false,
        Scan::Between | Scan::InComment => true,
    }
}

// Whether a byte begins a word.
fn begins_word(scan: Scan, b: u8) -> bool
    ensures { result ≡ begins_word scan b }
{
    match scan {
        Scan::Between => !ends_word(b),
        Scan::InWord | Scan::InComment => false,
    }
}

// How long the word at the front of a text is. A loop and no `take_while`: by that the wrong program that takes one byte more could not be told
// from a right one.
fn word_length(text: &[u8]) -> usize
    ensures { (result ≡ word_length text.now) × (result ≤ length text.now) }
{
    for (i, b) in text.iter().enumerate() {
        if ends_word(*b) {
            return i;
        }
    }
    text.len()
}

// The word at a place, of the text itself; empty where there is none.
pub fn word_at(text: &[u8], at: usize) -> &[u8]
    ensures { result.now ≡ word_at text.now at }
{
    let from = at.min(text.len());
    let rest = &text[from..];
    &rest[..word_length(rest)]
}

// A number with one digit more, below 100,000.
#[tactic(auto, using(laws::proofs::Cases::cases), unfolding(laws::specs::Logic::when))]
fn with_digit(n: u32, next: u8) -> Option<u32>
    ensures { result ≡ with_digit n next }
{
    match next {
        b'0'..=b'9' if n <= 9999 => Some(10 * n + (next - b'0') as u32),
        _ => None,
    }
}

// A decimal number below 100,000.
fn number(word: &[u8]) -> Option<u32>
    ensures { result ≡ number word.now }
{
    let mut n: u32 = 0;
    for &b in word {
        n = with_digit(n, b)?;
    }
    Some(n)
}

// The value of a hexadecimal digit, in upper or lower case.
#[tactic(auto, using(laws::proofs::Cases::cases), unfolding(laws::specs::Logic::when, crate::specs::Text::hex_value))]
fn hex_value(digit: u8) -> Option<u8>
    ensures { result ≡ hex_value digit }
{
    match digit {
        b'0'..=b'9' => Some(digit - b'0'),
        b'A'..=b'F' => Some(digit - TEN_BEFORE_A),
        b'a'..=b'f' => Some(digit - TEN_BEFORE_SMALL_A),
        _ => None,
    }
}

// An octet, in two hexadecimal digits.
fn octet(word: &[u8]) -> Option<u8>
    ensures { result ≡ octet word.now }
{
    if word.len() != 2 {
        return None;
    }
    let high = hex_value(word[0])?;
    let low = hex_value(word[1])?;
    Some(16 * high + low)
}

// Where one of the eight sets of an end stands.
fn place(end: u8, k: u8) -> usize
    ensures { (result ≡ place end k) × (result < 16) }
{
    if end == steps::CALLER {
        return (k % 8) as usize;
    }
    8 + (k % 8) as usize
}

fn set_at(plan: Plan, end: u8, k: u8) -> u16
    ensures { result ≡ set_at plan end k }
{
    plan.sets[place(end, k)]
}

// What may come next.
fn going(r: Reading, context: u8) -> Reading
    ensures { result ≡ going r context }
{
    Reading { context, ..r }
}

// A mistake.
fn mistaken(r: Reading, what: u8) -> Reading
    ensures { result ≡ mistaken r what }
{
    Reading {
        what: Some(what),
        ..r
    }
}

// The line's end with one of its sets anew; modes behind it belong to `function`, and `first` is the first function that the line names.
fn store(r: Reading, k: u8, set: u16, function: u8, first: u8) -> Reading
    ensures { result ≡ store r k set function first }
{
    let mut plan = r.plan;
    plan.sets[place(r.end, k)] = set;
    Reading {
        plan,
        function,
        first,
        context: IN_END,
        ..r
    }
}

// A set with one number more; none above 15 is in a set.
fn added(set: u16, n: u8) -> u16
    ensures { result ≡ added set n }
{
    if n < 16 {
        return std::num::wrapping_add_u16(set, 1 << n);
    }
    set
}

// A number is said of a function, or at 0 of the end, and not twice.
fn say(r: Reading, k: u8, n: u8, function: u8, first: u8) -> Reading
    ensures { result ≡ say r k n function first }
{
    let set = set_at(r.plan, r.end, k);
    if items::in_set(set, Item(n)) {
        return mistaken(r, TWICE);
    }
    store(r, k, added(set, n), function, first)
}

// The first of two functions that is one.
fn first_of(first: u8, function: u8) -> u8
    ensures { result ≡ first_of first function }
{
    if first == 0 {
        return function;
    }
    first
}

// Whether a line with this name stands in the text already, which only those for damaged bits and for blocks may.
fn is_said(plan: Plan, number: u8) -> bool
    ensures { result ≡ is_said plan number }
{
    match number {
        AFTER_CALL => 0 < plan.function,
        AFTER_TE => 0 < plan.te,
        AFTER_DAMAGED => false,
        OCTETS_BEHIND => false,
        CADENCE_BEHIND => 0 < plan.on,
        ANSWERS_BEHIND => 0 < plan.answers,
        steps::CALLER => plan.function == STRANGER || 0 < set_at(plan, number, HOME),
        _ => 0 < set_at(plan, number, HOME),
    }
}

// A line that is about an end, or about none, by the number of its name.
fn begin_named(r: Reading, name: u8, end: u8, context: u8) -> Reading
    ensures { result ≡ begin_named r name end context }
{
    if is_said(r.plan, name) {
        return mistaken(r, TWICE);
    }
    Reading {
        end,
        function: 0,
        first: 0,
        context,
        ..r
    }
}

// What may come next behind the name of a line that is about no end.
fn behind_name(name: u8) -> u8
    ensures { result ≡ behind_name name }
{
    match name {
        OCTETS_BEHIND => FIRST_OCTET,
        CADENCE_BEHIND => AFTER_CADENCE,
        ANSWERS_BEHIND => AFTER_ANSWERS,
        _ => name,
    }
}

// The mistake that the caller is known, and the function called, and the caller has not that function; or what it was.
fn call_mistake(plan: Plan, what: Option<u8>) -> Option<u8>
    ensures { result ≡ when (lacks_call plan) (Some call_not_had) what }
{
    if set_at(plan, steps::CALLER, HOME) == 0 {
        return what;
    }
    if plan.function == 0 {
        return what;
    }
    if set_at(plan, steps::CALLER, plan.function) % 2 == 0 {
        return Some(CALL_NOT_HAD);
    }
    what
}

// A call with this function and Te, and what may come next; or the mistake that it cannot be made.
fn planning(r: Reading, function: u8, te: u16, context: u8) -> Reading
    ensures { result ≡ planning r function te context }
{
    let plan = Plan {
        function,
        te,
        ..r.plan
    };
    Reading {
        plan,
        context,
        what: call_mistake(plan, r.what),
        ..r
    }
}

// A cadence, as far as it is said, and what may come next.
fn cadenced(r: Reading, on: u8, off: u16, context: u8) -> Reading
    ensures { result ≡ cadenced r on off context }
{
    let plan = Plan { on, off, ..r.plan };
    Reading { plan, context, ..r }
}

// When the answerer answers, and what may come next.
fn answering(r: Reading, answers: u16, context: u8) -> Reading
    ensures { result ≡ answering r answers context }
{
    let plan = Plan { answers, ..r.plan };
    Reading { plan, context, ..r }
}

// Whether nothing is said of an end.
fn nothing_said(plan: Plan, end: u8) -> bool
    ensures { result ≡ (all_said plan end == 0) }
{
    (0..SETS).all(|k| set_at(plan, end, k) == 0)
}

// Whether the line is that of the caller, of which nothing is said yet, and no function is called.
fn nothing_yet(r: Reading) -> bool
    ensures { result ≡ nothing_yet r }
{
    r.end == steps::CALLER && (nothing_said(r.plan, steps::CALLER) && r.plan.function == 0)
}

// A part of an end's line: what may come next has the number of its name. A CM that is given stands alone.
fn part_word(r: Reading, part: u8) -> Reading
    ensures { result ≡ part_word r part }
{
    if part != OCTETS_BEHIND {
        return going(r, part);
    }
    if nothing_yet(r) {
        return planning(r, STRANGER, r.plan.te, FIRST_OCTET);
    }
    mistaken(r, SENDS_ALONE)
}

// A word that names something: what may come next and the kind of what it names decide.
#[tactic(auto, using(laws::proofs::Cases::cases), unfolding(laws::specs::Logic::when, laws::specs::Logic::both, laws::specs::Logic::either, crate::specs::Reading::name_word, crate::specs::Reading::end_word, crate::specs::Reading::first_word, crate::specs::Reading::function_word, crate::specs::Reading::name_function, crate::specs::Reading::name_home, crate::specs::Reading::name_mode, crate::specs::Reading::is_said))]
fn name_word(r: Reading, m: Meaning) -> Reading
    ensures { result ≡ name_word r m }
{
    let n = m.number;
    match (r.context, m.kind) {
        (IN_END, names::FUNCTION) => say(r, n, 0, n, first_of(r.first, n)),
        (IN_END, names::MODE | names::OTHER_MODE) => {
            if r.function == 0 {
                return mistaken(r, MODE_FIRST);
            }
            say(r, r.function, n, r.function, r.first)
        }
        (IN_END, names::QUALITY) => say(r, 0, n, 0, r.first),
        (IN_END, names::PART) => part_word(r, n),
        (BEGIN, names::END) => begin_named(r, n, n, IN_END),
        (BEGIN, names::LINE) => begin_named(r, n, 0, behind_name(n)),
        (AFTER_HOME, names::FUNCTION) => {
            if 0 < set_at(r.plan, r.end, HOME) {
                return mistaken(r, TWICE);
            }
            store(r, HOME, n as u16, 0, r.first)
        }
        (AFTER_WANTS, names::WANTED) => say(r, 0, n, 0, r.first),
        (AFTER_CALL, names::FUNCTION) => planning(r, n, r.plan.te, DONE),
        (AFTER_DAMAGED, names::END) => begin_named(r, AFTER_DAMAGED, n, FIRST_BIT),
        _ => mistaken(r, r.context),
    }
}

// An entry of a list, which is not above the last that may be.
fn listed(r: Reading, last: u32, n: u32, context: u8) -> Reading
    ensures { result ≡ listed r last n context }
{
    if last < n {
        return mistaken(r, r.context);
    }
    going(r, context)
}

// Whether an on period may have so many sequences: with an off period that may be.
fn is_on(n: u32) -> bool
    ensures { result ≡ is_on n }
{
    n < 256 && cadence::is_cadence(n as u8, DEFAULT_OFF)
}

// Whether an off period of so many bit times may stand behind this on period.
fn is_off(on: u8, n: u32) -> bool
    ensures { result ≡ is_cadence on n }
{
    n < 65536 && cadence::is_cadence(on, n as u16)
}

// Whether an answerer may answer at a time.
fn is_answer(n: u32) -> bool
    ensures { result ≡ is_answer n }
{
    FIRST_ANSWER <= n && n <= LAST_ANSWER
}

// A number where one is asked for: Te, the two of a cadence, the time of the answer, or that of a bit.
fn number_word(r: Reading, n: u32) -> Reading
    ensures { result ≡ number_word r n }
{
    let context = r.context;
    match context {
        AFTER_TE => {
            if steps::is_te(n) {
                return planning(r, r.plan.function, n as u16, DONE);
            }
            mistaken(r, context)
        }
        AFTER_CADENCE => {
            if is_on(n) {
                return cadenced(r, n as u8, r.plan.off, AFTER_ON);
            }
            mistaken(r, context)
        }
        AFTER_ON => {
            if is_off(r.plan.on, n) {
                return cadenced(r, r.plan.on, n as u16, DONE);
            }
            mistaken(r, context)
        }
        AFTER_ANSWERS => {
            if is_answer(n) {
                return answering(r, n as u16, DONE);
            }
            mistaken(r, context)
        }
        _ => listed(r, 8999, n, BITS),
    }
}

// Whether a number is asked for.
#[tactic(auto, using(laws::proofs::Cases::cases), unfolding(laws::specs::Logic::either))]
fn at_number(r: Reading) -> bool
    ensures { result ≡ at_number r }
{
    r.context == AFTER_TE
        || (r.context == AFTER_CADENCE
            || (r.context == AFTER_ON
                || (r.context == AFTER_ANSWERS || (r.context == FIRST_BIT || r.context == BITS))))
}

// Whether an octet is.
#[tactic(auto, using(laws::proofs::Cases::cases), unfolding(laws::specs::Logic::either))]
fn at_octets(r: Reading) -> bool
    ensures { result ≡ at_octets r }
{
    r.context == FIRST_OCTET || r.context == OCTETS
}

// A word: the number, the octet or the name that is asked for, or a mistake. It stays a call of its own, since most bytes do nothing: where
// the compiler puts it into the loops, a text of comments or of blanks takes more than one and a half times the instructions.
#[inline(never)]
fn read_word(r: Reading, word: &[u8]) -> Reading
    ensures { result ≡ read_word r word.now }
{
    if at_number(r) {
        return match number(word) {
            Some(n) => number_word(r, n),
            None => mistaken(r, r.context),
        };
    }
    if at_octets(r) {
        return match octet(word) {
            Some(_) => going(r, OCTETS),
            None => mistaken(r, r.context),
        };
    }
    match names::named(word) {
        Some(m) => name_word(r, m),
        None => mistaken(r, r.context),
    }
}

// What is said of one of an end's functions.
fn modes_at(plan: Plan, end: u8, k: u8) -> Modes
    ensures { result ≡ modes_of (set_at plan end k) }
{
    let set = set_at(plan, end, k);
    Modes {
        available: (set % 2) as u8,
        pcm: (set / 8192) as u8,
        items: set % 8192 / 2 * 2,
    }
}

// What is said of each of an end's functions.
fn functions_of(plan: Plan, end: u8) -> [Modes; 6]
    ensures { result ≡ (record_of plan end).functions }
{
    [1, 2, 3, 4, 5, 6].map(|function: u8| modes_at(plan, end, function))
}

// The record of an end.
pub fn record_of(plan: Plan, end: u8) -> Record
    ensures { result ≡ record_of plan end }
{
    let said = set_at(plan, end, 0);
    Record {
        functions: functions_of(plan, end),
        home: (set_at(plan, end, HOME) % 8) as u8,
        lapm: (said % 2) as u8,
        access: (said / 2 % 2) as u8,
        cellular: (said / 4 % 2) as u8,
        digital: (said / 8 % 2) as u8,
    }
}

// The first function that an end's line names is the home function where no other is.
fn with_home(r: Reading) -> Reading
    ensures { result ≡ with_home r }
{
    if 0 < set_at(r.plan, r.end, HOME) {
        return r;
    }
    store(r, HOME, r.first as u16, 0, r.first)
}

// What is wrong with the record of an end, where something is.
fn record_mistake(plan: Plan, end: u8) -> Option<u8>
    ensures { result ≡ record_mistake (record_of plan end) }
{
    let own = record_of(plan, end);
    if own.home == 0 {
        return Some(NO_FUNCTION);
    }
    let home = records::in_use(own, own.home);
    if home.available != 1 {
        return Some(HOME_NOT_HAD);
    }
    if records::bad(own) {
        return Some(PCM_ALONE);
    }
    None
}

// The end of an end's line.
fn finish_end(r: Reading) -> Reading
    ensures { result ≡ finish_end r }
{
    let line = with_home(r);
    match record_mistake(line.plan, line.end) {
        Some(wrong) => mistaken(line, wrong),
        None => planning(line, line.plan.function, line.plan.te, BEGIN),
    }
}

// The end of a line.
fn finish_line(r: Reading) -> Reading
    ensures { result ≡ finish_line r }
{
    let context = r.context;
    match context {
        IN_END => finish_end(r),
        BEGIN | DONE => going(r, BEGIN),
        BITS | OCTETS => going(r, BEGIN),
        _ => mistaken(r, context),
    }
}

// What a byte of a text does to what was read: the end of a line, a word, or nothing. It is lent, since most bytes do nothing: where each byte
// made another of it, a text of comments took more than twice as long.
fn read_byte(r: &mut Reading, scan: Scan, text: &[u8], i: usize)
    requires { i < length text.now }
    ensures { r.new ≡ read_byte r.old scan (slice_index text.now i) (drop (i + 1) text.now) }
{
    let b = text[i];
    if b == LINE_FEED {
        *r = finish_line(*r);
    } else if begins_word(scan, b) {
        *r = read_word(*r, word_at(text, i));
    }
}

// The text read up to the next byte.
fn step(spot: &mut Spot, text: &[u8], i: usize)
    requires { i < length text.now }
    ensures r { spot.new.r ≡ read_byte spot.old.r spot.old.scan (slice_index text.now i) (drop (i + 1) text.now) }
    ensures scan { spot.new.scan ≡ scan_after spot.old.scan (slice_index text.now i) }
{
    read_byte(&mut spot.r, spot.scan, text, i);
    spot.scan = scan_after(spot.scan, text[i]);
}

// A text of which nothing is read.
fn begin() -> Spot
    ensures { result ≡ record { r = fresh; scan = between } }
{
    let r = Reading {
        plan: Plan {
            sets: [0u16; 16],
            function: 0,
            te: 0,
            on: 0,
            off: 0,
            answers: 0,
        },
        end: 0,
        function: 0,
        first: 0,
        context: BEGIN,
        what: None,
    };
    Spot {
        r,
        scan: Scan::Between,
    }
}

// What is said of a plan, or the default where nothing is, which stands as 0.
fn or_default(said: u16, default: u16) -> u16
    ensures { result ≡ when (said == 0) default said }
{
    if said == 0 { default } else { said }
}

// The mistake of a text that was read to its end, or what it lacks, if either.
fn lacking(r: Reading) -> Option<u8>
    ensures { result ≡ lacking r }
{
    if r.what.is_some() {
        return r.what;
    }
    if is_said(r.plan, steps::CALLER) {
        if is_said(r.plan, steps::ANSWERER) {
            if is_said(r.plan, AFTER_CALL) {
                return None;
            }
            return Some(NO_CALL);
        }
        return Some(NO_ANSWERER);
    }
    Some(NO_CALLER)
}

// A text that was read to its end: its last line, then what is missing.
fn finish(r: Reading, at: usize) -> Result<Plan, Mistake>
    ensures { result ≡ finished r at }
{
    let last = finish_line(r);
    if let Some(what) = lacking(last) {
        return Err(Mistake { what, at });
    }
    let said = last.plan;
    Ok(Plan {
        te: or_default(said.te, DEFAULT_TE),
        on: or_default(said.on as u16, DEFAULT_ON) as u8,
        off: or_default(said.off, DEFAULT_OFF),
        answers: or_default(said.answers, DEFAULT_ANSWER),
        ..said
    })
}

// Reads a text: a plan, or the first mistake in it.
pub fn read(text: &[u8]) -> Result<Plan, Mistake>
    ensures { result ≡ read_text text.now }
{
    let mut spot = begin();
    for i in 0..text.len() {
        step(&mut spot, text, i);
        if let Some(what) = spot.r.what {
            return Err(Mistake { what, at: i });
        }
    }
    finish(spot.r, text.len())
}

// The place of a bit of an end among the bits of both: the caller's first.
pub fn bit_place(end: u8, time: u32) -> usize
    ensures { result ≡ bit_place end time }
{
    if end == steps::CALLER {
        return time as usize;
    }
    BIT_TIMES + time as usize
}

// Whether an entry of a list begins at a byte, where the first of it may come, or one behind it.
fn begins_entry(scan: Scan, b: u8, context: u8, first: u8, further: u8) -> bool
    ensures { result ≡ both (begins_word scan b) (one_of context first further) }
{
    if begins_word(scan, b) {
        return context == first || context == further;
    }
    false
}

// The octet that stands at a byte of a text, in the line of an end or in one that is about none, where one does.
fn octet_at(end: u8, spot: &Spot, text: &[u8], i: usize) -> Option<u8>
    requires { i < length text.now }
    ensures { result ≡ octet_at end spot.now.r spot.now.scan (slice_index text.now i) (drop (i + 1) text.now) }
{
    if spot.r.end != end {
        return None;
    }
    if begins_entry(spot.scan, text[i], spot.r.context, FIRST_OCTET, OCTETS) {
        return octet(word_at(text, i));
    }
    None
}

// Writes a byte at a place, where there is one.
fn write_at(out: &mut [u8], at: usize, b: u8)
    ensures { out.new ≡ set out.old at b }
{
    if at < out.len() {
        out[at] = b;
    }
}

// Marks the damaged bit that stands at a byte of a text, where one does that has a place.
fn mark_bit(damaged: &mut [u8], spot: &Spot, text: &[u8], i: usize)
    requires { i < length text.now }
    ensures { damaged.new ≡ marked_bit spot.now.r spot.now.scan (slice_index text.now i) (drop (i + 1) text.now) damaged.old }
{
    if begins_entry(spot.scan, text[i], spot.r.context, FIRST_BIT, BITS) {
        if let Some(time) = number(word_at(text, i)) {
            write_at(damaged, bit_place(spot.r.end, time), 1);
        }
    }
}

// Three functions walk a text with a loop each: a closure in its place would hide from what they promise what it writes.
// Marks the damaged bits of a text that is a plan with 1, at their places; those that have no place there are left out.
pub fn mark(text: &[u8], damaged: &mut [u8])
    ensures { damaged.new ≡ marked text.now damaged.old }
{
    let plan = read(text);
    if plan.is_err() {
        return;
    }
    let mut spot = begin();
    for i in 0..text.len() {
        mark_bit(damaged, &spot, text, i);
        step(&mut spot, text, i);
    }
}

// Writes the octets of blocks or of a CM, of a text that is a plan, as far as there is room, and answers how many the text gives.
pub fn put_octets_of(text: &[u8], end: u8, out: &mut [u8]) -> usize
    ensures count { result ≡ length (octets_in end text.now) }
    ensures octets { out.new ≡ front (take (length out.old) (octets_in end text.now)) out.old }
{
    let call = read(text);
    if call.is_err() {
        return 0;
    }
    let mut spot = begin();
    let mut n: usize = 0;
    for i in 0..text.len() {
        if let Some(b) = octet_at(end, &spot, text, i) {
            write_at(out, n, b);
            n += 1;
        }
        step(&mut spot, text, i);
    }
    n
}

// How many lines stand before the line of a place.
pub fn lines_before(text: &[u8], at: usize) -> usize
    ensures { (result ≡ lines_before text.now at) × (result ≤ length text.now) }
{
    text.iter().take(at).filter(|b| **b == LINE_FEED).count()
}

// A text, where it is wanted.
fn put_if(page: &mut Page<'_>, wanted: bool, text: &[u8])
    ensures { page.new ≡ typed page.old (when wanted text.now []) }
{
    if wanted {
        page.put_text(text);
    }
}

// A function that an end has, with its modes.
fn put_function(page: &mut Page<'_>, function: u8, set: u16)
    ensures { page.new ≡ typed page.old (function_text function set) }
{
    if set % 2 == 1 {
        names::put_names(page, names::FUNCTION, added(0, function));
        names::put_names(page, names::MODE, set);
        page.put_text(b",");
    }
}

// The functions that an end has.
fn put_functions(page: &mut Page<'_>, plan: Plan, end: u8)
    ensures { page.new ≡ typed page.old (functions_text plan end 1 6) }
{
    for function in 1..HOME {
        put_function(page, function, set_at(plan, end, function));
    }
}

// What an end wants, and what its line is.
fn put_wants(page: &mut Page<'_>, said: u16)
    ensures { page.new ≡ typed page.old (wants_text said) }
{
    put_if(page, said % 2 == 1, b", wants LAPM");
    put_if(page, said / 2 % 2 == 1, b", wants access");
    put_if(page, 0 < said / 4 % 4, b",");
    names::put_names(page, names::QUALITY, said);
}

// The line of an end of which something is said, behind its front.
fn put_end(page: &mut Page<'_>, front: &[u8], plan: Plan, end: u8)
    ensures { page.new ≡ typed page.old (end_text front.now plan end) }
{
    page.put_text(front);
    put_functions(page, plan, end);
    page.put_text(b" home");
    let home = set_at(plan, end, HOME) % 8;
    names::put_names(page, names::FUNCTION, added(0, home as u8));
    put_wants(page, set_at(plan, end, 0));
}

// What stands before an entry of a list, behind so many others: a blank, and before that the front where a line begins.
fn put_front(page: &mut Page<'_>, front: &[u8], count: usize)
    ensures { page.new ≡ typed page.old (entry_front front.now count) }
{
    put_if(page, count % ENTRIES_A_LINE == 0, front);
    page.put_text(b" ");
}

// The damaged bits of an end; in each line sixteen, behind its front.
fn put_bits(page: &mut Page<'_>, front: &[u8], damaged: &[u8])
    requires { length damaged.now ≤ 9000 }
    ensures { page.new ≡ typed page.old (bits_text front.now 0 0 damaged.now) }
{
    let mut count: usize = 0;
    for (time, &bit) in damaged.iter().enumerate() {
        if bit == 1 {
            put_front(page, front, count);
            page.put_decimal(time as u64);
            count += 1;
        }
    }
}

// Octets; in each line sixteen, behind its front.
fn put_octets(page: &mut Page<'_>, front: &[u8], octets: &[u8])
    ensures { page.new ≡ typed page.old (octets_text front.now 0 octets.now) }
{
    for (count, &octet) in octets.iter().enumerate() {
        put_front(page, front, count);
        page.put_octet(octet);
    }
}

// The line of the caller. A stranger's CM is not parted into lines: its octets have a blank before each, and no front.
fn put_caller(page: &mut Page<'_>, plan: Plan, cm: &[u8])
    ensures { page.new ≡ typed page.old (caller_text plan cm.now) }
{
    if plan.function == STRANGER {
        page.put_text(b"caller    sends");
        put_octets(page, b"", cm);
        return;
    }
    put_end(page, b"caller   ", plan, steps::CALLER);
}

// The line for the function called, which a stranger says in its CM.
fn put_called(page: &mut Page<'_>, function: u8)
    ensures { page.new ≡ typed page.old (called_text function) }
{
    if function == STRANGER {
        return;
    }
    page.put_text(b"\ncall     ");
    names::put_names(page, names::FUNCTION, added(0, function));
}

// All that is said of the ends and of the function called.
fn put_head(page: &mut Page<'_>, plan: Plan, cm: &[u8])
    ensures { page.new ≡ typed page.old (head_text plan cm.now) }
{
    put_caller(page, plan, cm);
    put_end(page, b"\nanswerer ", plan, steps::ANSWERER);
    put_called(page, plan.function);
}

// A number behind a text.
fn put_number(page: &mut Page<'_>, front: &[u8], number: u16)
    ensures { page.new ≡ typed page.old (front.now ++ decimal number) }
{
    page.put_text(front);
    page.put_decimal(number as u64);
}

// The line for the cadence.
fn put_cadence(page: &mut Page<'_>, on: u8, off: u16)
    ensures { page.new ≡ typed page.old (cadence_text on off) }
{
    put_number(page, b"\ncadence   ", on as u16);
    put_number(page, b" ", off);
}

// The line for the answer.
fn put_answers(page: &mut Page<'_>, answers: u16)
    ensures { page.new ≡ typed page.old (answers_text answers) }
{
    put_number(page, b"\nanswers   ", answers);
}

// All that a plan says beside the blocks and the damaged bits.
fn put_told(page: &mut Page<'_>, plan: Plan, cm: &[u8])
    ensures { page.new ≡ typed page.old (told_text plan cm.now) }
{
    put_head(page, plan, cm);
    put_number(page, b"\nTe        ", plan.te);
    put_cadence(page, plan.on, plan.off);
    put_answers(page, plan.answers);
}

// The damaged bits of both ends, where the list has a place for each.
fn put_damaged(page: &mut Page<'_>, damaged: &[u8])
    ensures { page.new ≡ typed page.old (damage_text damaged.now) }
{
    if damaged.len() < BITS_OF_BOTH {
        return;
    }
    put_bits(page, b"\ndamaged   caller", &damaged[..BIT_TIMES]);
    put_bits(
        page,
        b"\ndamaged   answerer",
        &damaged[BIT_TIMES..BITS_OF_BOTH],
    );
}

// A plan in its plain form: a text that is read as this plan, with every default written out.
pub fn put_plan(page: &mut Page<'_>, plan: Plan, cm: &[u8], blocks: &[u8], damaged: &[u8])
    ensures { page.new ≡ typed page.old (plain plan cm.now blocks.now damaged.now) }
{
    put_told(page, plan, cm);
    put_octets(page, b"\nblocks   ", blocks);
    put_damaged(page, damaged);
    page.put_text(b"\n");
}
