// The library as a C program sees it: numbers, byte slices, and a refusal n as the answer -n. include/tailsprig.h is its manual.
#![tactic(auto)]

ghost use Rattle.std.specs.Prelude.{◌≡◌, length};
ghost use Rattle.listening.specs.Record.{fresh};
ghost use Rattle.listening.specs.Hearing.{says_heard, heard_bit, heard_bits};
ghost use Rattle.menus.specs.Groups.{looked, part_at};
ghost use Rattle.menus.specs.Offer.{menu_read};
ghost use Rattle.menus.specs.Asking.{asked};
ghost use Rattle.fields.specs.Blocks.{walked, block_at, block_of};
ghost use Rattle.fields.specs.Field.{field_read};
ghost use Rattle.choices.specs.Choosing.{choice_of};
ghost use Rattle.offers.specs.Making.{source_of, made_cm, made_jm};
ghost use Rattle.listening.specs.Spans.{last_span};
ghost use Rattle.codes.specs.Hearing.{span_code};
ghost use Rattle.codes.specs.Choosing.{choice_code, source_code};
ghost use Rattle.sequences.specs.Writing.{written_cj};
ghost use Rattle.steps.specs.Session.{answerer_from, default_te, says_started, started_caller};
ghost use Rattle.steps.specs.Stepping.{stepped};
ghost use Rattle.steps.specs.Drawing.{drawn};
ghost use Rattle.codes.specs.Steps.{carried_of};
ghost use Rattle.codes.specs.Writing.{kind_of, written_as};
ghost use Rattle.codes.specs.Reading.{looked_code};
ghost use Rattle.tailsprig.specs.Inner.{value_beside, code_beside};
ghost use Rattle.tailsprig.specs.Exports.{Returns, HearsAs, RunsAs, ReadsAs, AsksAs, WalksAs, StartsAs, StepsAs, DrawsAs};

use fields::Block;
use framing::NOTHING;
use items::Item;
use listening::{Heard, Listener};
use menus::Offer;
use records::Record;
use refusals::Refusal;
use steps::Session;

// What is answered, or what stands beside a refusal, and the code: 0, or a refusal n as -n.
fn beside<T>(answer: Result<T, Refusal>, refused: T) -> (T, i32)
where
    T: Copy,
    ensures value { result.0 ≡ value_beside answer refused }
    ensures code { result.1 ≡ code_beside answer }
{
    match answer {
        Ok(value) => (value, 0),
        Err(r) => (refused, codes::refusal_code(r)),
    }
}

#[unsafe(no_mangle)]
pub extern "C" fn tailsprig_write(kind: u8, octets: &[u8], copies: u16, out: &mut [u8]) -> i32
    ensures { Returns (written_as (kind_of kind) octets.now copies out.old) result out.new }
{
    let Some(kind) = codes::kind_of(kind) else {
        return codes::refusal_code(Refusal::BadRecord);
    };
    codes::wrote_code(sequences::write(kind, octets, copies, out))
}

#[unsafe(no_mangle)]
pub extern "C" fn tailsprig_write_cj(out: &mut [u8]) -> i32
    ensures { Returns (written_cj out.old) result out.new }
{
    codes::wrote_code(sequences::write_cj(out))
}

// Many bits, as C gets them.
#[repr(C)]
#[derive(Clone, Copy)]
pub struct Ran {
    pub rec: Listener,
    pub taken: usize,
    pub code: i32,
}

// A record of a line on which nothing was heard.
#[unsafe(no_mangle)]
pub extern "C" fn tailsprig_fresh() -> Listener
    ensures { result ≡ fresh }
{
    listening::fresh_line()
}

// A bit, heard into the record that the host lends. Most bits turn the ear and ask for nothing; only where a bit asks for something is
// the record copied.
#[unsafe(no_mangle)]
pub extern "C" fn tailsprig_hear(rec: &mut Listener, bit: u8) -> i32
    ensures { HearsAs (heard_bit rec.old bit) result rec.new }
{
    let turned = listening::turn_ear(
        rec.ear,
        rec.msg.kind,
        rec.msg.len,
        rec.last.kind,
        rec.last.len,
        bit,
    );
    rec.ear = turned.ear;
    if turned.act != NOTHING {
        let acted = codes::act_code(*rec, turned.act);
        *rec = acted.rec;
        return acted.code;
    }
    0
}

// The record goes on as the field that it is: bound to a name it would be copied once more.
fn ran_of(rec: Listener, taken: usize, report: Result<Heard, Refusal>) -> Ran
    ensures { RunsAs (record { report = says_heard report; rec = rec; taken = taken }) result }
{
    Ran {
        rec,
        taken,
        code: codes::heard_code(report),
    }
}

// Many bits, up to the first that reports something.
#[unsafe(no_mangle)]
pub extern "C" fn tailsprig_hear_many(rec: Listener, bits: &[u8]) -> Ran
    ensures { RunsAs (heard_bits rec bits.now) result }
{
    let ran = listening::hear_many(rec, bits);
    let report = ran.report;
    ran_of(ran.rec, ran.taken, report)
}

// The span of the message reported last, 0 where none was.
#[unsafe(no_mangle)]
pub extern "C" fn tailsprig_last_span(rec: Listener) -> i32
    ensures { result ≡ span_code (last_span rec) }
{
    codes::span_code(listening::last_span(rec))
}

// A menu as C gets it: 0 and what it offers, or a refusal and nothing.
#[repr(C)]
#[derive(Clone, Copy)]
pub struct MenuRead {
    pub offer: Offer,
    pub code: i32,
}

// Where the first group of a tag stands, or 64 where there is none.
#[unsafe(no_mangle)]
pub extern "C" fn tailsprig_find(octets: &[u8], tag: u8) -> i32
    ensures { result ≡ looked_code (looked octets.now tag) }
{
    codes::found_code(menus::find(octets, tag))
}

// How many octets the part of a place has.
#[unsafe(no_mangle)]
pub extern "C" fn tailsprig_part(octets: &[u8], place: usize) -> usize
    ensures { result ≡ length (part_at octets.now place) }
{
    let part = menus::part(octets, place);
    part.len()
}

// Reads a menu.
#[unsafe(no_mangle)]
pub extern "C" fn tailsprig_read(octets: &[u8]) -> MenuRead
    ensures { ReadsAs (menu_read octets.now) result }
{
    let (offer, code) = beside(menus::read(octets), codes::no_offer());
    MenuRead { offer, code }
}

// An item that is asked for, as C gets it: 1 or 0 and how many octets were looked at, or a refusal and none.
#[repr(C)]
#[derive(Clone, Copy)]
pub struct ItemAsked {
    pub looked: usize,
    pub code: i32,
}

// Whether a menu offers one item, without the whole menu read.
#[unsafe(no_mangle)]
pub extern "C" fn tailsprig_asks(octets: &[u8], item: u8) -> ItemAsked
    ensures { AsksAs (asked octets.now item) result }
{
    match menus::asks(octets, Item(item)) {
        Ok(asked) => ItemAsked {
            looked: asked.looked,
            code: i32::from(asked.offered),
        },
        Err(r) => ItemAsked {
            looked: 0,
            code: codes::refusal_code(r),
        },
    }
}

// Reads the field of a heard CM.
#[unsafe(no_mangle)]
pub extern "C" fn tailsprig_fields(octets: &[u8], out: &mut [u8]) -> i32
    ensures { Returns (field_read octets.now out.old) result out.new }
{
    codes::wrote_code(fields::read_field(octets, out))
}

// Blocks as C gets them: 0 and how many there are, or a refusal and none.
#[repr(C)]
#[derive(Clone, Copy)]
pub struct BlocksRead {
    pub blocks: usize,
    pub code: i32,
}

// How many blocks there are.
#[unsafe(no_mangle)]
pub extern "C" fn tailsprig_blocks(octets: &[u8]) -> BlocksRead
    ensures { WalksAs (walked octets.now) result }
{
    let (blocks, code) = beside(fields::walk_blocks(octets), 0);
    BlocksRead { blocks, code }
}

// The block of a number, where all are blocks.
#[unsafe(no_mangle)]
pub extern "C" fn tailsprig_block_of(octets: &[u8], number: usize) -> Block
    ensures { result ≡ block_of octets.now number }
{
    fields::find_block(octets, number)
}

// The block that begins at a place, looked at alone.
#[unsafe(no_mangle)]
pub extern "C" fn tailsprig_block_at(octets: &[u8], place: usize) -> Block
    ensures { result ≡ block_at octets.now place }
{
    fields::block_at(octets, place)
}

// Makes the CM of a record for a function, with the octets of our own blocks.
#[unsafe(no_mangle)]
pub extern "C" fn tailsprig_cm(own: Record, function: u8, blocks: &[u8], out: &mut [u8]) -> i32
    ensures { Returns (made_cm own function blocks.now out.old) result out.new }
{
    codes::wrote_code(offers::make_cm(own, function, blocks, out))
}

// Makes the JM of a record for a heard CM.
#[unsafe(no_mangle)]
pub extern "C" fn tailsprig_jm(own: Record, heard: &[u8], out: &mut [u8]) -> i32
    ensures { Returns (made_jm own heard.now out.old) result out.new }
{
    codes::wrote_code(offers::make_jm(own, heard, out))
}

// In which of two menus the call function octet of a JM stands.
#[unsafe(no_mangle)]
pub extern "C" fn tailsprig_call_function(own: Record, heard: &[u8], own_cm: &[u8]) -> u8
    ensures { result ≡ source_code (source_of own heard.now own_cm.now) }
{
    codes::source_code(offers::call_source(own, heard, own_cm))
}

// What both ends go on with, from the two menus.
#[unsafe(no_mangle)]
pub extern "C" fn tailsprig_choice(cm: &[u8], jm: &[u8]) -> i32
    ensures { result ≡ choice_code (choice_of cm.now jm.now) }
{
    codes::choice_code(choices::choice_of(cm, jm))
}

// A start as C gets it: 0 and the session, or a refusal and none.
#[repr(C)]
#[derive(Clone, Copy)]
pub struct CallerStart {
    pub session: Session,
    pub code: i32,
}

// A step as C gets it: the session, and the answer as one number.
#[repr(C)]
#[derive(Clone, Copy)]
pub struct StepTaken {
    pub session: Session,
    pub code: i32,
}

// Bits as C gets them: 0, how many came, and the session behind them, or a refusal and none.
#[repr(C)]
#[derive(Clone, Copy)]
pub struct BitsDrawn {
    pub session: Session,
    pub bits: usize,
    pub code: i32,
}

fn caller_start(started: Result<Session, Refusal>) -> CallerStart
    ensures { StartsAs (says_started started) result }
{
    let (session, code) = beside(started, codes::no_session());
    CallerStart { session, code }
}

// A caller's session from this time on, with a given Te, and with the cadence of its CI.
#[unsafe(no_mangle)]
pub extern "C" fn tailsprig_start_caller(
    start: u32,
    te: u32,
    function: u8,
    on: u8,
    off: u16,
) -> CallerStart
    ensures { StartsAs (started_caller start te function on off) result }
{
    caller_start(steps::start_caller(start, te, function, on, off))
}

// The same without a value for Te.
#[unsafe(no_mangle)]
pub extern "C" fn tailsprig_start_caller_default(
    start: u32,
    function: u8,
    on: u8,
    off: u16,
) -> CallerStart
    ensures { StartsAs (started_caller start default_te function on off) result }
{
    caller_start(steps::start_caller_default(start, function, on, off))
}

// An answerer's session from this time on.
#[unsafe(no_mangle)]
pub extern "C" fn tailsprig_start_answerer(start: u32) -> Session
    ensures { result ≡ answerer_from start }
{
    steps::start_answerer(start)
}

// An event of this end, what it carries, and its time.
#[unsafe(no_mangle)]
pub extern "C" fn tailsprig_step(session: Session, event: u8, value: i32, now: u32) -> StepTaken
    ensures { StepsAs (stepped session event (carried_of value) now) result }
{
    let taken = steps::step(session, event, codes::carried(value), now);
    StepTaken {
        session: taken.session,
        code: codes::step_code(taken.answer),
    }
}

// The next bits that a caller sends of its CI, or silence.
#[unsafe(no_mangle)]
pub extern "C" fn tailsprig_draw(session: Session, out: &mut [u8]) -> BitsDrawn
    ensures { DrawsAs (drawn session out.old) result out.new }
{
    let given = steps::draw(session, out);
    let (bits, code) = beside(given.answer, 0);
    BitsDrawn {
        session: given.session,
        bits,
        code,
    }
}
