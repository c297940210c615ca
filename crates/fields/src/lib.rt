// Makers' own fields: the octets of blocks, packed into the extension octets of a tag 15 group and back; the blocks one behind the
// other; the field of a heard menu, read, and our own, written.
#![tactic(auto, using(laws::proofs::Cases::cases), unfolding(laws::specs::Logic::when, laws::specs::Logic::both))]

ghost use Rattle.std.specs.Prelude.{◌≡◌, true, ◌+◌, ◌<◌, ◌≤◌, ◌^◌, eqb, length, drop};
ghost use Rattle.std.specs.List.{prefix_len};
ghost use Rattle.laws.specs.Front.{front};
ghost use Rattle.laws.specs.Logic.{when};
ghost use Rattle.laws.specs.Tests.{every};
ghost use Rattle.refusals.specs.Lent.{room_fault, put, Meets};
ghost use Rattle.menus.specs.Groups.{onward};
ghost use Rattle.fields.specs.Packing.{five_of, extension_of, octets_in, left_over, extensions_for, packed};
ghost use Rattle.fields.specs.Blocks.{blocks_of, length_of, country_size, fits, says_walk, walked, no_block, block_at, place_of, block_of, part_in};
ghost use Rattle.fields.specs.Field.{is_packed, field_read, field_of};
ghost use Rattle.fields.specs.Inner.{counted, span_of, Unpacks, held_with, Writes, blocks_put, group_read};

use refusals::Refusal;

// The tag of a field.
pub const FIELD: u8 = 15;

// An octet of a country code that goes on.
const FULL: u8 = 255;

// Room for the octets of a group of 64: no more than 39.
const MOST_OCTETS: usize = 40;

// What unpacking leaves: how many octets it wrote, and the bits left over.
#[derive(Clone, Copy)]
struct Unpacked {
    count: usize,
    left: u16,
}

// The five option bits of an extension octet.
fn five_of(e: u8) -> u8
    ensures { (result ≡ five_of e) × (result < 32) }
{
    e % 8 + 8 * (e / 64)
}

// The extension octet with these five bits.
fn extension_of(five: u8) -> u8
    ensures { result ≡ extension_of five }
{
    16 + five % 8 + 64 * (five / 8 % 4)
}

// Extension octets into octets, one pass: bits that make no octet yet are held as a number, beside the weight of the next.
fn unpack(extensions: &[u8], out: &mut [u8]) -> Unpacked
    requires { octets_in extensions.now ≤ length out.old }
    ensures { Unpacks extensions.now out.old result out.new }
{
    let mut held: u16 = 0;
    let mut weight: u16 = 1;
    let mut j: usize = 0;
    for e in extensions {
        held += weight * five_of(*e) as u16;
        weight *= 32;
        if 256 <= weight {
            out[j] = (held % 256) as u8;
            held /= 256;
            weight /= 256;
            j += 1;
        }
    }
    Unpacked {
        count: j,
        left: held,
    }
}

// How many extension octets so many octets take: eight bits each, five in each of them. No sum here is more than twice the count.
fn extensions_for(octets: usize) -> usize
    requires { octets < 2 ^ 63 }
    ensures { result ≡ extensions_for octets }
{
    octets + octets / 5 * 3 + (octets % 5 * 3 + 4) / 5
}

// What is between octets and extension octets: bits as a number, the weight of the next, and how many octets were taken in.
#[derive(Clone, Copy)]
struct Held {
    bits: u16,
    weight: u16,
    taken: usize,
}

// One more octet, where fewer than five bits are held and there is one.
fn hold(octets: &[u8], held: Held) -> Held
    requires { held.bits < held.weight }
    ensures { result ≡ held_with octets.now held }
{
    let at = held.taken;
    if 32 <= held.weight {
        return held;
    }
    if octets.len() <= at {
        return held;
    }
    Held {
        bits: held.bits + held.weight * octets[at] as u16,
        weight: held.weight * 256,
        taken: at + 1,
    }
}

// Octets into extension octets, one pass: each takes five of the bits that are held.
fn pack(octets: &[u8], out: &mut [u8]) -> usize
    requires { extensions_for (length octets.now) ≤ length out.old }
    ensures { Writes (packed octets.now) out.old result out.new }
{
    let size = extensions_for(octets.len());
    let mut held = Held {
        bits: 0,
        weight: 1,
        taken: 0,
    };
    for k in 0..size {
        let more = hold(octets, held);
        out[k] = extension_of((more.bits % 32) as u8);
        held = Held {
            bits: more.bits / 32,
            weight: more.weight / 32,
            ..more
        };
    }
    size
}

// A part of the lent octets: where it begins, and how many octets it has.
#[repr(C)]
#[derive(Clone, Copy, Debug, PartialEq, Eq)]
pub struct Span {
    pub place: usize,
    pub size: usize,
}

// A block: whole, with its length; its country code, its provider code, and the rest.
#[repr(C)]
#[derive(Clone, Copy, Debug, PartialEq, Eq)]
pub struct Block {
    pub whole: Span,
    pub country: Span,
    pub provider: Span,
    pub rest: Span,
}

// The parts of a block by name.
#[derive(Clone, Copy)]
enum Part {
    Whole,
    Country,
    Provider,
    Rest,
}

impl Block {
    fn span_of(self, part: Part) -> Span
        ensures { result ≡ span_of self part }
    {
        match part {
            Part::Whole => self.whole,
            Part::Country => self.country,
            Part::Provider => self.provider,
            Part::Rest => self.rest,
        }
    }
}

// How many octets of 255 stand in front.
fn full_octets(octets: &[u8]) -> usize
    ensures { (result ≡ prefix_len (λ b. eqb b 255) octets.now) × (result ≤ length octets.now) }
{
    octets.iter().take_while(|b| **b == FULL).count()
}

// What stands for no block: parts without octets.
fn no_block() -> Block
    ensures { result ≡ no_block }
{
    let none = Span { place: 0, size: 0 };
    Block {
        whole: none,
        country: none,
        provider: none,
        rest: none,
    }
}

// How many octets the country code of a block has, where all that its length counts is there.
fn country_size(octets: &[u8], place: usize, size: usize) -> usize
    requires size_value { size ≡ length_of (drop place octets.now) }
    requires size_in_bounds { place + 1 + size ≤ length octets.now }
    ensures { (result ≡ country_size (drop place octets.now)) × (result ≤ size + 1) }
{
    let from = place + 1;
    full_octets(&octets[from..from + size]) + 1
}

// The block at a place, by its codes, where all that its length counts is there.
fn coded_block(octets: &[u8], place: usize, size: usize) -> Block
    requires size_value { size ≡ length_of (drop place octets.now) }
    requires size_in_bounds { place + 1 + size ≤ length octets.now }
    ensures { result ≡ block_at octets.now place }
{
    let country = country_size(octets, place, size);
    if size <= country {
        return no_block();
    }
    let from = place + 1;
    let behind = from + country;
    let provider = octets[behind] as usize;
    let codes = country + 1 + provider;
    if size < codes {
        return no_block();
    }
    Block {
        whole: Span {
            place: place,
            size: 1 + size,
        },
        country: Span {
            place: from,
            size: country,
        },
        provider: Span {
            place: behind + 1,
            size: provider,
        },
        rest: Span {
            place: from + codes,
            size: size - codes,
        },
    }
}

// The block that begins at a place; none where no block stands there that fits.
pub fn block_at(octets: &[u8], place: usize) -> Block
    ensures { result ≡ block_at octets.now place }
{
    if octets.len() <= place {
        return no_block();
    }
    let size = octets[place] as usize;
    if octets.len() - place <= size {
        return no_block();
    }
    coded_block(octets, place, size)
}

// The walk over the blocks, behind so many: "handles the first one and then does the same with what remains", a call of itself where
// document 01 names that form.
fn walk_on(octets: &[u8], before: usize) -> Result<usize, Refusal>
    requires { before + length octets.now < 2 ^ 64 }
    ensures { says_walk result ≡ counted before (walked octets.now) }
{
    if octets.len() == 0 {
        return Ok(before);
    }
    let first = block_at(octets, 0);
    let size = first.whole.size;
    if size == 0 {
        return Err(Refusal::BadBlock);
    }
    walk_on(&octets[size..], before + 1)
}

// How many blocks the octets are, or the refusal where one of them does not fit.
pub fn walk_blocks(octets: &[u8]) -> Result<usize, Refusal>
    ensures { says_walk result ≡ walked octets.now }
{
    walk_on(octets, 0)
}

// Where the block of a number begins, behind those before it.
fn place_of(octets: &[u8], number: usize) -> usize
    requires octets_value { every fits (blocks_of octets.now) ≡ true }
    requires number_in_bounds { number ≤ length (blocks_of octets.now) }
    ensures { result ≡ place_of octets.now number }
{
    let mut place: usize = 0;
    for _ in 0..number {
        let block = block_at(octets, place);
        place += block.whole.size;
    }
    place
}

// The block of a number, the first having number 0; none past the last, and none where the blocks are refused.
pub fn find_block(octets: &[u8], number: usize) -> Block
    ensures { result ≡ block_of octets.now number }
{
    let Ok(count) = walk_blocks(octets) else {
        return no_block();
    };
    if count <= number {
        return no_block();
    }
    block_at(octets, place_of(octets, number))
}

// A part of the lent octets themselves.
fn part_in(octets: &[u8], part: Span) -> &[u8]
    requires { part.place + part.size ≤ length octets.now }
    ensures result_value { result.now ≡ part_in octets.now part }
    ensures ref_ptr_value { result.ref_ptr ≡ onward octets.entry.ref_ptr part.place }
{
    let from = part.place;
    let end = from + part.size;
    &octets[from..end]
}

// A part of the block of a number.
fn part_of(octets: &[u8], number: usize, part: Part) -> &[u8]
    ensures result_value { result.now ≡ part_in octets.now (span_of (block_of octets.now number) part) }
    ensures ref_ptr_value { result.ref_ptr ≡ onward octets.entry.ref_ptr (span_of (block_of octets.now number) part).place }
{
    part_in(octets, find_block(octets, number).span_of(part))
}

// The block of a number, whole.
pub fn whole(octets: &[u8], number: usize) -> &[u8]
    ensures result_value { result.now ≡ part_in octets.now (block_of octets.now number).whole }
    ensures ref_ptr_value { result.ref_ptr ≡ onward octets.entry.ref_ptr (block_of octets.now number).whole.place }
{
    part_of(octets, number, Part::Whole)
}

// Its country code.
pub fn country(octets: &[u8], number: usize) -> &[u8]
    ensures result_value { result.now ≡ part_in octets.now (block_of octets.now number).country }
    ensures ref_ptr_value { result.ref_ptr ≡ onward octets.entry.ref_ptr (block_of octets.now number).country.place }
{
    part_of(octets, number, Part::Country)
}

// Its provider code.
pub fn provider(octets: &[u8], number: usize) -> &[u8]
    ensures result_value { result.now ≡ part_in octets.now (block_of octets.now number).provider }
    ensures ref_ptr_value { result.ref_ptr ≡ onward octets.entry.ref_ptr (block_of octets.now number).provider.place }
{
    part_of(octets, number, Part::Provider)
}

// And the rest of it.
pub fn rest(octets: &[u8], number: usize) -> &[u8]
    ensures result_value { result.now ≡ part_in octets.now (block_of octets.now number).rest }
    ensures ref_ptr_value { result.ref_ptr ≡ onward octets.entry.ref_ptr (block_of octets.now number).rest.place }
{
    part_of(octets, number, Part::Rest)
}

// Whether the octets are blocks, each of which fits.
pub fn are_blocks(octets: &[u8]) -> bool
    ensures { result ≡ every fits (blocks_of octets.now) }
{
    walk_blocks(octets).is_ok()
}

// How many octets the field of these octets has.
pub fn field_size(octets: &[u8]) -> usize
    ensures { result ≡ length (field_of octets.now) }
{
    if octets.len() == 0 {
        return 0;
    }
    1 + extensions_for(octets.len())
}

// The field that says these octets, where there is room for it; nothing where there are none.
pub fn put_field(octets: &[u8], out: &mut [u8]) -> Result<usize, Refusal>
    ensures { Meets (put (room_fault (field_of octets.now) out.old) (field_of octets.now) out.old) result out.new }
{
    let size = field_size(octets);
    if out.len() < size {
        return Err(Refusal::ShortBuffer);
    }
    if 0 < size {
        out[0] = octets::category_octet(FIELD, 0);
        pack(octets, &mut out[1..]);
    }
    Ok(size)
}

// Octets to the front of what is lent. No `copy_from_slice`: that is a call of memcpy, which a library that stands alone has not, and the place modulo
// their number at most keeps the compiler from making one of this loop.
fn copy(octets: &[u8], out: &mut [u8])
    requires octets_len_bound { length octets.now ≤ 40 }
    requires octets_in_bounds { length octets.now ≤ length out.old }
    ensures { out.new ≡ front octets.now out.old }
{
    for i in 0..octets.len() {
        out[i] = octets[i % MOST_OCTETS];
    }
}

// Whether a group is packed as it must be: its options are 0, and at most four bits are left over, which are 0.
fn is_packed(group: &[u8], left: u16) -> bool
    requires left_value { left ≡ left_over (drop 1 group.now) }
    requires group_nonzero { 0 < length group.now }
    requires group_len_bound { length group.now ≤ 64 }
    ensures { result ≡ is_packed group.now }
{
    menus::options_in(group) == 0 && (5 * (group.len() - 1) % 8 <= 4 && left == 0)
}

// Octets that are blocks, where there is room for them.
fn put_blocks(octets: &[u8], out: &mut [u8]) -> Result<usize, Refusal>
    requires { length octets.now ≤ 40 }
    ensures { Meets (blocks_put octets.now out.old) result out.new }
{
    if are_blocks(octets) {
        if out.len() < octets.len() {
            return Err(Refusal::ShortBuffer);
        }
        copy(octets, out);
        return Ok(octets.len());
    }
    Err(Refusal::BadBlock)
}

// The octets of a group, unpacked beside what is lent, since a refusal writes nothing there.
fn read_group(group: &[u8], out: &mut [u8]) -> Result<usize, Refusal>
    requires group_nonzero { 0 < length group.now }
    requires group_len_bound { length group.now ≤ 64 }
    ensures { Meets (group_read group.now out.old) result out.new }
{
    let mut octets = [0u8; MOST_OCTETS];
    let unpacked = unpack(&group[1..], &mut octets);
    if !is_packed(group, unpacked.left) {
        return Err(Refusal::BadPacking);
    }
    put_blocks(&octets[..unpacked.count], out)
}

// Reads the field of a heard menu into what is lent, and answers how many octets it has.
pub fn read_field(octets: &[u8], out: &mut [u8]) -> Result<usize, Refusal>
    ensures { Meets (field_read octets.now out.old) result out.new }
{
    match menus::find(octets, FIELD)? {
        Some(place) => read_group(menus::part(octets, place), out),
        None => Ok(0),
    }
}
