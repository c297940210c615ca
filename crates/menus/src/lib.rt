// Menus: looking for a group, its part of the message, what a menu offers, one item asked for alone, and which PCM options of two ends pair.
#![tactic(auto, using(laws::proofs::Cases::cases), unfolding(laws::specs::Logic::when, laws::specs::Logic::both))]

ghost use Rattle.std.specs.Prelude.{◌≡◌, false, ◌+◌, ◌<◌, ◌≤◌, length, drop};
ghost use Rattle.octets.specs.Lists.{until_category};
ghost use Rattle.menus.specs.Groups.{says_found, opens_group, first_group, looked, part_at, onward, part_start, group_of, options_in};
ghost use Rattle.menus.specs.Offer.{pcm_counted, offer_of, says_read, menu_read};
ghost use Rattle.menus.specs.Pcm.{paired};
ghost use Rattle.menus.specs.Asking.{answer, says_asked, asked};
ghost use Rattle.menus.specs.Inner.{decided, walked, asked_at};

use items::{Item, ItemPlace};
use octets::Purpose;
use refusals::Refusal;

// The tags of the groups, beside octets::CALL_FUNCTION and items::MODULATION.
pub const PCM: u8 = 7;

pub const PROTOCOL: u8 = 10;

pub const ACCESS: u8 = 13;

// The option of the protocol group that says LAPM.
pub const LAPM: u8 = 1;

// What a menu offers: the call function, the items (bit i for item i), PCM as far as it counts, LAPM, and the access group with its
// options.
#[repr(C)]
#[derive(Clone, Copy, Debug, PartialEq, Eq)]
pub struct Offer {
    pub function: u8,
    pub items: u16,
    pub pcm: u8,
    pub lapm: bool,
    pub access: bool,
    pub access_options: u8,
}

// What asking for one item gives: whether the menu offers it, and how many octets were looked at.
#[derive(Clone, Copy, Debug, PartialEq, Eq)]
pub struct Asked {
    pub offered: bool,
    pub looked: usize,
}

// A category octet with this tag.
fn opens_group(b: u8, tag: u8) -> bool
    ensures { result ≡ opens_group tag b }
{
    octets::is_category(b) && octets::tag_of(b) == tag
}

// The first group of a tag, where the octets are readable. A loop and no `position`: by that its wrong programs, of a place and of none, could
// not be told from right ones.
fn first_group(octets: &[u8], tag: u8) -> Option<usize>
    ensures { says_found (Ok result) ≡ first_group tag 0 octets.now }
{
    for (i, b) in octets.iter().enumerate() {
        if opens_group(*b, tag) {
            return Some(i);
        }
    }
    None
}

// Looks for a tag: the place of its first group, nothing, or why the message cannot be read.
pub fn find(octets: &[u8], tag: u8) -> Result<Option<usize>, Refusal>
    ensures { says_found result ≡ looked octets.now tag }
{
    octets::test(Purpose::Reading, octets)?;
    Ok(first_group(octets, tag))
}

// How many octets stand before the next category octet: the extension octets of the group before them. A loop, as in `first_group`.
fn extensions_in(octets: &[u8]) -> usize
    ensures { (result ≡ until_category octets.now) × (result ≤ length octets.now) }
{
    for (i, b) in octets.iter().enumerate() {
        if octets::is_category(*b) {
            return i;
        }
    }
    octets.len()
}

// The part of a place: the category octet there and its extension octets, of the lent message itself; elsewhere the empty part.
pub fn part(octets: &[u8], place: usize) -> &[u8]
    ensures result_value { result.now ≡ part_at octets.now place }
    ensures ref_ptr_value { result.ref_ptr ≡ onward octets.entry.ref_ptr (part_start octets.now place) }
{
    if place < octets.len() && octets::is_category(octets[place]) {
        let end = place + 1 + extensions_in(&octets[place + 1..]);
        return &octets[place..end];
    }
    &octets[0..0]
}

// The options of a group, 0 where it is missing.
pub fn options_in(group: &[u8]) -> u8
    ensures { result ≡ options_in group.now }
{
    if group.len() == 0 {
        return 0;
    }
    octets::options_of(group[0])
}

// The first group of a tag, or the empty part where there is none: "takes this answer apart", opened by let .. else as document 01 names it.
fn group_of(octets: &[u8], tag: u8) -> &[u8]
    ensures { result.now ≡ group_of octets.now tag }
{
    let Some(place) = first_group(octets, tag) else {
        return &octets[0..0];
    };
    part(octets, place)
}

// How many octets the first group of a tag has, 0 where there is none.
pub fn group_size(octets: &[u8], tag: u8) -> usize
    ensures { result ≡ length (group_of octets.now tag) }
{
    group_of(octets, tag).len()
}

// PCM options as far as they count: only beside an access group.
fn counted(access: &[u8], pcm: &[u8]) -> u8
    ensures { result ≡ pcm_counted access.now pcm.now }
{
    if 0 < access.len() {
        return options_in(pcm);
    }
    0
}

fn read_offer(octets: &[u8]) -> Offer
    ensures { result ≡ offer_of octets.now }
{
    let access = group_of(octets, ACCESS);
    Offer {
        function: options_in(octets),
        items: items::items_in(group_of(octets, items::MODULATION)),
        pcm: counted(access, group_of(octets, PCM)),
        lapm: options_in(group_of(octets, PROTOCOL)) == LAPM,
        access: 0 < access.len(),
        access_options: options_in(access),
    }
}

// Reads a menu.
pub fn read(octets: &[u8]) -> Result<Offer, Refusal>
    ensures { says_read result ≡ menu_read octets.now }
{
    octets::test(Purpose::Reading, octets)?;
    Ok(read_offer(octets))
}

// An answer that is no refusal.
fn answered(offered: bool, looked: usize) -> Result<Asked, Refusal>
    ensures { says_asked result ≡ answer offered looked }
{
    Ok(Asked { offered, looked })
}

// Within the modulation group, behind its category octet: the octet that holds the item decides, or the next category octet before it.
fn decide(octets: &[u8], opening: u8, from: usize, place: ItemPlace) -> Result<Asked, Refusal>
    ensures { says_asked result ≡ decided place.bit.0 place.octet from opening (drop from octets.now) }
{
    let mut b = opening;
    let mut looked = from;
    for _ in 0..place.octet {
        if octets.len() <= looked {
            return answered(false, looked);
        }
        b = octets[looked];
        looked += 1;
        if octets::is_category(b) {
            return answered(false, looked);
        }
        if octets::is_bad(b) {
            return Err(Refusal::BadOctet);
        }
    }
    Ok(Asked {
        offered: items::has_bit(b, place.bit),
        looked,
    })
}

// Behind the call function, up to the first modulation group. The kind of an octet is asked first: of an extension octet two bits more are
// looked at, and of a category octet its tag.
fn walk(octets: &[u8], place: ItemPlace) -> Result<Asked, Refusal>
    requires { 0 < length octets.now }
    ensures { says_asked result ≡ walked place 1 (drop 1 octets.now) }
{
    for looked in 1..octets.len() {
        let b = octets[looked];
        if octets::is_category(b) {
            if octets::tag_of(b) == items::MODULATION {
                return decide(octets, b, looked + 1, place);
            }
        } else if octets::is_bad(b) {
            return Err(Refusal::BadOctet);
        }
    }
    answered(false, octets.len())
}

// The number of octets and the first one, before the walk.
fn ask_at(octets: &[u8], place: ItemPlace) -> Result<Asked, Refusal>
    ensures { says_asked result ≡ asked_at place octets.now }
{
    if octets::MOST_OCTETS < octets.len() {
        return Err(Refusal::TooManyOctets);
    }
    if 0 < octets.len() && opens_group(octets[0], octets::CALL_FUNCTION) {
        return walk(octets, place);
    }
    Err(Refusal::NoCallFunction)
}

// Whether a menu offers one item, without the whole menu read: each octet is read once, and none behind the one that decides.
pub fn asks(octets: &[u8], item: Item) -> Result<Asked, Refusal>
    ensures { says_asked result ≡ asked octets.now item.0 }
{
    let place = items::mode_place(item).ok_or(Refusal::WrongEvent)?;
    ask_at(octets, place)
}

// The PCM options of one end that pair with those of the other: b5 with b6, b6 with b5, b7 with b7.
#[tactic(auto, unfolding(crate::specs::Pcm::paired))]
pub fn paired_options(theirs: u8, ours: u8) -> u8
    ensures { result ≡ paired theirs ours }
{
    let b5 = (ours % 2) * (theirs / 2 % 2);
    let b6 = (ours / 2 % 2) * (theirs % 2);
    let b7 = (ours / 4 % 2) * (theirs / 4 % 2);
    b5 + 2 * b6 + 4 * b7
}
