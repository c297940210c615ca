// Items: where they stand in the modulation group, and sets of them as numbers.
#![tactic(auto, using(laws::proofs::Cases::cases), unfolding(laws::specs::Logic::when, laws::specs::Logic::both))]

ghost use Rattle.std.specs.Prelude.{◌≡◌, ◌+◌, ◌*◌, ◌/◌, ◌%◌, ◌<◌, ◌≤◌, eqb};
ghost use Rattle.laws.specs.Logic.{when};
ghost use Rattle.items.specs.Items.{place_of, is_mode, mode_place, bit_of, has_item, items_of, in_set, no_items, modulation_octet};

// The tag of the modulation group.
pub const MODULATION: u8 = 5;

// How many items there are, 0 to 12.
pub const ITEMS: u8 = 13;

// The items that are modes.
const FIRST_MODE: u8 = 1;

const LAST_MODE: u8 = 12;

// An extension octet that says no items: b4 alone.
const NO_ITEMS: u8 = 16;

// An item of the modulation group, and a bit of an octet: one cannot be passed where the other belongs.
#[derive(Clone, Copy, Debug, PartialEq, Eq)]
pub struct Item(pub u8);

#[derive(Clone, Copy, Debug, PartialEq, Eq)]
pub struct Bit(pub u8);

// Where an item stands in the modulation group: in which of its octets, and in which bit of that.
#[derive(Clone, Copy, Debug, PartialEq, Eq)]
pub struct ItemPlace {
    pub octet: u8,
    pub bit: Bit,
}

// The places of items 0 to 12: 8 for each octet before it, and the bit.
const PLACES: [u8; 13] = [5, 6, 7, 8, 9, 10, 14, 15, 16, 17, 18, 22, 23];

fn place_of(item: Item) -> ItemPlace
    requires { item.0 < 13 }
    ensures { result ≡ place_of item.0 }
{
    let i = item.0 as usize;
    let place = PLACES[i];
    ItemPlace {
        octet: place / 8,
        bit: Bit(place % 8),
    }
}

fn is_mode(item: Item) -> bool
    ensures { result ≡ is_mode item.0 }
{
    FIRST_MODE <= item.0 && item.0 <= LAST_MODE
}

// Where a mode stands; an item that is none stands nowhere.
pub fn mode_place(item: Item) -> Option<ItemPlace>
    ensures { result ≡ mode_place item.0 }
{
    if is_mode(item) {
        return Some(place_of(item));
    }
    None
}

// Whether a bit of an octet is 1; none above b7 is.
pub fn has_bit(b: u8, bit: Bit) -> bool
    ensures { result ≡ eqb (bit_of bit.0 b) 1 }
{
    bit.0 < 8 && (b >> bit.0) % 2 == 1
}

fn has_item(group: &[u8], item: Item) -> bool
    requires { item.0 < 13 }
    ensures { result ≡ has_item group.now item.0 }
{
    let place = place_of(item);
    let at = place.octet as usize;
    at < group.len() && has_bit(group[at], place.bit)
}

fn with_item(set: u16, weight: u16, there: bool) -> u16
    requires set_lt_weight { set < weight }
    requires weight_bound { weight ≤ 8192 }
    ensures { result ≡ set + when there weight 0 }
{
    if there {
        return set + weight;
    }
    set
}

// The items of a modulation group, bit i for item i; those past a short group are absent.
pub fn items_in(group: &[u8]) -> u16
    ensures { result ≡ items_of group.now }
{
    let mut set: u16 = 0;
    let mut weight: u16 = 1;
    for i in 0..ITEMS {
        set = with_item(set, weight, has_item(group, Item(i)));
        weight *= 2;
    }
    set
}

// Whether an item is in a set; none above 15 is.
pub fn in_set(items: u16, item: Item) -> bool
    ensures { result ≡ in_set items item.0 }
{
    item.0 < 16 && (items >> item.0) % 2 == 1
}

// An extension octet with its five bits for items: b0, b1, b2, b6, b7.
fn extension_octet(five: u16) -> u8
    ensures { result ≡ no_items + five % 8 + 64 * (five / 8 % 4) }
{
    NO_ITEMS + (five % 8) as u8 + 64 * ((five / 8 % 4) as u8)
}

// An octet of the modulation group that says these items.
pub fn modulation_octet(items: u16, octet: u8) -> u8
    ensures { result ≡ modulation_octet items octet }
{
    match octet {
        0 => MODULATION + 32 * ((items % 8) as u8),
        1 => extension_octet(items / 8),
        2 => extension_octet(items / 256),
        _ => NO_ITEMS,
    }
}
