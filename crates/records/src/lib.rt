// Records: what an end can do, the test of a record, and the set in use for a function.
#![tactic(auto, unfolding(laws::specs::Logic::when, laws::specs::Logic::either))]

ghost use Rattle.std.specs.Prelude.{◌≡◌};
ghost use Rattle.records.specs.Record.{no_modes, outside, lacks_item_1, bad_modes, bad_flags, in_use, bad_record};

// The weight of item 13 in a set: there is none.
const ITEM_13: u16 = 8192;

// b5, b6 and b7 of a PCM group.
const ALL_OPTIONS: u8 = 7;

// What an end has for one call function: 1 where it is available, otherwise 0; items as a set, bit i for item i; PCM options with b5
// lowest. C fills in this struct and the next one, so each test in them is a number, and one that is neither 0 nor 1 is refused by `bad`.
#[repr(C)]
#[derive(Clone, Copy, Debug, Default, PartialEq, Eq)]
pub struct Modes {
    pub available: u8,
    pub pcm: u8,
    pub items: u16,
}

// What an end can do: functions 1 to 6 in turn, the home function, what is wanted, and what the line is; 1 for yes, 0 for no.
#[repr(C)]
#[derive(Clone, Copy, Debug, PartialEq, Eq)]
pub struct Record {
    pub functions: [Modes; 6],
    pub home: u8,
    pub lapm: u8,
    pub access: u8,
    pub cellular: u8,
    pub digital: u8,
}

// What the record has for a function: no modes where it is not available, and for a number that is no function.
pub fn in_use(own: Record, function: u8) -> Modes
    ensures { result ≡ in_use own function }
{
    let Some(at) = function.checked_sub(1) else {
        return Modes::default();
    };
    match own.functions.get(at as usize) {
        Some(modes) if modes.available == 1 => *modes,
        _ => Modes::default(),
    }
}

// An item outside 1 to 12.
fn is_outside(items: u16) -> bool
    ensures { result ≡ outside items }
{
    items % 2 == 1 || ITEM_13 <= items
}

// PCM b5 or b6 without item 1.
fn lacks_item_1(pcm: u8, items: u16) -> bool
    ensures { result ≡ lacks_item_1 pcm items }
{
    pcm % 4 != 0 && items / 2 % 2 == 0
}

fn bad_modes(modes: Modes) -> bool
    ensures { result ≡ bad_modes modes }
{
    1 < modes.available
        || is_outside(modes.items)
        || ALL_OPTIONS < modes.pcm
        || lacks_item_1(modes.pcm, modes.items)
}

fn bad_flags(own: Record) -> bool
    ensures { result ≡ bad_flags own }
{
    1 < own.lapm || 1 < own.access || 1 < own.cellular || 1 < own.digital
}

// The test for 10: the home function, and all six functions, available or not.
pub fn bad(own: Record) -> bool
    ensures { result ≡ bad_record own }
{
    let home = in_use(own, own.home);
    home.available != 1 || bad_flags(own) || own.functions.iter().any(|modes| bad_modes(*modes))
}
