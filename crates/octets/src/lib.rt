// The bits of an octet, the kinds of octets, and the tests of an octet list.
#![tactic(auto)]

ghost use Rattle.std.specs.Prelude.{◌≡◌, ◌+◌, drop};
ghost use Rattle.laws.specs.Tests.{same_list};
ghost use Rattle.refusals.specs.Refusals.{fault};
ghost use Rattle.octets.specs.Octets.{category, tag, options, category_octet, bad};
ghost use Rattle.octets.specs.Lists.{category_fault, octet_fault, first_fault, opens, list_fault, readable, group_ends};

use refusals::Refusal;

// The tag of the call function, with which every message opens.
pub const CALL_FUNCTION: u8 = 1;

// What a message has at most.
pub const MOST_OCTETS: usize = 64;

// The two kinds of messages with a preamble.
#[derive(Clone, Copy, Debug, PartialEq, Eq)]
pub enum Kind {
    Ci,
    Menu,
}

// What an octet list is tested for.
#[derive(Clone, Copy, Debug, PartialEq, Eq)]
pub enum Purpose {
    Reading,
    Writing(Kind),
}

pub fn is_category(b: u8) -> bool
    ensures { result ≡ category b }
{
    b / 16 % 2 == 0
}

pub fn tag_of(b: u8) -> u8
    ensures { result ≡ tag b }
{
    b % 16
}

pub fn options_of(b: u8) -> u8
    ensures { result ≡ options b }
{
    b / 32 % 8
}

// The category octet with this tag and these options, of which an octet holds the lowest four bits and the lowest three.
pub fn category_octet(tag: u8, options: u8) -> u8
    ensures { result ≡ category_octet tag options }
{
    tag % 16 + 32 * (options % 8)
}

pub fn is_bad(b: u8) -> bool
    ensures { result ≡ bad b }
{
    b / 16 % 2 == 1 && (b / 8 % 2 == 1 || b / 32 % 2 == 1)
}

// A later category octet with this tag.
fn test_category(purpose: Purpose, t: u8) -> Result<(), Refusal>
    ensures { fault result ≡ category_fault purpose t }
{
    match purpose {
        Purpose::Reading => Ok(()),
        Purpose::Writing(kind) => match kind {
            Kind::Ci => Err(Refusal::WrongCategory),
            Kind::Menu => {
                if t == 0 {
                    Err(Refusal::WrongCategory)
                } else {
                    Ok(())
                }
            }
        },
    }
}

// An octet behind the first.
fn test_octet(purpose: Purpose, b: u8) -> Result<(), Refusal>
    ensures { fault result ≡ octet_fault purpose b }
{
    if is_bad(b) {
        return Err(Refusal::BadOctet);
    }
    if is_category(b) {
        return test_category(purpose, tag_of(b));
    }
    Ok(())
}

// The octets behind the first.
fn test_rest(purpose: Purpose, octets: &[u8]) -> Result<(), Refusal>
    ensures { fault result ≡ first_fault purpose octets.now }
{
    for b in octets {
        test_octet(purpose, *b)?;
    }
    Ok(())
}

// The first octet: the call function's.
fn test_first(octets: &[u8]) -> bool
    ensures { result ≡ opens octets.now }
{
    0 < octets.len() && (is_category(octets[0]) && tag_of(octets[0]) == CALL_FUNCTION)
}

// Whether reading or writing the octets is refused: 4, 5, then 3 or 12 at the first bad octet.
pub fn test(purpose: Purpose, octets: &[u8]) -> Result<(), Refusal>
    ensures { fault result ≡ list_fault purpose octets.now }
{
    if MOST_OCTETS < octets.len() {
        return Err(Refusal::TooManyOctets);
    }
    if test_first(octets) {
        return test_rest(purpose, &octets[1..]);
    }
    Err(Refusal::NoCallFunction)
}

// Whether reading the octets gives no refusal.
pub fn can_read(octets: &[u8]) -> bool
    ensures { result ≡ readable octets.now }
{
    test(Purpose::Reading, octets).is_ok()
}

// Whether a group that stands before this place ends there: no octet follows, or one with b4 = 0.
pub fn group_ends(octets: &[u8], i: usize) -> bool
    ensures { result ≡ group_ends octets.now i }
{
    octets.len() <= i || is_category(octets[i])
}

// Whether two octet lists are the same. Place by place and no `==`: by that its two wrong programs, of the lengths and of the first octet,
// could not be told from right ones.
pub fn same(a: &[u8], b: &[u8]) -> bool
    ensures { result ≡ same_list a.now b.now }
{
    if a.len() != b.len() {
        return false;
    }
    for i in 0..a.len() {
        if a[i] != b[i] {
            return false;
        }
    }
    true
}
