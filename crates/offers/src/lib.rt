// Menus we make: what CM and JM offer, both as octets, and the call function octet.
#![tactic(auto, unfolding(laws::specs::Logic::when, laws::specs::Logic::both, laws::specs::Logic::either, crate::specs::Making::source_of, refusals::specs::Lent::put))]

ghost use Rattle.std.specs.Prelude.{◌≡◌, true, false, Some, ◌<◌, ◌≤◌, length, take};
ghost use Rattle.laws.specs.Logic.{when};
ghost use Rattle.refusals.specs.Lent.{Meets};
ghost use Rattle.octets.specs.Octets.{call_function_tag, category_octet};
ghost use Rattle.octets.specs.Lists.{readable};
ghost use Rattle.menus.specs.Offer.{offer_of};
ghost use Rattle.records.specs.Record.{bad_record};
ghost use Rattle.offers.specs.Offering.{bit, with_item_0, access_options, cm_offer, with_item_1, jm_offer};
ghost use Rattle.offers.specs.Making.{modulation_group, house_count, menu_of, source_of, call_function, front_of, made_cm, modulation_count, made_jm};
ghost use Rattle.offers.specs.Inner.{lone_octet, Writes, put_menu};

use items::Item;
use menus::Offer;
use octets::{CALL_FUNCTION, MOST_OCTETS};
use records::Record;
use refusals::Refusal;

// The octets of a modulation group, but for a JM with no mode in common; and those of a menu with all groups then.
const HOUSE_COUNT: u8 = 3;

const LONGEST_MENU: usize = 7;

// Where the call function octet of a JM stands: in the heard CM, in our own one, or nowhere.
#[derive(Clone, Copy, Debug, PartialEq, Eq)]
pub enum Source {
    Neither,
    Heard,
    Own,
}

// A menu to write: the call function octet, how many octets its modulation group has, and what it offers.
#[derive(Drop)]
struct Menu {
    call: u8,
    count: u8,
    offer: Offer,
    ghost call_says: { call ≡ category_octet call_function_tag offer.function },
}

// Item 0 as it is told, and the other items of the set.
fn with_item_0(there: bool, items: u16) -> u16
    ensures { result ≡ with_item_0 there items }
{
    items / 2 * 2 + u16::from(there)
}

// PCM b5 and b6 only where item 1 is shared.
fn with_item_1(shared: bool, options: u8) -> u8
    ensures { result ≡ with_item_1 shared options }
{
    if shared { options } else { options / 4 * 4 }
}

// The options of an access group, b5 lowest, or 0 where it is not there.
fn access_options(there: bool, caller: bool, answerer: bool, digital: bool) -> u8
    ensures { result ≡ access_options there (bit caller) (bit answerer) (bit digital) }
{
    if there {
        u8::from(caller) + 2 * u8::from(answerer) + 4 * u8::from(digital)
    } else {
        0
    }
}

// What our CM offers for a function.
fn cm_offer(own: Record, function: u8) -> Offer
    ensures { result ≡ cm_offer own function }
{
    let modes = records::in_use(own, function);
    let pcm = modes.pcm;
    let access = own.access == 1 || 0 < pcm;
    Offer {
        function,
        items: with_item_0(0 < pcm, modes.items),
        pcm,
        lapm: own.lapm == 1,
        access,
        access_options: access_options(access, own.cellular == 1, false, own.digital == 1),
    }
}

// The function of a JM: the asked one where it is available, otherwise the home function.
fn answered_function(available: bool, asked: u8, home: u8) -> u8
    ensures { result ≡ when available asked home }
{
    if available { asked } else { home }
}

// What our JM offers for what a heard CM offers.
fn jm_offer(own: Record, cm: Offer) -> Offer
    ensures { result ≡ jm_offer own cm }
{
    let modes = records::in_use(own, cm.function);
    let shared = modes.items & cm.items;
    let pcm = with_item_1(
        items::in_set(shared, Item(1)),
        menus::paired_options(cm.pcm, modes.pcm),
    );
    let caller = cm.access_options % 2 == 1;
    let access = own.access == 1 || caller || 0 < pcm;
    let lapm = cm.lapm && own.lapm == 1;
    Offer {
        function: answered_function(modes.available == 1, cm.function, own.home),
        items: with_item_0(0 < pcm, shared),
        pcm,
        lapm,
        access,
        access_options: access_options(access, caller, own.cellular == 1, own.digital == 1),
    }
}

// A group of one octet, if it is there. Answers how many octets that is.
fn write_octet(out: &mut [u8], octet: Option<u8>) -> usize
    requires { length (lone_octet octet) ≤ length out.old }
    ensures { Writes (lone_octet octet) out.old result out.new }
{
    match octet {
        Some(octet) => {
            out[0] = octet;
            1
        }
        None => 0,
    }
}

// A modulation group of so many octets. Answers how many that is.
fn write_modulation(out: &mut [u8], count: u8, items: u16) -> usize
    requires { count ≤ length out.old }
    ensures { Writes (modulation_group count items) out.old result out.new }
{
    for k in 0..count {
        out[k as usize] = items::modulation_octet(items, k);
    }
    count as usize
}

impl Menu {
    // How many octets it has.
    fn size(&self) -> usize
        ensures { result ≡ length (menu_of self.now.count self.now.offer) }
    {
        1 + usize::from(self.count)
            + usize::from(0 < self.offer.pcm)
            + usize::from(self.offer.lapm)
            + usize::from(self.offer.access)
    }

    // Writes it, each group into what is left behind the group before it. Answers how many octets it has.
    fn write(&self, out: &mut [u8]) -> usize
        requires { length (menu_of self.now.count self.now.offer) ≤ length out.old }
        ensures { Writes (menu_of self.now.count self.now.offer) out.old result out.new }
    {
        let offer = self.offer;
        let pcm = octets::category_octet(menus::PCM, offer.pcm);
        let protocol = octets::category_octet(menus::PROTOCOL, menus::LAPM);
        let access = octets::category_octet(menus::ACCESS, offer.access_options);
        let mut at = write_octet(out, Some(self.call));
        at += write_modulation(&mut out[at..], self.count, offer.items);
        at += write_octet(&mut out[at..], (0 < offer.pcm).then_some(pcm));
        at += write_octet(&mut out[at..], offer.lapm.then_some(protocol));
        at + write_octet(&mut out[at..], offer.access.then_some(access))
    }

    // Writes it with the field of these blocks behind it, where it is not too long, the blocks are some and there is room for all of it.
    fn put(&self, blocks: &[u8], out: &mut [u8]) -> Result<usize, Refusal>
        ensures { Meets (put_menu self.now.count self.now.offer blocks.now out.old) result out.new }
    {
        let whole = self.size() + fields::field_size(blocks);
        if MOST_OCTETS < whole {
            return Err(Refusal::TooManyOctets);
        }
        if !fields::are_blocks(blocks) {
            return Err(Refusal::BadBlock);
        }
        if out.len() < whole {
            return Err(Refusal::ShortBuffer);
        }
        let size = self.write(out);
        let field = fields::put_field(blocks, &mut out[size..])?;
        Ok(size + field)
    }
}

// Our CM for a function.
fn cm_menu(own: Record, function: u8) -> Menu
    ensures count { result.count ≡ house_count }
    ensures offer { result.offer ≡ cm_offer own function }
{
    Menu {
        call: octets::category_octet(CALL_FUNCTION, function),
        count: HOUSE_COUNT,
        offer: cm_offer(own, function),
    }
}

// Makes the CM for a function, with the octets of our own blocks in its field, and answers how many octets it has.
pub fn make_cm(own: Record, function: u8, blocks: &[u8], out: &mut [u8]) -> Result<usize, Refusal>
    ensures { Meets (made_cm own function blocks.now out.old) result out.new }
{
    if records::bad(own) {
        return Err(Refusal::BadRecord);
    }
    if records::in_use(own, function).available != 1 {
        return Err(Refusal::NoCallFunction);
    }
    cm_menu(own, function).put(blocks, out)
}

// In which of two menus the call function octet of a JM stands.
pub fn call_source(own: Record, heard_cm: &[u8], own_cm: &[u8]) -> Source
    ensures { result ≡ source_of own heard_cm.now own_cm.now }
{
    if records::bad(own) {
        return Source::Neither;
    }
    if octets::can_read(heard_cm) && octets::can_read(own_cm) {
        let modes = records::in_use(own, menus::options_in(heard_cm));
        if modes.available == 1 {
            return Source::Heard;
        }
        return Source::Own;
    }
    Source::Neither
}

// The first octet, where there is one.
fn first_of(octets: &[u8]) -> &[u8]
    ensures result_value { result.now ≡ take 1 octets.now }
    ensures ref_ptr_value { result.ref_ptr ≡ octets.entry.ref_ptr }
{
    let end = octets.len().min(1);
    &octets[..end]
}

// The call function octet of a JM, as a part of one of two lent menus: the heard CM, or our own one for the home function.
pub fn call_function<'a>(own: Record, heard_cm: &'a [u8], own_cm: &'a [u8]) -> &'a [u8]
    ensures result_value { result.now ≡ call_function own heard_cm.now own_cm.now }
    ensures ref_ptr_value { result.ref_ptr ≡ front_of (source_of own heard_cm.now own_cm.now) heard_cm.entry.ref_ptr own_cm.entry.ref_ptr }
{
    match call_source(own, heard_cm, own_cm) {
        Source::Heard => first_of(heard_cm),
        Source::Own => first_of(own_cm),
        Source::Neither => &heard_cm[0..0],
    }
}

// The call function octet of the JM for a heard CM: our own CM for the home function is made to find it there.
fn answer_octet(own: Record, heard_cm: &[u8]) -> u8
    requires own_value { bad_record own ≡ false }
    requires heard_cm_value { readable heard_cm.now ≡ true }
    ensures { result ≡ category_octet call_function_tag (jm_offer own (offer_of heard_cm.now)).function }
{
    let mut own_cm = [0u8; LONGEST_MENU];
    let size = cm_menu(own, own.home).write(&mut own_cm);
    let part = call_function(own, heard_cm, &own_cm[..size]);
    part[0]
}

// The octets of a JM's modulation group: as many as the heard CM has in its first one, where no mode is in common.
fn modulation_count(jm: Offer, heard_cm: &[u8]) -> u8
    requires { readable heard_cm.now ≡ true }
    ensures { result ≡ modulation_count jm heard_cm.now }
{
    if 1 < jm.items {
        HOUSE_COUNT
    } else {
        menus::group_size(heard_cm, items::MODULATION) as u8
    }
}

// Makes the JM for a heard CM, and answers how many octets it has.
#[tactic(auto, using(menus::proofs::Reading::read_offered, menus::proofs::Reading::read_refused), unfolding(laws::specs::Logic::when, refusals::specs::Lent::put))]
pub fn make_jm(own: Record, heard_cm: &[u8], out: &mut [u8]) -> Result<usize, Refusal>
    ensures { Meets (made_jm own heard_cm.now out.old) result out.new }
{
    if records::bad(own) {
        return Err(Refusal::BadRecord);
    }
    let theirs = menus::read(heard_cm)?;
    let offer = jm_offer(own, theirs);
    let jm = Menu {
        call: answer_octet(own, heard_cm),
        count: modulation_count(offer, heard_cm),
        offer,
    };
    jm.put(&[], out)
}
