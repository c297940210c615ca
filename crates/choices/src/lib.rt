// Choices: what both ends go on with, from the menus of both.
#![tactic(auto, unfolding(laws::specs::Logic::when, laws::specs::Logic::both, crate::specs::Choosing::pcm_choice, crate::specs::Choosing::item_choice, crate::specs::Choosing::chosen_from))]

ghost use Rattle.std.specs.Prelude.{◌≡◌};
ghost use Rattle.choices.specs.Choosing.{lowest, says_choice, pcm_choice, item_choice, chosen_from, choice_of};
ghost use Rattle.choices.specs.Inner.{item_of};

use items::Item;
use menus::Offer;
use refusals::Refusal;

// What both ends go on with.
#[derive(Clone, Copy, Debug, PartialEq, Eq)]
pub enum Choice {
    Nothing,
    Mode(Item),
    Pcm(u8),
}

// The lowest item from 1 to 12.
fn lowest_item(items: u16) -> Option<Item>
    ensures { result ≡ item_of (lowest items) }
{
    (1..items::ITEMS)
        .find(|i| items::in_set(items, Item(*i)))
        .map(Item)
}

// PCM with the options that pair, where the functions are the same and an option pairs.
fn pcm_choice(same_function: bool, options: u8) -> Result<Choice, Refusal>
    ensures { says_choice result ≡ pcm_choice same_function options }
{
    if same_function && 0 < options {
        Ok(Choice::Pcm(options))
    } else {
        Err(Refusal::NotOffered)
    }
}

// The lowest item of JM, where there is one, the functions are the same and CM has it.
fn item_choice(same_function: bool, cm_items: u16, jm_items: u16) -> Result<Choice, Refusal>
    ensures { says_choice result ≡ item_choice same_function cm_items (lowest jm_items) }
{
    let Some(item) = lowest_item(jm_items) else {
        return Ok(Choice::Nothing);
    };
    if same_function && items::in_set(cm_items, item) {
        Ok(Choice::Mode(item))
    } else {
        Err(Refusal::NotOffered)
    }
}

// The choice from what both menus offer: PCM where it counts in JM, otherwise the lowest item of JM.
fn choice_from(cm: Offer, jm: Offer) -> Result<Choice, Refusal>
    ensures { says_choice result ≡ chosen_from cm jm }
{
    let same_function = cm.function == jm.function;
    if 0 < jm.pcm {
        pcm_choice(same_function, menus::paired_options(cm.pcm, jm.pcm))
    } else {
        item_choice(same_function, cm.items, jm.items)
    }
}

// The choice from CM and JM: nothing, an item, PCM with the options that pair, or a refusal.
pub fn choice_of(cm: &[u8], jm: &[u8]) -> Result<Choice, Refusal>
    ensures { says_choice result ≡ choice_of cm.now jm.now }
{
    let theirs = menus::read(cm)?;
    let ours = menus::read(jm)?;
    choice_from(theirs, ours)
}
