//! One item of a choice text: a word, or the three words of a seed. Its faults are judged in one order, so that a text with
//! several gets the same refusal each time.

ghost use Rattle.std.specs.Prelude.{◌≡◌, ◌<◌, ◌≤◌, ◌+◌, ◌-◌, ◌^◌, ◌++◌, ℕ, Ok, Err, length, drop, codes, IfOk, IfErr, OnOk};
ghost use Rattle.std.specs.Str.{bytes_eq};
ghost use Rattle.scheduler.specs.Words.{words_of_text};
ghost use Rattle.scheduler.specs.inner.Reading.{made_of, words_in, choice_kind_of, choice_by, one_of, seed_of, seeded_of, item_of};
ghost use Rattle.scheduler.specs.inner.ItemsRead.{IsItemRead};
ghost use Rattle.scheduler.specs.declared.item.ChoiceItem.TheVariants.{One};

use crate::fault::ChoiceFault;
use crate::seeds::push_seeded;
use crate::words::{capped_number, first_word, is_numeral};
use tso_terms::decimals::number_up_to;
use tso_terms::{Choice, Core, NoMemory};

/// What a core is to do.
#[derive(Clone, Copy)]
pub enum ChoiceKind {
    Step,
    Drain,
}

impl ChoiceKind {
    #[tactic(auto, unfolding(crate::specs::inner::Reading::choice_kind_of))]
    fn of(letter: u8) -> Option<ChoiceKind>
        ensures { result ≡ choice_kind_of letter }
    {
        match letter {
            b's' => Some(ChoiceKind::Step),
            b'd' => Some(ChoiceKind::Drain),
            _ => None,
        }
    }

    fn by(self, core: Core) -> Choice
        ensures { result ≡ choice_by self core.0 }
    {
        match self {
            ChoiceKind::Step => Choice::Step(core),
            ChoiceKind::Drain => Choice::Drain(core),
        }
    }
}

/// An item: one word that is a choice, or the three words `seed N M` for the first M choices of the seed N.
#[derive(Clone, Copy)]
pub enum ChoiceItem {
    One(Choice),
    Seeded(u64, usize),
}

impl ChoiceItem {
    /// How many words it has.
    pub fn words(self) -> usize
        ensures { result ≡ words_in self }
    {
        match self {
            ChoiceItem::One(_) => 1,
            ChoiceItem::Seeded(..) => 3,
        }
    }

    /// How many choices it has.
    pub fn choices(self) -> usize
        ensures { (cores : ℕ) → length (made_of cores self) ≡ result }
    {
        match self {
            ChoiceItem::One(_) => 1,
            ChoiceItem::Seeded(_, count) => count,
        }
    }

    /// Appends its choices. Errors: out of memory only; the list may have some of them then.
    pub fn push_to(self, choices: &mut Vec<Choice>, cores: u8) -> Result<(), NoMemory>
        requires { 0 < cores }
        ensures { OnOk result (choices.new.items ≡ choices.old.items ++ made_of cores self) }
    {
        match self {
            ChoiceItem::One(choice) => choices.push(choice)?,
            ChoiceItem::Seeded(seed, count) => push_seeded(choices, cores, seed, count)?,
        }
        Ok(())
    }
}

/// An item that was read, and what comes after its words.
#[derive(Clone, Copy)]
pub struct ItemRead<'a> {
    pub item: ChoiceItem,
    pub after: &'a [u8],
}

/// Reads a word that is to be digits and the letter of a step or a drain, where `room` choices more are allowed.
#[inline(always)]
pub fn read_one(cores: u8, room: usize, number: usize, word: &[u8]) -> Result<Choice, ChoiceFault>
    requires { 0 < cores }
    ensures choice { IfOk result (λ choice. one_of cores room number word.now ≡ Ok (One choice)) }
    ensures fault { IfErr result (λ fault. one_of cores room number word.now ≡ Err fault) }
{
    let Some((letter, digits)) = word.split_last() else {
        return Err(ChoiceFault::BadWord(number));
    };
    let Some(action) = ChoiceKind::of(*letter) else {
        return Err(ChoiceFault::BadWord(number));
    };
    let Some(core) = capped_number(cores, digits) else {
        return Err(ChoiceFault::BadWord(number));
    };
    if core == cores {
        return Err(ChoiceFault::NoSuchCore(number));
    }
    if room == 0 {
        return Err(ChoiceFault::TooMany(number));
    }
    Ok(action.by(Core(core)))
}

/// Whether a word begins the choices of a seed.
pub fn is_seed(word: &[u8]) -> bool
    ensures { result ≡ bytes_eq word.now (codes "seed") }
{
    // A comparison of slices is a call, which costs more than the word's four bytes.
    matches!(word, [b's', b'e', b'e', b'd'])
}

/// The seed that a word says, if it is a number below 2^64.
#[tactic(auto, unfolding(crate::specs::inner::Reading::seed_of))]
fn seed_of(word: &[u8]) -> Option<u64>
    ensures { result ≡ seed_of word.now }
{
    if is_numeral(word) {
        number_up_to(u64::MAX, word)
    } else {
        None
    }
}

/// Reads the two words after `seed`, whose own number is `number`, where `room` choices more are allowed.
pub fn read_seeded(room: usize, number: usize, text: &[u8]) -> Result<ItemRead<'_>, ChoiceFault>
    requires { number + length text.now < 2 ^ 64 }
    ensures item { IsItemRead (seeded_of room number (words_of_text text.now)) result }
    ensures after { IfOk result (λ r. words_of_text r.after.now ≡ drop (words_in r.item - 1) (words_of_text text.now)) }
    ensures shorter { IfOk result (λ r. words_in r.item + length r.after.now ≤ 1 + length text.now) }
{
    let Some((seed, text)) = first_word(text) else {
        return Err(ChoiceFault::BadWord(number));
    };
    let Some((count, after)) = first_word(text) else {
        return Err(ChoiceFault::BadWord(number));
    };
    let Some(seed) = seed_of(seed) else {
        return Err(ChoiceFault::BadWord(number + 1));
    };
    if !is_numeral(count) {
        return Err(ChoiceFault::BadWord(number + 2));
    }
    let Some(count) = number_up_to(room as u64, count) else {
        return Err(ChoiceFault::TooMany(number));
    };
    let item = ChoiceItem::Seeded(seed, count as usize);
    Ok(ItemRead { item, after })
}

/// Reads the item that begins with a word, whose number is `number`, where `room` choices more are allowed. After the
/// word stands this text.
#[tactic(auto, unfolding(crate::specs::inner::Reading::item_of))]
pub fn read_item<'a>(
    cores: u8,
    room: usize,
    number: usize,
    word: &[u8],
    text: &'a [u8],
) -> Result<ItemRead<'a>, ChoiceFault>
    requires there { 0 < cores }
    requires numbered { number + length text.now < 2 ^ 64 }
    ensures item { IsItemRead (item_of cores room number word.now (words_of_text text.now)) result }
    ensures after { IfOk result (λ r. words_of_text r.after.now ≡ drop (words_in r.item - 1) (words_of_text text.now)) }
    ensures shorter { IfOk result (λ r. words_in r.item + length r.after.now ≤ 1 + length text.now) }
{
    if is_seed(word) {
        read_seeded(room, number, text)
    } else {
        let item = ChoiceItem::One(read_one(cores, room, number, word)?);
        Ok(ItemRead { item, after: text })
    }
}
