//! What the text of a line states.
ghost use Rattle.std.specs.Prelude.{◌≡◌, ◌<◌, ◌^◌, ◌∷◌, [], codes, false, length, IfNone, IfSome};
ghost use Rattle.cert_format.specs.Grammar.{has_shape, line_fault, number_fault, number_in, value_unless, words, words_fault, WithinBut};
ghost use Rattle.cert_format.specs.Readings.{is_warmup};
ghost use Rattle.budget_format.specs.Grammar.{budget_in, budget_slots, full_slots, record_in, record_of, record_slots};
ghost use Rattle.budget_format.specs.Grammar.{short_slots, tenth_in, tenth_slots};

use crate::certificates::{Budget, BudgetRecord, TenthLine};
use cert_format::{TextKind, cut, keep_of, number_after, number_of, word_after};

// The numbers of a line, if it has the words of a budget and its price.
fn budget_words(text: &[u8]) -> Option<(&[u8], &[u8])>
    ensures words { IfSome result (λ w. words text.now ≡ codes "budget" ∷ w.0.now ∷ codes "price" ∷ w.1.now ∷ []) }
    ensures some { IfSome result (λ w. (0 < length w.0.now) × (0 < length w.1.now)) }
    ensures none { IfNone result (has_shape budget_slots (words text.now) ≡ false) }
{
    let (name, rest) = cut(text)?;
    let (bytes, rest) = cut(rest)?;
    let price = word_after(rest, b"price")?;
    if name == b"budget".as_slice() && !bytes.is_empty() {
        Some((bytes, price))
    } else {
        None
    }
}

/// The budget of a line, and its price.
pub fn budget_after(text: &[u8]) -> Result<Budget, TextKind>
    ensures { result ≡ value_unless (line_fault budget_slots text.now) (budget_in text.now) }
{
    let Some((bytes, price)) = budget_words(text) else {
        return Err(TextKind::Shape);
    };
    Ok(Budget {
        bytes: number_of(bytes, 0, 1 << 80)?,
        price: number_of(price, 0, 1 << 126)?,
    })
}

// Whether a line states a warm-up, by its first word.
fn states_warmup(text: &[u8]) -> bool
    ensures { result ≡ is_warmup text.now }
{
    let word = match cut(text) {
        Some((first, _)) => first,
        None => text,
    };
    word == b"warmup".as_slice()
}

/// What the line after the lower bound states.
pub fn tenth_after(text: &[u8]) -> Result<TenthLine, TextKind>
    ensures { result ≡ value_unless (line_fault (tenth_slots text.now) text.now) (tenth_in text.now) }
{
    if states_warmup(text) {
        let warmup = number_after(text, b"warmup", 1, 1 << 25)?;
        return Ok(TenthLine::Warmup(warmup as u32));
    }
    Ok(TenthLine::Budget(budget_after(text)?))
}

// The price of a word, which is not equal to the price `before`.
fn price_of(word: &[u8], before: u128) -> Result<u128, TextKind>
    ensures { result ≡ value_unless (number_fault (WithinBut 0 (2 ^ 126) before) word.now) (number_in word.now) }
{
    let price = number_of(word, 0, 1 << 126)?;
    if price == before {
        return Err(TextKind::Range);
    }
    Ok(price)
}

// The record of a line of one word, after one of the price `before`.
fn short_record(keep: &[u8], before: u128) -> Result<BudgetRecord, TextKind>
    ensures { result ≡ value_unless (words_fault short_slots (keep.now ∷ [])) (record_of before keep.now) }
{
    match keep_of(keep) {
        Some(keep) => Ok(BudgetRecord {
            price: before,
            keep,
        }),
        None => Err(TextKind::Shape),
    }
}

// The record of a line of more words, of which the first is the price, after one of the price `before`.
fn full_record(price: &[u8], rest: &[u8], before: u128) -> Result<BudgetRecord, TextKind>
    ensures { result ≡ value_unless (words_fault (full_slots before) (price.now ∷ words rest.now)) (record_of (number_in price.now) rest.now) }
{
    if price.is_empty() {
        return Err(TextKind::Shape);
    }
    match keep_of(rest) {
        Some(keep) => Ok(BudgetRecord {
            price: price_of(price, before)?,
            keep,
        }),
        None => Err(TextKind::Shape),
    }
}

/// The record of a line, after one of the price `before`.
pub fn record_after(text: &[u8], before: u128) -> Result<BudgetRecord, TextKind>
    ensures { result ≡ value_unless (line_fault (record_slots before text.now) text.now) (record_in before text.now) }
{
    match cut(text) {
        Some((price, rest)) => full_record(price, rest, before),
        None => short_record(text, before),
    }
}
