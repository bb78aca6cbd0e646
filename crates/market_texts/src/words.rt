//! The words of a text, and the readers of one word.

ghost use Rattle.std.specs.Prelude.{◌≡◌, ◌≤◌, ◌<◌, ◌+◌, [], length, MatchOption, MatchResult};
ghost use Rattle.market_words.specs.Words.{pieces, number_up_to, number_id, above_zero, id_of, key_of};
ghost use Rattle.market_texts.specs.Reading.{word, this_total, cents, quantity, key_words, status_of};
ghost use Rattle.market_texts.specs.Readers.{total, pieces_number, rule_of, stock_rule_of, pay_rule_of};
ghost use Rattle.market_events.specs.WellFormed.{pieces_max, limit_max, amount_max};
ghost use Rattle.market_texts.specs.Cutting.{outcome, WordTaken};

use crate::faults::{BodyError, fault_of_word};
use crate::forms::{cents, quantity, some_number, this_total, wide_number};
use crate::names::{pay_rule, rule, status, stock_rule};
use market_amounts::{Cents, ProductKey, Quantity, RequestId};
use market_events::{OrderStatus, PayRule, Rule, StockRule};
use market_words::{Pieces, id, id_number, key, number_within};
use std::marker::Model;

// The most pieces that are stocked, on hand or reserved.
const MOST_PIECES: u32 = 1_000_000_000;

// The highest limit of a card.
const MOST_LIMIT: u64 = 1_000_000_000_000_000;

/// The words of a text that are left to read, and the number of the first of them.
#[derive(Drop)]
pub(crate) struct Words<'a> {
    place: u32,
    left: Pieces<'a>,
}

impl<'a> Model for Words<'a> {
    ghost use Rattle.market_texts.specs.Reading.{Words as WordsLeft};

    ghost Value = { WordsLeft };

    ghost view = { λ words. record { place = words.place; left = words.left } };
}

impl<'a> Words<'a> {
    // All words of a text.
    pub(crate) fn new(text: &'a [u8]) -> Words<'a>
        ensures place { result.place ≡ 0 }
        ensures left { result.left ≡ pieces 32 text.now }
    {
        Words {
            place: 0,
            left: Pieces::new(text, b' '),
        }
    }

    // The next word with its number, if one is left.
    pub(crate) fn next(&mut self) -> Option<(u32, &'a [u8])>
        requires { self.old.place + 1 ≤ u32.MAX }
        ensures { MatchOption result ((self.old.left ≡ [])
            × (self.new ≡ self.old)) (λ r. WordTaken self.old self.new r.0 r.1.now) }
    {
        let word = self.left.next()?;
        let place = self.place;
        self.place += 1;
        Some((place, word))
    }

    // The next word with its number.
    pub(crate) fn take(&mut self) -> Result<(u32, &'a [u8]), BodyError>
        requires { self.old.place + 1 ≤ u32.MAX }
        ensures reads { MatchResult result (λ r. WordTaken self.old self.new r.0 r.1.now) (λ e. (self.old.left
            ≡ []) × (e ≡ BodyError.Field self.old.place)) }
        ensures one_further { self.new.place ≤ self.old.place + 1 }
    {
        self.next().ok_or(BodyError::Field(self.place))
    }

    // Whether the words end here: a word that is left is one too many.
    pub(crate) fn end(mut self) -> Result<(), BodyError>
        ensures { MatchResult result (λ _. self.entry.left ≡ []) (λ e. (e ≡ BodyError.Extra)
            × (0 < length self.entry.left)) }
    {
        match self.left.next() {
            None => Ok(()),
            Some(_) => Err(BodyError::Extra),
        }
    }

    // A number of 32 bits: it names something or counts it.
    pub(crate) fn number(&mut self) -> Result<u32, BodyError>
        requires { self.old.place + 1 ≤ u32.MAX }
        ensures reads { outcome result self.new ≡ word number_id self.old }
        ensures one_further { self.new.place ≤ self.old.place + 1 }
    {
        let (place, text) = self.take()?;
        id_number(text).map_err(|fault| fault_of_word(fault, place))
    }

    // A number up to a limit.
    fn number_up_to(&mut self, limit: u64) -> Result<u64, BodyError>
        requires { self.old.place + 1 ≤ u32.MAX }
        ensures reads { outcome result self.new ≡ word (number_up_to limit) self.old }
        ensures one_further { self.new.place ≤ self.old.place + 1 }
    {
        let (place, text) = self.take()?;
        number_within(text, limit).map_err(|fault| fault_of_word(fault, place))
    }

    // The total of a checkout.
    pub(crate) fn total(&mut self) -> Result<u64, BodyError>
        requires { self.old.place + 1 ≤ u32.MAX }
        ensures reads { outcome result self.new ≡ total self.old }
        ensures one_further { self.new.place ≤ self.old.place + 1 }
    {
        self.number_up_to(u64::MAX)
    }

    // Pieces on hand or reserved.
    pub(crate) fn pieces(&mut self) -> Result<u64, BodyError>
        requires { self.old.place + 1 ≤ u32.MAX }
        ensures reads { outcome result self.new ≡ pieces_number self.old }
        ensures one_further { self.new.place ≤ self.old.place + 1 }
    {
        self.number_up_to(u64::from(MOST_PIECES))
    }

    // Pieces that are stocked: at least one.
    pub(crate) fn some_pieces(&mut self) -> Result<u32, BodyError>
        requires { self.old.place + 1 ≤ u32.MAX }
        ensures reads { outcome result self.new
            ≡ word (λ text. above_zero (number_up_to pieces_max text)) self.old }
        ensures one_further { self.new.place ≤ self.old.place + 1 }
    {
        let (place, text) = self.take()?;
        some_number(text, MOST_PIECES).map_err(|fault| fault_of_word(fault, place))
    }

    // The limit of a card.
    pub(crate) fn limit(&mut self) -> Result<u64, BodyError>
        requires { self.old.place + 1 ≤ u32.MAX }
        ensures reads { outcome result self.new ≡ word (number_up_to limit_max) self.old }
        ensures one_further { self.new.place ≤ self.old.place + 1 }
    {
        self.number_up_to(MOST_LIMIT)
    }

    // The amount of a dashboard.
    pub(crate) fn amount(&mut self) -> Result<u128, BodyError>
        requires { self.old.place + 1 ≤ u32.MAX }
        ensures reads { outcome result self.new ≡ word (number_up_to amount_max) self.old }
        ensures one_further { self.new.place ≤ self.old.place + 1 }
    {
        let (place, text) = self.take()?;
        wide_number(text).map_err(|fault| fault_of_word(fault, place))
    }

    // A total, which is this sum.
    pub(crate) fn this_total(&mut self, sum: u128) -> Result<u64, BodyError>
        requires { self.old.place + 1 ≤ u32.MAX }
        ensures { outcome result self.new ≡ word (this_total sum) self.old }
    {
        let (place, text) = self.take()?;
        this_total(text, sum).map_err(|fault| fault_of_word(fault, place))
    }

    // A price, a freight or a voucher.
    pub(crate) fn cents(&mut self) -> Result<Cents, BodyError>
        requires { self.old.place + 1 ≤ u32.MAX }
        ensures reads { outcome result self.new ≡ word cents self.old }
        ensures one_further { self.new.place ≤ self.old.place + 1 }
    {
        let (place, text) = self.take()?;
        cents(text).map_err(|fault| fault_of_word(fault, place))
    }

    // The pieces of a line.
    pub(crate) fn quantity(&mut self) -> Result<Quantity, BodyError>
        requires { self.old.place + 1 ≤ u32.MAX }
        ensures reads { outcome result self.new ≡ word quantity self.old }
        ensures one_further { self.new.place ≤ self.old.place + 1 }
    {
        let (place, text) = self.take()?;
        quantity(text).map_err(|fault| fault_of_word(fault, place))
    }

    // The id of a request or a checkout.
    pub(crate) fn id(&mut self) -> Result<RequestId, BodyError>
        requires { self.old.place + 1 ≤ u32.MAX }
        ensures reads { outcome result self.new ≡ word id_of self.old }
        ensures one_further { self.new.place ≤ self.old.place + 1 }
    {
        let (place, text) = self.take()?;
        id(text).map_err(|fault| fault_of_word(fault, place))
    }

    // A key in one word.
    pub(crate) fn key(&mut self) -> Result<ProductKey, BodyError>
        requires { self.old.place + 1 ≤ u32.MAX }
        ensures reads { outcome result self.new ≡ word key_of self.old }
        ensures one_further { self.new.place ≤ self.old.place + 1 }
    {
        let (place, text) = self.take()?;
        key(text).map_err(|fault| fault_of_word(fault, place))
    }

    // Seller and product, a word each.
    pub(crate) fn seller_product(&mut self) -> Result<ProductKey, BodyError>
        requires { self.old.place + 2 ≤ u32.MAX }
        ensures reads { outcome result self.new ≡ key_words self.old }
        ensures two_further { self.new.place ≤ self.old.place + 2 }
    {
        let seller = self.number()?;
        let product = self.number()?;
        Ok(ProductKey { seller, product })
    }

    // The status of an order.
    pub(crate) fn status(&mut self) -> Result<OrderStatus, BodyError>
        requires { self.old.place + 1 ≤ u32.MAX }
        ensures reads { outcome result self.new ≡ word status_of self.old }
        ensures one_further { self.new.place ≤ self.old.place + 1 }
    {
        let (place, text) = self.take()?;
        status(text).map_err(|fault| fault_of_word(fault, place))
    }

    // Why a request was refused.
    pub(crate) fn rule(&mut self) -> Result<Rule, BodyError>
        requires { self.old.place + 1 ≤ u32.MAX }
        ensures reads { outcome result self.new ≡ word rule_of self.old }
    {
        let (place, text) = self.take()?;
        rule(text).map_err(|fault| fault_of_word(fault, place))
    }

    // Why stock reserved nothing.
    pub(crate) fn stock_rule(&mut self) -> Result<StockRule, BodyError>
        requires { self.old.place + 1 ≤ u32.MAX }
        ensures reads { outcome result self.new ≡ word stock_rule_of self.old }
    {
        let (place, text) = self.take()?;
        stock_rule(text).map_err(|fault| fault_of_word(fault, place))
    }

    // Why a payment failed.
    pub(crate) fn pay_rule(&mut self) -> Result<PayRule, BodyError>
        requires { self.old.place + 1 ≤ u32.MAX }
        ensures reads { outcome result self.new ≡ word pay_rule_of self.old }
    {
        let (place, text) = self.take()?;
        pay_rule(text).map_err(|fault| fault_of_word(fault, place))
    }
}
