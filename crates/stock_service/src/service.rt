//! The stock as a service.

ghost use Rattle.std.specs.Prelude.{[]};
ghost use Rattle.market_events.specs.declared.roles.Role.{Role};
ghost use Rattle.stock_service.specs.Holds.{Holds};

use crate::answers::{refuse, reserve, settle, stock, tell_level};
use crate::cells::{asked_names, cells_of, changed_names, names_of, value_named};
use crate::held_lines::HeldLines;
use crate::levels::{Act, Levels};
use crate::refusals::first_refused;
use cart_replica::ProductCopy;
use market_events::{Ask, Body, Cell, CellName, Link, Outs, Service, Tabled, value_or_empty};
use std::alloc::{AllocError, Global};

/// What is known of each product, how many of its pieces are on hand and reserved, and the lines of the
/// checkouts that wait for their payment.
#[derive(Debug, Drop)]
pub struct Stocks {
    alloc: Global,
    copy: ProductCopy,
    levels: Levels,
    held: HeldLines,
}

impl Stocks {
    /// Nothing was taken.
    pub fn new(alloc: Global) -> Stocks
        ensures { Holds result [] }
    {
        Stocks {
            alloc,
            copy: ProductCopy::new(alloc),
            levels: Levels::new(alloc),
            held: HeldLines::new(alloc),
        }
    }
}

impl Service for Stocks {
    ghost role = { Role.Stock };

    ghost holds = { Holds };

    fn accept(&mut self, _from: Link, body: &Body, outs: &mut Outs) -> Result<(), AllocError> {
        match body {
            Body::Changed(key, version, change) => self.copy.apply(*key, *version, change),
            Body::Asked(request) => match request.ask {
                Ask::Stock(key, pieces) => stock(
                    &mut self.levels,
                    self.copy.look(key),
                    request.id,
                    key,
                    pieces,
                    outs,
                ),
                Ask::Level(key) => tell_level(
                    outs,
                    request.id,
                    self.copy.look(key),
                    self.levels.level(key),
                ),
                _ => Ok(()),
            },
            Body::Reserve(checkout, customer, lines) => {
                match first_refused(&self.copy, &self.levels, lines.as_slice()) {
                    Some((key, rule)) => refuse(outs, *checkout, key, rule),
                    None => reserve(
                        &mut self.levels,
                        &mut self.held,
                        *checkout,
                        *customer,
                        lines,
                        outs,
                    ),
                }
            }
            Body::Confirmed(checkout, ..) => {
                settle(&mut self.levels, &mut self.held, *checkout, Act::Sell);
                Ok(())
            }
            Body::Failed(checkout, ..) => {
                settle(&mut self.levels, &mut self.held, *checkout, Act::Release);
                Ok(())
            }
            _ => unreachable!(),
        }
    }
}

impl Tabled for Stocks {
    fn cells(&self) -> Result<Vec<Cell>, AllocError> {
        cells_of(self.alloc, &self.copy, &self.levels, &self.held)
    }

    fn touches(&self, _from: Link, body: &Body) -> Result<Vec<CellName>, AllocError> {
        match body {
            Body::Changed(key, ..) => changed_names(self.alloc, *key),
            Body::Asked(request) => asked_names(self.alloc, request.ask),
            Body::Reserve(checkout, _, lines) => names_of(self.alloc, *checkout, lines.as_slice()),
            Body::Confirmed(checkout, ..) => self.held.names(self.alloc, *checkout),
            Body::Failed(checkout, ..) => self.held.names(self.alloc, *checkout),
            _ => unreachable!(),
        }
    }

    fn value(&self, name: &CellName) -> Result<Vec<u8>, AllocError> {
        let value = value_named(self.alloc, &self.copy, &self.levels, &self.held, name)?;
        Ok(value_or_empty(self.alloc, value))
    }
}
