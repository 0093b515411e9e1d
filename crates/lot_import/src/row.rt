ghost use Rattle.std.specs.Prelude.{◌≡◌, IfOk};

use lot_base::{Commodity, Day, Label};
use lot_num::{Rate, Units};
use std::alloc::AllocError;

/// What a deal does.
#[derive(Clone, Copy, Debug, PartialEq, Eq)]
pub enum Action {
    /// `BUY`: units are bought.
    Buy,
    /// `SELL`: units are sold.
    Sell,
}

/// One row of a broker file: a deal.
#[derive(Debug)]
pub struct Row {
    /// The broker's name of the deal, `ref` in the file.
    pub name: Label,
    /// Its day, `date` in the file.
    pub day: Day,
    pub action: Action,
    /// What is bought or sold.
    pub symbol: Commodity,
    /// How much of it; in a file, not below zero.
    pub units: Units,
    /// The price of one unit.
    pub price: Rate,
    /// The currency of the price and of the fee.
    pub currency: Commodity,
    pub fee: Rate,
    /// The label of the lot that a purchase opens, or that a sale takes from.
    pub lot: Option<Label>,
}

impl Row {
    /// Returns a copy. The only error is out of memory.
    pub fn copy(&self) -> Result<Row, AllocError>
        ensures { IfOk result (λ row. row ≡ self.now) }
    {
        Ok(Row {
            name: self.name.copy()?,
            day: self.day,
            action: self.action,
            symbol: self.symbol.copy()?,
            units: self.units,
            price: self.price,
            currency: self.currency.copy()?,
            fee: self.fee,
            lot: self.copied_lot()?,
        })
    }

    /// Returns a copy of the label of the lot.
    pub(crate) fn copied_lot(&self) -> Result<Option<Label>, AllocError>
        ensures { IfOk result (λ lot. lot ≡ self.now.lot) }
    {
        match &self.lot {
            Some(lot) => Ok(Some(lot.copy()?)),
            None => Ok(None),
        }
    }
}

impl Drop for Row {
    /// It is written out, so that callers don't prove again how each part is dropped.
    fn drop(self) {
        let Row {
            name: _name,
            day: _day,
            action: _action,
            symbol: _symbol,
            units: _units,
            price: _price,
            currency: _currency,
            fee: _fee,
            lot: _lot,
        } = self;
    }
}
