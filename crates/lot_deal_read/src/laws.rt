//! Laws of the definitions that the contract of `read_row` cites. Each is the contract of a function that does nothing.
ghost use Rattle.std.specs.Prelude.{◌≡◌, true};
ghost use Rattle.lot_profile.specs.declared.role.Role.TheVariants as role;
ghost use Rattle.lot_roles.specs.Rules.{has_sources};
ghost use Rattle.lot_roles.specs.declared.rules.Rules.{Rules};
ghost use Rattle.lot_sheet.specs.Sheet.{SheetRow};
ghost use Rattle.lot_deal_read.specs.Needed.{amount_in};
ghost use Rattle.lot_deal_read.specs.TradeRow.{amount_for};
ghost use Rattle.lot_deal_read.specs.declared.trade_row.TradeRow.{TradeRow};

/// Where the profile names a column for it, the amount of a purchase or of a sale is what that column has, and is never worked out
/// from the price.
pub fn an_amount_is_what_its_column_has()
    ensures { (rules : Rules) (row : SheetRow) (said : TradeRow)
        → has_sources rules role.Amount ≡ true
        → amount_for rules row said ≡ amount_in rules row role.Amount }
{}
