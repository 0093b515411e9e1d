use crate::account::AccountOf;
use crate::basis::Basis;
use crate::file::FileForm;
use crate::table::Table;
use lot_base::Commodity;
use lot_command::Items;
use lot_field::Text;

/// All that a profile says.
pub struct Profile {
    /// What `import` says that it reads.
    pub name: Text,
    pub file: FileForm,
    /// The tables of the file, at least one.
    pub tables: Items<Table>,
    /// The accounts that rows are posted to, each role at most once.
    pub accounts: Items<AccountOf>,
    pub basis: Basis,
    /// What the fields of the column `symbol` mean; others stand for themselves.
    pub symbols: Items<Symbol>,
}

impl Drop for Profile {
    /// It is written out, so that callers don't prove again how each part is dropped.
    fn drop(self) {
        let Profile {
            name: _name,
            file: _file,
            tables: _tables,
            accounts: _accounts,
            basis: _basis,
            symbols: _symbols,
        } = self;
    }
}

/// What a field of the column `symbol` means.
pub struct Symbol {
    pub field: Text,
    pub commodity: Commodity,
}

impl Drop for Symbol {
    /// It is written out, so that callers don't prove again how each part is dropped.
    fn drop(self) {
        let Symbol {
            field: _field,
            commodity: _commodity,
        } = self;
    }
}
