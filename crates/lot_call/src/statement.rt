//! What is said of a faulty statement.

use lot_explain::{Shown, line_at};
use lot_statement::StatementFault;

/// Says on standard error what is wrong with a statement, of which these are the bytes.
pub fn say_statement_fault(rt: &HostRuntime, fault: StatementFault, bytes: &[u8]) {
    match fault {
        StatementFault::BadHeader => say_header(rt, line_at(bytes, 1)),
        StatementFault::BadRow { row, cause } => match line_at(bytes, row.saturating_add(1)) {
            Some(line) => {
                let line = Shown(line);
                let _ = eprintln!(rt; "lotbook: row {row}: {cause}: `{line}`");
            }
            None => {
                let _ = eprintln!(rt; "lotbook: row {row}: {cause}");
            }
        },
        StatementFault::Memory => {}
    }
}

/// Says that a statement begins otherwise, and with which line it does, where it has one.
fn say_header(rt: &HostRuntime, first: Option<&[u8]>) {
    let wanted = "a statement begins with `commodity,units`";
    let _ = match first {
        Some(line) => {
            let line = Shown(line);
            eprintln!(rt; "lotbook: {wanted}: the file begins with `{line}`")
        }
        None => eprintln!(rt; "lotbook: {wanted}"),
    };
}
