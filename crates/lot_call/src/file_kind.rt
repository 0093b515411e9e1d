//! What stands in the place of the book that a call is on.

ghost use Rattle.lot_call.specs.Looks.{IsLookedAt};
ghost use Rattle.lot_table.specs.Statement.{IsSelect};
ghost use Rattle.sqlite.specs.Held.{state};

use lot_explain::{LongOption, is_shown};
use lot_files::is_missing;
use lot_rows::book;
use lot_table::{Fault, Queryable};
use sqlite::{Alter, Connection};

/// What stands in the place of the book that a call is on, where its action can't begin with it.
#[derive(Clone, Copy)]
pub enum FileKind {
    Nothing,
    EmptyFile,
    Book,
    OlderBook,
    OtherDatabase,
}

impl FileKind {
    /// Returns what stands at a path where no book does, with a connection to it. It is `None` where
    /// the database can't be read.
    pub fn of_no_book<S: Alter>(
        rt: &HostRuntime,
        path: &str,
        conn: &mut Connection<S>,
    ) -> Option<FileKind>
        ensures { IsLookedAt (state S.Store conn.old) (state S.Store conn.new) }
    {
        if is_missing(rt, path) {
            return Some(FileKind::Nothing);
        }
        Some(if finds(conn, "SELECT name FROM sqlite_schema LIMIT 1")? {
            FileKind::OtherDatabase
        } else {
            FileKind::EmptyFile
        })
    }

    /// Returns what a database is that isn't empty. It is `None` where it can't be read.
    pub fn of_database<S: Alter>(conn: &mut Connection<S>) -> Option<FileKind>
        ensures { IsLookedAt (state S.Store conn.old) (state S.Store conn.new) }
    {
        Some(if finds(conn, book::MARKED)? {
            FileKind::Book
        } else {
            FileKind::OtherDatabase
        })
    }

    /// Says on standard error what stands at a path, and the call that helps, unless it can't be copied from a terminal.
    pub fn say(self, rt: &HostRuntime, path: &str) {
        let (what, help) = match self {
            FileKind::Nothing => (": there is no such file", Some(("init", "makes a book"))),
            FileKind::EmptyFile => (
                " is empty, as after a `restore` that made no book, which can be called again",
                Some(("init", "makes an empty book of it")),
            ),
            FileKind::Book => (" is a book already", None),
            FileKind::OlderBook => (
                " is a book of edition 1",
                Some(("migrate", "takes it over")),
            ),
            FileKind::OtherDatabase => (
                " is a database of another program: its tables aren't those of a book",
                None,
            ),
        };
        let _ = match help {
            Some((word, does)) if is_shown(path) => {
                let book = LongOption {
                    name: "book",
                    value: path,
                };
                eprintln!(rt; "lotbook: {path}{what}: `lotbook {word} {book}` {does}")
            }
            _ => eprintln!(rt; "lotbook: {path}{what}"),
        };
    }
}

/// Returns whether a query finds a row, where the database can be read. It finds none where the database refuses it, as one without
/// the table does.
fn finds<S: Alter>(conn: &mut Connection<S>, query: &str) -> Option<bool>
    requires { IsSelect query.now }
    ensures { IsLookedAt (state S.Store conn.old) (state S.Store conn.new) }
{
    match conn.ask(query, &[]) {
        Ok(rows) => Some(!rows.is_empty()),
        Err(Fault::Damaged) => Some(false),
        Err(Fault::Device | Fault::Memory) => None,
    }
}
