//! The columns of each table of a book, and the texts of statements on them.
//!
//! A table is described once: its name, the columns of its key, its other columns, and what else is unique. Each column has the
//! number of its parameter and its type. The text of a statement is made of that: `lot_text!(put)` puts a row of the table `lot`.

/// The text of a statement on a table:
///
/// - `make` makes it; `put` puts a row in place of the one of its key; `insert` adds a row; `set` changes the one column that
///   isn't of the key; `delete` deletes the row of a key. Parameters are numbered as the columns are.
/// - `list` answers all rows, in the order of the key, and `find` the row of a key. `list of` answers the rows that meet a
///   condition, `first of` the first of them, `last of` the last, and `page of` as many as parameter 1 says.
/// - `show of` answers an expression of one row, the one at the place that parameter 1 says, counted from 0.
macro_rules! statement {
    (make $table:ident
        [$n:literal $key:ident $type:literal $(, $ns:literal $keys:ident $types:literal)*]
        [$($m:literal $other:ident $other_type:literal),*]
        $also:literal) => {
        concat!(
            "CREATE TABLE ", stringify!($table), " (", stringify!($key), " ", $type,
            $(", ", stringify!($keys), " ", $types,)* $(", ", stringify!($other), " ", $other_type,)*
            ", UNIQUE (", stringify!($key), $(", ", stringify!($keys),)* ")", $also, ") STRICT"
        )
    };
    (put $table:ident $key:tt $others:tt $also:literal) => {
        $crate::columns::statement!(@add "INSERT OR REPLACE INTO " $table $key $others)
    };
    (insert $table:ident $key:tt $others:tt $also:literal) => {
        $crate::columns::statement!(@add "INSERT INTO " $table $key $others)
    };
    (set $table:ident
        [$n:literal $key:ident $type:literal $(, $ns:literal $keys:ident $types:literal)*]
        [$m:literal $other:ident $other_type:literal]
        $also:literal) => {
        concat!(
            "UPDATE ", stringify!($table), " SET ", stringify!($other), " = ?", $m,
            " WHERE ", stringify!($key), " = ?", $n, $(" AND ", stringify!($keys), " = ?", $ns,)*
        )
    };
    (delete $table:ident
        [$n:literal $key:ident $type:literal $(, $ns:literal $keys:ident $types:literal)*]
        $others:tt
        $also:literal) => {
        concat!(
            "DELETE FROM ", stringify!($table),
            " WHERE ", stringify!($key), " = ?", $n, $(" AND ", stringify!($keys), " = ?", $ns,)*
        )
    };
    (find $table:ident
        [$n:literal $key:ident $type:literal $(, $ns:literal $keys:ident $types:literal)*]
        $others:tt
        $also:literal) => {
        $crate::columns::statement!(
            @select $table
            [$n $key $type $(, $ns $keys $types)*]
            $others
            (" WHERE ", stringify!($key), " = ?", $n, $(" AND ", stringify!($keys), " = ?", $ns,)*)
            ()
        )
    };
    (list $table:ident $key:tt $others:tt $also:literal) => {
        $crate::columns::statement!(@select $table $key $others () ())
    };
    (list $table:ident $key:tt $others:tt $also:literal of $condition:literal) => {
        $crate::columns::statement!(@select $table $key $others (" WHERE ", $condition,) ())
    };
    (first $table:ident $key:tt $others:tt $also:literal of $condition:literal) => {
        $crate::columns::statement!(@select $table $key $others (" WHERE ", $condition,) (" LIMIT 1"))
    };
    (page $table:ident $key:tt $others:tt $also:literal of $condition:literal) => {
        $crate::columns::statement!(@select $table $key $others (" WHERE ", $condition,) (" LIMIT ?1"))
    };
    (last $table:ident
        [$n:literal $key:ident $type:literal $(, $ns:literal $keys:ident $types:literal)*]
        [$($m:literal $other:ident $other_type:literal),*]
        $also:literal of $condition:literal) => {
        concat!(
            "SELECT ", stringify!($key), $(", ", stringify!($keys),)* $(", ", stringify!($other),)*
            " FROM ", stringify!($table), " WHERE ", $condition,
            " ORDER BY ", stringify!($key), " DESC", $(", ", stringify!($keys), " DESC",)* " LIMIT 1"
        )
    };
    (show $table:ident
        [$n:literal $key:ident $type:literal $(, $ns:literal $keys:ident $types:literal)*]
        $others:tt
        $also:literal of $shown:literal) => {
        concat!(
            "SELECT ", $shown, " FROM ", stringify!($table),
            " ORDER BY ", stringify!($key), $(", ", stringify!($keys),)* " LIMIT 1 OFFSET ?1"
        )
    };
    (@add $how:literal $table:ident
        [$n:literal $key:ident $type:literal $(, $ns:literal $keys:ident $types:literal)*]
        [$($m:literal $other:ident $other_type:literal),*]) => {
        concat!(
            $how, stringify!($table),
            " (", stringify!($key), $(", ", stringify!($keys),)* $(", ", stringify!($other),)*
            ") VALUES (?", $n, $(", ?", $ns,)* $(", ?", $m,)* ")"
        )
    };
    (@select $table:ident
        [$n:literal $key:ident $type:literal $(, $ns:literal $keys:ident $types:literal)*]
        [$($m:literal $other:ident $other_type:literal),*]
        ($($condition:tt)*) ($($end:tt)*)) => {
        concat!(
            "SELECT ", stringify!($key), $(", ", stringify!($keys),)* $(", ", stringify!($other),)*
            " FROM ", stringify!($table), $($condition)*
            " ORDER BY ", stringify!($key), $(", ", stringify!($keys),)* $($end)*
        )
    };
}

/// The text of a statement on the table `book`.
macro_rules! book_text {
    ($statement:ident $($more:tt)*) => {
        $crate::columns::statement!(
            $statement book
            [1 mark "TEXT NOT NULL"]
            [2 edition "INTEGER NOT NULL"]
            ""
            $($more)*
        )
    };
}

/// The text of a statement on the table `account`.
macro_rules! account_text {
    ($statement:ident $($more:tt)*) => {
        $crate::columns::statement!(
            $statement account
            [1 name "TEXT NOT NULL"]
            [
                2 opened "INTEGER NOT NULL",
                3 closed "INTEGER",
                4 method "TEXT NOT NULL"
            ]
            ""
            $($more)*
        )
    };
}

/// The text of a statement on the table `allowed`.
macro_rules! allowed_text {
    ($statement:ident $($more:tt)*) => {
        $crate::columns::statement!(
            $statement allowed
            [1 account "TEXT NOT NULL", 2 place "INTEGER NOT NULL"]
            [3 commodity "TEXT NOT NULL"]
            ""
            $($more)*
        )
    };
}

/// The text of a statement on the table `commodity`.
macro_rules! commodity_text {
    ($statement:ident $($more:tt)*) => {
        $crate::columns::statement!(
            $statement commodity
            [1 name "TEXT NOT NULL"]
            [2 day "INTEGER NOT NULL"]
            ""
            $($more)*
        )
    };
}

/// The text of a statement on the table `price`.
macro_rules! price_text {
    ($statement:ident $($more:tt)*) => {
        $crate::columns::statement!(
            $statement price
            [
                1 base "TEXT NOT NULL",
                2 quote "TEXT NOT NULL",
                3 day "INTEGER NOT NULL"
            ]
            [4 rate "INTEGER NOT NULL"]
            ""
            $($more)*
        )
    };
}

/// The text of a statement on the table `entry`.
macro_rules! entry_text {
    ($statement:ident $($more:tt)*) => {
        $crate::columns::statement!(
            $statement entry
            [1 number "INTEGER NOT NULL"]
            [
                2 source "TEXT NOT NULL",
                3 name "TEXT NOT NULL",
                4 body "TEXT NOT NULL"
            ]
            ", UNIQUE (source, name)"
            $($more)*
        )
    };
}

/// The text of a statement on the table `leg`.
macro_rules! leg_text {
    ($statement:ident $($more:tt)*) => {
        $crate::columns::statement!(
            $statement leg
            [
                1 entry "INTEGER NOT NULL",
                2 posting "INTEGER NOT NULL",
                3 place "INTEGER NOT NULL"
            ]
            [
                4 account "TEXT NOT NULL",
                5 commodity "TEXT NOT NULL",
                6 units "INTEGER NOT NULL",
                7 cost_number "INTEGER",
                8 cost_currency "TEXT",
                9 cost_day "INTEGER",
                10 cost_label "TEXT"
            ]
            ""
            $($more)*
        )
    };
}

/// The text of a statement on the table `sale`.
macro_rules! sale_text {
    ($statement:ident $($more:tt)*) => {
        $crate::columns::statement!(
            $statement sale
            [1 entry "INTEGER NOT NULL", 2 posting "INTEGER NOT NULL"]
            [
                3 day "INTEGER NOT NULL",
                4 account "TEXT NOT NULL",
                5 commodity "TEXT NOT NULL",
                6 units "INTEGER NOT NULL",
                7 kind "INTEGER NOT NULL",
                8 amount "INTEGER",
                9 currency "TEXT"
            ]
            ""
            $($more)*
        )
    };
}

/// The text of a statement on the table `lot`.
macro_rules! lot_text {
    ($statement:ident $($more:tt)*) => {
        $crate::columns::statement!(
            $statement lot
            [
                1 account "TEXT NOT NULL",
                2 commodity "TEXT NOT NULL",
                3 cost_day "INTEGER NOT NULL",
                4 cost_currency "TEXT NOT NULL",
                5 cost_number "INTEGER NOT NULL",
                6 cost_label "TEXT NOT NULL"
            ]
            [7 units "INTEGER NOT NULL"]
            ""
            $($more)*
        )
    };
}

/// The text of a statement on the table `plain`.
macro_rules! plain_text {
    ($statement:ident $($more:tt)*) => {
        $crate::columns::statement!(
            $statement plain
            [1 account "TEXT NOT NULL", 2 commodity "TEXT NOT NULL"]
            [3 units "INTEGER NOT NULL"]
            ""
            $($more)*
        )
    };
}

/// The text of a statement on the table `head`.
macro_rules! head_text {
    ($statement:ident $($more:tt)*) => {
        $crate::columns::statement!(
            $statement head
            [1 account "TEXT NOT NULL", 2 commodity "TEXT NOT NULL"]
            [3 day "INTEGER NOT NULL"]
            ""
            $($more)*
        )
    };
}

/// The text of a statement on the table `opening`.
macro_rules! opening_text {
    ($statement:ident $($more:tt)*) => {
        $crate::columns::statement!(
            $statement opening
            [
                1 account "TEXT NOT NULL",
                2 commodity "TEXT NOT NULL",
                3 cost_day "INTEGER NOT NULL",
                4 cost_currency "TEXT NOT NULL",
                5 cost_number "INTEGER NOT NULL",
                6 cost_label "TEXT NOT NULL"
            ]
            [7 opening "INTEGER NOT NULL"]
            ""
            $($more)*
        )
    };
}

/// The text of a statement on the table `migration`.
macro_rules! migration_text {
    ($statement:ident $($more:tt)*) => {
        $crate::columns::statement!(
            $statement migration
            [1 entries "INTEGER NOT NULL"]
            []
            ""
            $($more)*
        )
    };
}

pub(crate) use account_text;
pub(crate) use allowed_text;
pub(crate) use book_text;
pub(crate) use commodity_text;
pub(crate) use entry_text;
pub(crate) use head_text;
pub(crate) use leg_text;
pub(crate) use lot_text;
pub(crate) use migration_text;
pub(crate) use opening_text;
pub(crate) use plain_text;
pub(crate) use price_text;
pub(crate) use sale_text;
pub(crate) use statement;
