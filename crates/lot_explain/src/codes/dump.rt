//! Dumps: what is wrong with one as a whole.

use super::{Code, Examples};

pub(super) static CODES: [Code; 4] = [
    Code {
        code: concat!("D", "1"),
        name: "NotADump",
        brief: "the text isn't a dump",
        rule: "A dump is what lotbook dump writes: its first line begins with ; lotbook dump, its \
            last with ; end, and between them each command stands below its own line ; entry \
            NUMBER key SOURCE NAME. The numbers don't fall. A text that was cut lacks its last \
            line.",
        examples: Examples::Calls {
            refused: r#"
$ echo '2020-01-01 open Assets:Cash' | lotbook restore --book new.book
"#,
            accepted: r#"
$ lotbook init --book old.book
$ lotbook dump --book old.book | lotbook restore --book new.book
"#,
        },
        help: "Give the whole dump. A command that you add needs such a line above it, with the \
            number of the entry before it and a key of its own.",
        page: "docs/FORMATS.md, Dump",
    },
    Code {
        code: concat!("D", "2"),
        name: "NewerFormat",
        brief: "a newer lotbook wrote the dump",
        rule: "By its first line the dump is of a later format, or of a book of a later edition.",
        examples: Examples::Calls {
            refused: r#"
$ echo '; lotbook dump 2 edition 2 migrated 0 entries 0' | lotbook restore --book new.book
"#,
            accepted: r#"
$ lotbook init --book old.book
$ lotbook dump --book old.book | lotbook restore --book new.book
"#,
        },
        help: "Use a program as new as the dump.",
        page: "docs/FORMATS.md, Dump",
    },
    Code {
        code: concat!("D", "3"),
        name: "WrongDigest",
        brief: "the dump was changed after it was written",
        rule: "The last line of a dump says the SHA-256 of all above it. Here it is another: \
            somebody changed the dump, or a copy of it is damaged. No book is made.",
        examples: Examples::Calls {
            refused: r#"
$ lotbook init --book old.book
$ echo '2020-01-01 open Assets:Cash' | lotbook post --book old.book --batch a
$ lotbook dump --book old.book | sed s/Cash/Bank/ | lotbook restore --book new.book
"#,
            accepted: r#"
$ lotbook init --book old.book
$ echo '2020-01-01 open Assets:Cash' | lotbook post --book old.book --batch a
$ lotbook dump --book old.book | sed s/Cash/Bank/ > changed.dump
$ lotbook restore --book new.book --edited < changed.dump
"#,
        },
        help: "If it was changed on purpose, give --edited. Else use another copy, or make the \
            dump again.",
        page: "docs/FORMATS.md, Dump",
    },
    Code {
        code: concat!("D", "4"),
        name: "WrongCount",
        brief: "the dump has another number of entries than it says",
        rule: "The first and the last line of a dump say how many entries stand between them. \
            Here one of them says another number. No book is made.",
        examples: Examples::Calls {
            refused: r#"
$ echo '; lotbook dump 1 edition 2 migrated 0 entries 1' > a.dump
$ echo "; end 1 sha256 $(sha256sum a.dump | cut -c 1-64)" >> a.dump
$ lotbook restore --book new.book < a.dump
"#,
            accepted: r#"
$ echo '; lotbook dump 1 edition 2 migrated 0 entries 0' > a.dump
$ echo "; end 0 sha256 $(sha256sum a.dump | cut -c 1-64)" >> a.dump
$ lotbook restore --book new.book < a.dump
"#,
        },
        help: "If it was changed on purpose, give --edited. Else use another copy, or make the \
            dump again.",
        page: "docs/FORMATS.md, Dump",
    },
];
