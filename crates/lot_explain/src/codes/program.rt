//! The arguments of the program, its input, and the faults that have no code.

use super::{Code, Examples};

pub(super) static CODES: [Code; 6] = [
    Code {
        code: "U1",
        name: "Usage",
        brief: "the arguments can't be used",
        rule: "The arguments of the call can't be used: one isn't known, or an option is missing or \
            given twice. Standard error says which, and the status is 2.",
        examples: Examples::Calls {
            refused: r#"
$ lotbook sell
"#,
            accepted: r#"
$ lotbook --help
"#,
        },
        help: "See lotbook --help, and the options of a word with --help behind it.",
        page: "docs/RULES.md, The program",
    },
    Code {
        code: "U2",
        name: "BadValue",
        brief: "the value of an option is outside its rule",
        rule: "The value of an option is outside its rule: a batch has 1 to 32 letters, digits, \
            points, underlines and dashes, an account and a day are those of ledger text. A post \
            has either --batch or --row-of, and --ref stands beside --row-of alone. --without \
            takes a key as a dump has it, its source and its name, and --without-entries two \
            numbers with a dash between. Standard error says which it is, and the status is 2.",
        examples: Examples::Calls {
            refused: r#"
$ lotbook init --book u.book
$ lotbook post --book u.book --batch 'my batch' < /dev/null
"#,
            accepted: r#"
$ lotbook init --book u.book
$ lotbook post --book u.book --batch my-batch < /dev/null
"#,
        },
        help: "Give the options and values that standard error names.",
        page: "docs/RULES.md, The program",
    },
    Code {
        code: "K1",
        name: "Read",
        brief: "the input can't be read",
        rule: "Standard input can't be read to its end. Nothing was posted or restored.",
        examples: Examples::Calls {
            refused: r#"
$ lotbook < /
"#,
            accepted: r#"
$ lotbook < /dev/null
"#,
        },
        help: "Give a file, and see that it can be read.",
        page: "docs/RULES.md, All codes",
    },
    Code {
        code: "K2",
        name: "TooLong",
        brief: "the input, or an entry of a dump, is too long",
        rule: "The input has more than 16,777,216 bytes. A dump may have more, but neither an \
            entry with more nor a line with more than 1,048,576. Nothing was posted or restored.",
        examples: Examples::Calls {
            refused: r#"
$ head -c 16777217 /dev/zero | lotbook
"#,
            accepted: r#"
$ head -c 16777216 /dev/zero | tr '\0' '\n' | lotbook
"#,
        },
        help: "Cut the text in front of a command, and post each part under a batch of its own. \
            Parts of a broker file, with the header before each, are imported under the same batch.",
        page: "docs/RULES.md, Limits",
    },
    Code {
        code: "Memory",
        name: "Memory",
        brief: "memory ended",
        rule: "Memory ended. The commands with a reply before the line are in the book; the \
            command whose number the line has may be. Of a restore and of a call with --all-or-none \
            nothing is, or all where the line stands alone.",
        examples: Examples::Absent,
        help: "With more memory send the same text again under the same batch, with --from and \
            the number of the line; a restore or a call with --all-or-none whole.",
        page: "docs/RULES.md, Out of memory",
    },
    Code {
        code: "open",
        name: "open",
        brief: "the file of the book can't be opened",
        rule: "The file of the book can't be opened, is no database, or is open in another \
            program. Standard error says which.",
        examples: Examples::Calls {
            refused: r#"
$ lotbook holdings --book /
"#,
            accepted: r#"
$ lotbook init --book o.book
$ lotbook holdings --book o.book
"#,
        },
        help: "Correct the path or the rights, or close the other program. Where the file is \
            damaged, go back to a copy of it and its log.",
        page: "docs/RULES.md, The program",
    },
];
