//! The file of a book, and reports of it.

use super::{Code, Examples};

pub(super) static CODES: [Code; 11] = [
    Code {
        code: "S1",
        name: "NotABook",
        brief: "there is no book in the file",
        rule: "The file isn't there, is empty, or is a database of another program; or a restore \
            that was stopped left it. Of init and restore: the file is a book already, or another \
            database.",
        examples: Examples::Calls {
            refused: r#"
$ lotbook holdings --book nothing.book
"#,
            accepted: r#"
$ lotbook init --book family.book
$ lotbook holdings --book family.book
"#,
        },
        help: "Correct the path, or make the book with lotbook init. A restore that was stopped is \
            called again.",
        page: "docs/RULES.md, The program",
    },
    Code {
        code: "S2",
        name: "NewerEdition",
        brief: "a newer lotbook made the book",
        rule: "The book was made by a newer lotbook.",
        examples: Examples::Absent,
        help: "Use a program as new as the book.",
        page: "docs/RULES.md, All codes",
    },
    Code {
        code: "S3",
        name: "OlderEdition",
        brief: "an older lotbook made the book",
        rule: "The book was made by an older lotbook, and isn't taken up as it is.",
        examples: Examples::Absent,
        help: "Copy the file and its log, then take the book over with lotbook migrate. There is \
            no way back.",
        page: "docs/GUIDE.md, From edition 1",
    },
    Code {
        code: "S4",
        name: "Device",
        brief: "the disk refused before the commit",
        rule: "The disk, or a limit of the database's size, refused before the commit began. \
            Nothing of this command is in the book. Those before it are, but of a restore and of a \
            call with --all-or-none nothing is.",
        examples: Examples::Absent,
        help: "Make room, then send the same text again under the same batch, with --from and the \
            number of this command; a restore or a call with --all-or-none whole.",
        page: "docs/GUIDE.md, Send it again",
    },
    Code {
        code: "S5",
        name: "InDoubt",
        brief: "the commit failed, and may have been made",
        rule: "The commit failed, as it does on a full disk. The command is in the book or isn't; \
            those before it are. Of a restore and of a call with --all-or-none all is in the book, \
            or nothing.",
        examples: Examples::Absent,
        help: "Make room, then send the same text again under the same batch, with --from and the \
            number of this command; a restore or a call with --all-or-none whole. What is in the \
            book is a repeat, and a book that is restored is S1.",
        page: "docs/GUIDE.md, Send it again",
    },
    Code {
        code: "S6",
        name: "NeedsReopen",
        brief: "the file has to be opened again",
        rule: "After S4 or S5 a book takes no further call until its file is opened again. The \
            program ends at the S4 or S5 before.",
        examples: Examples::Absent,
        help: "See S4 and S5.",
        page: "docs/RULES.md, All codes",
    },
    Code {
        code: "S7",
        name: "Damaged",
        brief: "the file has a row that no book has",
        rule: "A row was read that no book has: another program changed the file, or the disk \
            did. This command changed nothing.",
        examples: Examples::Absent,
        help: "lotbook verify says where the damage shows. Go back to a copy of the file and its log.",
        page: "docs/FORMATS.md, Tables",
    },
    Code {
        code: "S8",
        name: "Ended",
        brief: "the report has ended",
        rule: "A report goes no further behind a fault. The program ends at the fault before.",
        examples: Examples::Absent,
        help: "See the fault before it.",
        page: "docs/RULES.md, All codes",
    },
    Code {
        code: "P1",
        name: "Range",
        brief: "a total is out of range",
        rule: "A sum of a report is out of the range of its numbers: a total, or what is held in a \
            position.",
        examples: Examples::Absent,
        help: "Ask for fewer gains, with --first and --last, or for a table, which has no totals, with \
            --format csv; of a past day, for another day.",
        page: "docs/RULES.md, Numbers",
    },
    Code {
        code: "P2",
        name: "Write",
        brief: "the output can't be written",
        rule: "Standard output can't be written, so no line there can say so: standard error says why, \
            and the status is 4.",
        examples: Examples::Absent,
        help: "Make room, or see what reads the output.",
        page: "docs/RULES.md, The program",
    },
    Code {
        code: "P3",
        name: "Spent",
        brief: "the report has ended",
        rule: "A report takes no further row behind a fault. The program ends at the fault before.",
        examples: Examples::Absent,
        help: "See the fault before it.",
        page: "docs/RULES.md, All codes",
    },
];
