//! The commands that are tried with calls that fail, and what each calls where none does.

/// A command that is tried.
#[derive(Clone, Copy)]
pub struct Tried {
    pub name: &'static str,
    /// The words behind the program's name, with a space between. Its shelf has two files, `boot` and `other`.
    pub words: &'static str,
    /// What `other` is a copy of; `boot` is one of hi.boot.
    pub other: &'static str,
    /// The file of what it writes.
    pub output: &'static str,
    /// What it calls.
    pub calls: Calls,
}

/// How many reads and how many writes.
#[derive(Clone, Copy)]
pub struct Calls {
    pub reads: u64,
    pub writes: u64,
}

/// Two files are read, each with one call for its bytes and one for its end; and all is written at once.
const READ_AND_WRITTEN: Calls = Calls {
    reads: 4,
    writes: 1,
};

/// The commands, with what they must come to.
pub const TRIED: [Tried; 10] = [
    Tried {
        name: "run",
        words: "run --boot boot --schedule other",
        other: "hi.schedule",
        output: "hi.out",
        calls: Calls {
            reads: 4,
            writes: 9,
        },
    },
    Tried {
        name: "check",
        words: "check --boot boot --trace other",
        other: "hi.out",
        output: "good_8_ended.out",
        calls: READ_AND_WRITTEN,
    },
    Tried {
        name: "check of labels",
        words: "check --boot boot --labels other",
        other: "labels_remarks.labels",
        output: "good_11_labels.out",
        calls: READ_AND_WRITTEN,
    },
    Tried {
        name: "explain",
        words: "explain --boot boot --schedule other",
        other: "hi.schedule",
        output: "said_hi_and_schedule.out",
        calls: READ_AND_WRITTEN,
    },
    Tried {
        name: "explain of a trace",
        words: "explain --boot boot --trace other",
        other: "hi.out",
        output: "good_8_ended.out",
        calls: READ_AND_WRITTEN,
    },
    Tried {
        name: "chart",
        words: "chart --boot boot --schedule other",
        other: "hi.schedule",
        output: "example_hi.svg",
        calls: READ_AND_WRITTEN,
    },
    Tried {
        name: "count",
        words: "count --boot boot --schedule other",
        other: "hi.schedule",
        output: "count_hi.out",
        calls: READ_AND_WRITTEN,
    },
    Tried {
        name: "look",
        words: "look --boot boot --schedule other --at 1",
        other: "hi.schedule",
        output: "look_letter.out",
        calls: READ_AND_WRITTEN,
    },
    Tried {
        name: "drill",
        words: "drill --seed 0 --machines 2 --lines 1",
        other: "hi.schedule",
        output: "drill_round.out",
        calls: Calls {
            reads: 0,
            writes: 1,
        },
    },
    Tried {
        name: "drill with its groups",
        words: "drill --seed 0 --machines 2 --lines 1 --trace",
        other: "hi.schedule",
        output: "drill_round_traced.out",
        calls: Calls {
            reads: 0,
            writes: 3,
        },
    },
];

/// What is told wrongly on purpose, and has to be said to be wrong.
pub const MISTAKEN: [Tried; 4] = [
    Tried {
        name: "another output",
        words: "run --boot boot --schedule other",
        other: "hi.schedule",
        output: "nobody.out",
        calls: Calls {
            reads: 4,
            writes: 9,
        },
    },
    Tried {
        name: "a read too many",
        words: "run --boot boot --schedule other",
        other: "hi.schedule",
        output: "hi.out",
        calls: Calls {
            reads: 5,
            writes: 9,
        },
    },
    Tried {
        name: "a write too few",
        words: "run --boot boot --schedule other",
        other: "hi.schedule",
        output: "hi.out",
        calls: Calls {
            reads: 4,
            writes: 8,
        },
    },
    Tried {
        name: "another status",
        words: "run --boot boot",
        other: "hi.schedule",
        output: "/dev/null",
        calls: Calls {
            reads: 0,
            writes: 0,
        },
    },
];
