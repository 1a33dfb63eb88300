//! The keys that tables of a boot file may have, and the limits of their numbers.
ghost use Rattle.std.specs.Prelude.{◌≡◌};
ghost use Rattle.dm_explain.specs.Wanted.{sort_words};

/// What a value must be.
#[derive(Clone, Copy)]
pub enum Sort {
    Integer,
    Text,
    Truth,
    /// An array of tables.
    Array,
    /// An integer, or a label.
    Place,
}

impl Sort {
    /// In words.
    pub fn words(self) -> &'static str
        ensures { result.now ≡ sort_words self }
    {
        match self {
            Sort::Integer => "an integer",
            Sort::Text => "a text",
            Sort::Truth => "true or false",
            Sort::Array => "an array of tables",
            Sort::Place => "an integer or a text",
        }
    }
}

/// What a key must be, and whether it must be there.
#[derive(Clone, Copy)]
pub struct Key {
    pub name: &'static str,
    pub sort: Sort,
    pub needed: bool,
}

/// The keys of the top table.
pub const TOP_KEYS: [Key; 6] = [
    Key {
        name: "format",
        sort: Sort::Integer,
        needed: false,
    },
    Key {
        name: "numbers",
        sort: Sort::Integer,
        needed: false,
    },
    Key {
        name: "quantum",
        sort: Sort::Integer,
        needed: false,
    },
    Key {
        name: "machine",
        sort: Sort::Array,
        needed: false,
    },
    Key {
        name: "image",
        sort: Sort::Array,
        needed: false,
    },
    Key {
        name: "process",
        sort: Sort::Array,
        needed: false,
    },
];

/// The keys of a machine.
pub const MACHINE_KEYS: [Key; 2] = [
    Key {
        name: "slots",
        sort: Sort::Integer,
        needed: true,
    },
    Key {
        name: "blocks",
        sort: Sort::Integer,
        needed: true,
    },
];

/// The keys of an image.
pub const IMAGE_KEYS: [Key; 3] = [
    Key {
        name: "name",
        sort: Sort::Text,
        needed: true,
    },
    Key {
        name: "blocks",
        sort: Sort::Integer,
        needed: true,
    },
    Key {
        name: "text",
        sort: Sort::Text,
        needed: true,
    },
];

/// The keys of a process.
pub const PROCESS_KEYS: [Key; 4] = [
    Key {
        name: "name",
        sort: Sort::Text,
        needed: true,
    },
    Key {
        name: "image",
        sort: Sort::Text,
        needed: true,
    },
    Key {
        name: "machine",
        sort: Sort::Integer,
        needed: true,
    },
    Key {
        name: "links",
        sort: Sort::Array,
        needed: false,
    },
];

/// The keys of a link.
pub const LINK_KEYS: [Key; 8] = [
    Key {
        name: "to",
        sort: Sort::Text,
        needed: true,
    },
    Key {
        name: "code",
        sort: Sort::Integer,
        needed: false,
    },
    Key {
        name: "channel",
        sort: Sort::Integer,
        needed: false,
    },
    Key {
        name: "base",
        sort: Sort::Place,
        needed: false,
    },
    Key {
        name: "len",
        sort: Sort::Place,
        needed: false,
    },
    Key {
        name: "reply",
        sort: Sort::Truth,
        needed: false,
    },
    Key {
        name: "read",
        sort: Sort::Truth,
        needed: false,
    },
    Key {
        name: "write",
        sort: Sort::Truth,
        needed: false,
    },
];

/// The keys of a link that controls.
pub const CONTROL_KEYS: [Key; 1] = [Key {
    name: "control",
    sort: Sort::Text,
    needed: true,
}];

/// The least and the most that a number may be.
#[derive(Clone, Copy)]
pub struct Range {
    pub name: &'static str,
    pub least: u32,
    pub most: u32,
}

/// The limits of the settings.
pub const TOP_RANGES: [Range; 3] = [
    Range {
        name: "numbers",
        least: 1,
        most: 1_048_576,
    },
    Range {
        name: "quantum",
        least: 1,
        most: 1000,
    },
    Range {
        name: "format",
        least: 1,
        most: 2,
    },
];

/// The limits of a machine.
pub const MACHINE_RANGES: [Range; 2] = [
    Range {
        name: "slots",
        least: 0,
        most: 64,
    },
    Range {
        name: "blocks",
        least: 0,
        most: 4096,
    },
];

/// The limits of an image.
pub const IMAGE_RANGES: [Range; 1] = [Range {
    name: "blocks",
    least: 1,
    most: 256,
}];

/// The limits of a link's channel.
pub const CHANNEL_RANGES: [Range; 1] = [Range {
    name: "channel",
    least: 0,
    most: 31,
}];

/// The limits of a link to a process.
pub const LINK_RANGES: [Range; 4] = [
    Range {
        name: "channel",
        least: 0,
        most: 31,
    },
    Range {
        name: "code",
        least: 0,
        most: 4_294_967_295,
    },
    Range {
        name: "base",
        least: 0,
        most: 65_536,
    },
    Range {
        name: "len",
        least: 0,
        most: 65_536,
    },
];
