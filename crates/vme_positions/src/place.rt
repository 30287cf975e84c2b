//! The parts of a configuration file.

/// A table of a configuration file.
#[derive(Clone, Copy, PartialEq, Eq, Debug)]
pub enum TableName {
    /// The keys at the top of the file.
    File,
    /// A table `[[board]]`.
    Board,
    /// A table `[[mailbox]]`.
    Mailbox,
}

/// A key of a configuration file. The keys from `Rounds` to `Mailbox` are those at the top of the
/// file, from `Slot` to `Script` those of a board, and from `Am` to `Slots` those of a mailbox.
#[derive(Clone, Copy, PartialEq, Eq, Debug)]
pub enum Key {
    Rounds,
    Schedule,
    Arbiter,
    Tries,
    Board,
    Mailbox,
    Slot,
    Level,
    Space,
    Base,
    Size,
    Width,
    Uat,
    Blt,
    Rmw,
    Supervisory,
    Script,
    Am,
    Addr,
    Slots,
}

impl Key {
    /// Returns the key of a table that has this name, or `None` if the table has no such key.
    pub fn named(table: TableName, name: &str) -> Option<Key> {
        match table {
            TableName::File => Key::of_file(name),
            TableName::Board => Key::of_board(name),
            TableName::Mailbox => Key::of_mailbox(name),
        }
    }

    /// The key at the top of a file that has this name.
    fn of_file(name: &str) -> Option<Key> {
        match name {
            "rounds" => Some(Key::Rounds),
            "schedule" => Some(Key::Schedule),
            "arbiter" => Some(Key::Arbiter),
            "tries" => Some(Key::Tries),
            "board" => Some(Key::Board),
            "mailbox" => Some(Key::Mailbox),
            _ => None,
        }
    }

    /// The key of a board that has this name.
    fn of_board(name: &str) -> Option<Key> {
        match name {
            "slot" => Some(Key::Slot),
            "level" => Some(Key::Level),
            "space" => Some(Key::Space),
            "base" => Some(Key::Base),
            "size" => Some(Key::Size),
            "width" => Some(Key::Width),
            "uat" => Some(Key::Uat),
            "blt" => Some(Key::Blt),
            "rmw" => Some(Key::Rmw),
            "supervisory" => Some(Key::Supervisory),
            "script" => Some(Key::Script),
            _ => None,
        }
    }

    /// The key of a mailbox that has this name.
    fn of_mailbox(name: &str) -> Option<Key> {
        match name {
            "am" => Some(Key::Am),
            "addr" => Some(Key::Addr),
            "slots" => Some(Key::Slots),
            _ => None,
        }
    }

    /// Returns the key as it is written in a file.
    pub fn name(self) -> &'static str {
        match self {
            Key::Rounds => "rounds",
            Key::Schedule => "schedule",
            Key::Arbiter => "arbiter",
            Key::Tries => "tries",
            Key::Board => "board",
            Key::Mailbox => "mailbox",
            Key::Slot => "slot",
            Key::Level => "level",
            Key::Space => "space",
            Key::Base => "base",
            Key::Size => "size",
            Key::Width => "width",
            Key::Uat => "uat",
            Key::Blt => "blt",
            Key::Rmw => "rmw",
            Key::Supervisory => "supervisory",
            Key::Script => "script",
            Key::Am => "am",
            Key::Addr => "addr",
            Key::Slots => "slots",
        }
    }
}

/// A part of a configuration file. Tables, elements and unknown keys are counted from 0, lines of a
/// script from 1. The index of the table `File` is 0.
#[derive(Clone, Copy, PartialEq, Eq, Debug)]
pub enum Place {
    /// The file as a whole.
    File,
    /// The bytes of the text from `from` to before `to`.
    Bytes {
        from: usize,
        to: usize,
    },
    /// The header of a table, or the `{` of an inline table.
    Table {
        table: TableName,
        index: usize,
    },
    /// A key of a table.
    Key {
        table: TableName,
        index: usize,
        key: Key,
    },
    /// The value of a key of a table.
    Value {
        table: TableName,
        index: usize,
        key: Key,
    },
    /// The `nth` unknown key of a table, where its keys are sorted by their bytes.
    Unknown {
        table: TableName,
        index: usize,
        nth: usize,
    },
    /// An element of an array at the top of the file: of `schedule`, `board` or `mailbox`.
    Element {
        key: Key,
        index: usize,
    },
    /// The slot of an element of `schedule`.
    PairSlot {
        index: usize,
    },
    /// The turns of an element of `schedule`.
    PairTurns {
        index: usize,
    },
    /// The bytes from `from` to before `to` of a line of a board's script. They are counted from 0
    /// in the line that the string stands for, with its escape sequences decoded.
    Word {
        board: usize,
        line: usize,
        from: usize,
        to: usize,
    },
}
