/// What an editor does next. Texts of updates are in the namespace of the ontology; a class is named in it too; a replacement is the name of a file.
pub enum Move {
    Begin,
    Change(&'static str),
    Ask(&'static str),
    Commit,
    Abort,
    Replace(&'static str),
}

/// What two editors do, each in its own order, over opening facts and a history of at most `limit` entries.
pub struct Row {
    pub name: &'static str,
    pub facts: &'static str,
    pub limit: u64,
    pub first: &'static [Move],
    pub second: &'static [Move],
}

const BOB_IN: &str = "INSERT DATA { :bob a :Prof }";

const BOB_OUT: &str = "DELETE DATA { :bob a :Prof }";

const STUDENT: &str = "INSERT DATA { :ann a :Student }";

const TEACHES: &str = "INSERT DATA { :ann :teaches :cs1 }";

const COURSE: &str = "INSERT DATA { :cs9 a :Course }";

/// The rows, of which each merge is tried.
pub const ROWS: [Row; 12] = [
    Row {
        name: "an empty change beside an insertion",
        facts: "",
        limit: 9,
        first: &[Move::Begin, Move::Change("INSERT DATA {}"), Move::Commit],
        second: &[Move::Begin, Move::Change(BOB_IN), Move::Commit],
    },
    Row {
        name: "asks beside an insertion",
        facts: "",
        limit: 9,
        first: &[
            Move::Begin,
            Move::Ask("Person"),
            Move::Ask("Person"),
            Move::Commit,
        ],
        second: &[Move::Begin, Move::Change(BOB_IN), Move::Commit],
    },
    Row {
        name: "a student who teaches",
        facts: "",
        limit: 9,
        first: &[Move::Begin, Move::Change(STUDENT), Move::Commit],
        second: &[
            Move::Begin,
            Move::Change(TEACHES),
            Move::Ask("Prof"),
            Move::Commit,
        ],
    },
    Row {
        name: "a student and a course",
        facts: "",
        limit: 9,
        first: &[
            Move::Begin,
            Move::Change(STUDENT),
            Move::Ask("Student"),
            Move::Commit,
        ],
        second: &[Move::Begin, Move::Change(COURSE), Move::Commit],
    },
    Row {
        name: "the same insertion twice",
        facts: "",
        limit: 9,
        first: &[Move::Begin, Move::Change(BOB_IN), Move::Commit],
        second: &[Move::Begin, Move::Change(BOB_IN), Move::Commit],
    },
    Row {
        name: "a fact inserted and deleted beside its insertion",
        facts: "",
        limit: 9,
        first: &[
            Move::Begin,
            Move::Change(BOB_IN),
            Move::Change(BOB_OUT),
            Move::Commit,
        ],
        second: &[Move::Begin, Move::Change(BOB_IN), Move::Commit],
    },
    Row {
        name: "an insertion of what another deletes",
        facts: BOB_IN,
        limit: 9,
        first: &[Move::Begin, Move::Change(BOB_IN), Move::Commit],
        second: &[Move::Begin, Move::Change(BOB_OUT), Move::Commit],
    },
    Row {
        name: "a history that is full",
        facts: "",
        limit: 1,
        first: &[
            Move::Begin,
            Move::Change(BOB_IN),
            Move::Commit,
            Move::Ask("Prof"),
            Move::Commit,
        ],
        second: &[Move::Begin, Move::Change(COURSE), Move::Commit],
    },
    Row {
        name: "commits and begins out of place",
        facts: "",
        limit: 9,
        first: &[
            Move::Commit,
            Move::Begin,
            Move::Begin,
            Move::Change(STUDENT),
            Move::Commit,
        ],
        second: &[
            Move::Begin,
            Move::Change(TEACHES),
            Move::Abort,
            Move::Ask("Prof"),
        ],
    },
    Row {
        name: "a replacement beside a change",
        facts: "",
        limit: 9,
        first: &[Move::Begin, Move::Change(STUDENT), Move::Commit],
        second: &[
            Move::Replace("more.ofn"),
            Move::Begin,
            Move::Change(COURSE),
            Move::Commit,
        ],
    },
    Row {
        name: "a replacement beside asks",
        facts: STUDENT,
        limit: 9,
        first: &[
            Move::Begin,
            Move::Ask("Person"),
            Move::Commit,
            Move::Replace("more.ofn"),
        ],
        second: &[
            Move::Begin,
            Move::Replace("more.ofn"),
            Move::Abort,
            Move::Replace("more.ofn"),
        ],
    },
    Row {
        name: "an ontology that facts contradict",
        facts: STUDENT,
        limit: 9,
        first: &[
            Move::Begin,
            Move::Change("INSERT DATA { :ann a :Course }"),
            Move::Commit,
        ],
        second: &[
            Move::Replace("apart.ofn"),
            Move::Begin,
            Move::Change(STUDENT),
            Move::Commit,
        ],
    },
];
