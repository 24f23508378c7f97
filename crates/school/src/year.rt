// The calls of a school's year. Head 1 is the live timetable, with a position for each lesson.
use model::Call;

pub const YEAR: [Call<'static>; 24] = [
    Call::Create {
        number: 1,
        height: 2,
    },
    // The autumn timetable is written, and published as 101.
    Call::Write {
        number: 1,
        position: 0,
        text: b"maths, room 4",
    },
    Call::Write {
        number: 1,
        position: 1,
        text: b"art, room 2",
    },
    Call::Write {
        number: 1,
        position: 9,
        text: b"sport, hall",
    },
    Call::Snapshot {
        number: 1,
        snapshot: 101,
    },
    // A change for spring, published as 102.
    Call::Write {
        number: 1,
        position: 1,
        text: b"art, room 7",
    },
    Call::Snapshot {
        number: 1,
        snapshot: 102,
    },
    // A change for summer, published as 103.
    Call::Write {
        number: 1,
        position: 0,
        text: b"maths, room 5",
    },
    Call::Discard {
        number: 1,
        position: 9,
    },
    Call::Snapshot {
        number: 1,
        snapshot: 103,
    },
    // A draft for next year, on what was published last.
    Call::Clone {
        snapshot: 103,
        number: 2,
    },
    Call::Write {
        number: 2,
        position: 1,
        text: b"music, room 7",
    },
    Call::Read {
        number: 2,
        position: 0,
    },
    Call::Read {
        number: 2,
        position: 1,
    },
    Call::Read {
        number: 1,
        position: 1,
    },
    // What each costs, and what a deletion would give back.
    Call::Used { number: 1 },
    Call::Used { number: 2 },
    Call::Unique { number: 101 },
    Call::Unique { number: 102 },
    Call::Bucket {
        number: 2,
        bucket: 1,
    },
    // A published timetable with a draft stays; the draft is thrown away.
    Call::Destroy { number: 103 },
    Call::Destroy { number: 2 },
    Call::Read {
        number: 101,
        position: 9,
    },
    Call::Used { number: 1 },
];

// The two oldest timetables go, in one order or in the other.
pub const OLDEST_FIRST: [Call<'static>; 2] = [
    Call::Destroy { number: 101 },
    Call::Destroy { number: 102 },
];

pub const NEWEST_FIRST: [Call<'static>; 2] = [
    Call::Destroy { number: 102 },
    Call::Destroy { number: 101 },
];

// What the live timetable then reads and uses.
pub const AFTER: [Call<'static>; 4] = [
    Call::Read {
        number: 1,
        position: 0,
    },
    Call::Read {
        number: 1,
        position: 1,
    },
    Call::Read {
        number: 1,
        position: 9,
    },
    Call::Used { number: 1 },
];
