use crate::case::{Case, Planned};

/// The files of every case.
pub static FILES: [(&str, &str); 8] = [
    (
        "clean.c",
        "int a[4]; int x; int main() { x = 3; a[3] = 9; putint(x); }\n",
    ),
    (
        "overrun.c",
        "int a[4];\nint x;\nint main() {\n  x = 3;\n  a[4] = 9;\n  putint(x);\n}\n",
    ),
    (
        "race.c",
        "int x; int y; int main() { x = 1; par { { x = 2; } { y = x; } } putint(y); }\n",
    ),
    ("unknown.c", "int main() { return m; }\n"),
    ("in", ""),
    ("bad.in", "1 2x\n"),
    ("second", "1 1 18 18 17 1 1\n"),
    ("wrong", "1 17\n"),
];

static ROWS: [Case; 12] = [
    Case {
        title: "a run",
        words: &["replay", "clean.c", "in"],
        planned: Planned::Nothing,
    },
    Case {
        title: "an alarm",
        words: &["replay", "overrun.c", "in"],
        planned: Planned::Nothing,
    },
    Case {
        title: "along names",
        words: &["replay", "race.c", "in", "second"],
        planned: Planned::Nothing,
    },
    Case {
        title: "names that are refused",
        words: &["replay", "race.c", "in", "wrong"],
        planned: Planned::Nothing,
    },
    Case {
        title: "a source that is refused",
        words: &["replay", "unknown.c", "bad.in"],
        planned: Planned::Nothing,
    },
    Case {
        title: "an input that is refused",
        words: &["replay", "clean.c", "bad.in"],
        planned: Planned::Nothing,
    },
    Case {
        title: "no file",
        words: &["replay", "none.c", "in"],
        planned: Planned::Nothing,
    },
    Case {
        title: "no names",
        words: &["replay", "race.c", "in", "none"],
        planned: Planned::Nothing,
    },
    Case {
        title: "words that ask for nothing",
        words: &["replay", "clean.c"],
        planned: Planned::Nothing,
    },
    Case {
        title: "a command that is not there",
        words: &["check", "clean.c"],
        planned: Planned::Nothing,
    },
    Case {
        title: "the load of the input fails",
        words: &["replay", "clean.c", "in"],
        planned: Planned::Load(1),
    },
    Case {
        title: "the write fails behind its first line",
        words: &["replay", "overrun.c", "in"],
        planned: Planned::Write(28),
    },
];

/// The table.
pub fn rows() -> &'static [Case] {
    &ROWS
}
