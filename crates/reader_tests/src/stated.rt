// Texts that are accepted, and the networks that they state.
// As many stations and legs as the tables have room for.
const EIGHT: &str = "p min 8 8\nn 8 1\n\
    a 1 8 0 1 1\na 2 7 0 2 2\na 3 6 0 3 3\na 4 5 0 4 4\n\
    a 5 4 0 5 5\na 6 3 0 6 6\na 7 2 0 7 7\na 8 1 0 8 8\n";

pub const TEXTS: [(&str, &str); 11] = [
    ("last node line counts", "p min 3 0\nn 2 5\nn 2 -7\n"),
    ("last node line says 0", "p min 3 0\nn 2 5\nn 2 0\n"),
    (
        "last node line spelled with zeros",
        "p min 3 0\nn 2 5\nn 002 6\n",
    ),
    (
        "node lines in any order",
        "p min 3 0\nn 3 3\nn 1 1\nn 2 2\n",
    ),
    ("balances need not add up", "p min 2 0\nn 1 500\nn 2 500\n"),
    ("no node lines", "p min 3 0\n"),
    (
        "parallel arcs",
        "p min 2 3\na 1 2 0 5 7\na 1 2 0 5 7\na 1 2 0 4 9\n",
    ),
    (
        "arcs there and back",
        "p min 2 2\na 1 2 0 5 7\na 2 1 0 5 7\n",
    ),
    (
        "legs in the order of their lines",
        "p min 3 3\na 3 1 0 3 1\na 1 2 0 1 2\na 2 3 0 2 3\n",
    ),
    (
        "comments between",
        "c\np min 2 1\nc\nn 1 -4\nc n 1 5\nn 2 4\nc\na 1 2 0 5 7\nc\n",
    ),
    ("eight and eight", EIGHT),
];
