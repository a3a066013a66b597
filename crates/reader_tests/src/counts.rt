// More and fewer arc lines than announced, and which of two wrong lines counts.
pub const TEXTS: [(&str, &str); 16] = [
    ("arc too many", "p min 2 1\na 1 2 0 5 7\na 2 1 0 5 7\n"),
    ("arc too many of none", "p min 2 0\na 1 2 0 5 7\n"),
    (
        "arc too many, bad field",
        "p min 2 1\na 1 2 0 5 7\na 2 1 0 501 7\n",
    ),
    (
        "arc too many, same ends",
        "p min 2 1\na 1 2 0 5 7\na 2 2 0 5 7\n",
    ),
    (
        "arc too many, out of form",
        "p min 2 1\na 1 2 0 5 7\na 2 1 0 5\n",
    ),
    (
        "arc too many, behind a comment",
        "p min 2 1\na 1 2 0 5 7\nc\na 2 1 0 5 7\n",
    ),
    (
        "arc too many, before a wrong line",
        "p min 2 1\na 1 2 0 5 7\na 2 1 0 5 7\nx\n",
    ),
    ("arc too few", "p min 2 2\na 1 2 0 5 7\n"),
    ("arc too few, a comment last", "p min 2 2\na 1 2 0 5 7\nc\n"),
    ("arc too few, without a line end", "p min 2 2\na 1 2 0 5 7"),
    ("arcs announced, none given", "p min 2 1\n"),
    ("arcs announced, nodes given", "p min 2 1\nn 1 5\n"),
    (
        "arc too few, a wrong line last",
        "p min 2 2\na 1 2 0 5 7\nx\n",
    ),
    ("bad range before bad form", "p min 2 1\nn 3 5\nx\n"),
    ("bad form before bad range", "p min 2 1\nx\nn 3 5\n"),
    ("bad order before bad form", "p min 2 1\np min 2 1\nx\n"),
];
