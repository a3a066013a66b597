// Lines that stand where their kind may not, and which refusal counts where there are two.
pub const TEXTS: [(&str, &str); 21] = [
    ("node before problem", "n 1 5\np min 2 0\n"),
    ("node before problem, bad ID", "n 0 5\np min 2 0\n"),
    ("node before problem, out of form", "n 1\np min 2 0\n"),
    (
        "node before problem, behind a comment",
        "c\nn 1 5\np min 2 0\n",
    ),
    ("node alone", "n 1 5"),
    ("arc before problem", "a 1 2 0 5 7\np min 2 1\n"),
    (
        "arc before problem, bad fields",
        "a 0 0 1 501 10001\np min 2 1\n",
    ),
    ("arc before problem, out of form", "a 1 2 0 5\np min 2 1\n"),
    ("arc alone", "a 1 2 0 5 7"),
    ("second problem", "p min 2 0\np min 2 0\n"),
    ("second problem, bad ranges", "p min 2 0\np min 0 3001\n"),
    (
        "second problem, too large for the tables",
        "p min 2 0\np min 240 3000\n",
    ),
    ("second problem, out of form", "p min 2 0\np min 2\n"),
    (
        "second problem, behind an arc",
        "p min 2 1\na 1 2 0 5 7\np min 2 1\n",
    ),
    ("bad problem before a good one", "p min 0 0\np min 2 0\n"),
    ("node behind arc", "p min 2 1\na 1 2 0 5 7\nn 1 5\n"),
    ("node behind arc, bad ID", "p min 2 1\na 1 2 0 5 7\nn 3 5\n"),
    (
        "node behind arc, bad flow",
        "p min 2 1\na 1 2 0 5 7\nn 1 501\n",
    ),
    (
        "node behind arc, out of form",
        "p min 2 1\na 1 2 0 5 7\nn 1\n",
    ),
    (
        "node behind arc and comment",
        "p min 2 1\na 1 2 0 5 7\nc\nn 1 5\n",
    ),
    (
        "node behind node",
        "p min 2 1\nn 1 5\nn 2 -5\na 1 2 0 5 7\n",
    ),
];
