//! Scripts that are refused.

/// What is wrong, a script that is refused for it, and the report.
pub(crate) const REFUSED: [(&str, &str, &str); 53] = [
    (
        "a first word of no line",
        "node a 7f000001 7946 - - 0\nswap 0 1",
        "line 2: fault 31 BadScript",
    ),
    (
        "a first word in capitals",
        "REFUTE 0",
        "line 1: fault 31 BadScript",
    ),
    (
        "a line after level",
        "level\nrefute 0",
        "line 2: fault 31 BadScript",
    ),
    (
        "a second level",
        "level\r\n\r\nlevel",
        "line 3: fault 31 BadScript",
    ),
    (
        "a node after level",
        "level\nnode a 7f000001 7946 - - 0",
        "line 2: fault 31 BadScript",
    ),
    (
        "a node after an event",
        "refute 0\nnode a 7f000001 7946 - - 0",
        "line 2: fault 31 BadScript",
    ),
    (
        "a wrong node after an event",
        "refute 0\nnode a zz 7946 - - 0",
        "line 2: fault 31 BadScript",
    ),
    (
        "the first of two wrong lines",
        "hear 0 zz\nswap",
        "line 1: fault 30 BadHex",
    ),
    (
        "a wrong line after empty ones",
        "\n\r\nswap",
        "line 3: fault 31 BadScript",
    ),
    (
        "a space before the first word",
        " refute 0",
        "line 1: fault 31 BadScript",
    ),
    (
        "a space after the last word",
        "refute 0 ",
        "line 1: fault 31 BadScript",
    ),
    ("two spaces", "exchange 0  1", "line 1: fault 31 BadScript"),
    ("a space alone", " ", "line 1: fault 31 BadScript"),
    (
        "a second carriage return",
        "refute 0\r\r",
        "line 1: fault 31 BadScript",
    ),
    (
        "a carriage return after one",
        "\r\r\n",
        "line 1: fault 31 BadScript",
    ),
    (
        "a node with a word too few",
        "node a zz 7946 - -",
        "line 1: fault 31 BadScript",
    ),
    (
        "a node with a word too many",
        "node a 7f000001 7946 - - 0 0",
        "line 1: fault 31 BadScript",
    ),
    (
        "a long line of spaces",
        "          ",
        "line 1: fault 31 BadScript",
    ),
    (
        "an exchange of one",
        "exchange 0",
        "line 1: fault 31 BadScript",
    ),
    (
        "a half of three",
        "half 0 1 2",
        "line 1: fault 31 BadScript",
    ),
    ("nobody refutes", "refute", "line 1: fault 31 BadScript"),
    ("nothing is heard", "hear 0", "line 1: fault 31 BadScript"),
    ("level with a word", "level 0", "line 1: fault 31 BadScript"),
    (
        "the address before the port",
        "node a zz x - - 0",
        "line 1: fault 30 BadHex",
    ),
    (
        "the port before the metadata",
        "node a 7f000001 x zz - 0",
        "line 1: fault 31 BadScript",
    ),
    (
        "the metadata before the incarnation",
        "node a 7f000001 7946 0 - x",
        "line 1: fault 30 BadHex",
    ),
    (
        "the versions before the incarnation",
        "node a 7f000001 7946 - 0g x",
        "line 1: fault 30 BadHex",
    ),
    (
        "the incarnation before the name",
        "node  7f000001 7946 - - x",
        "line 1: fault 31 BadScript",
    ),
    (
        "a port of 65,536",
        "node a 7f000001 65536 - - 0",
        "line 1: fault 31 BadScript",
    ),
    (
        "an incarnation of 2^32",
        "node a 7f000001 7946 - - 4294967296",
        "line 1: fault 31 BadScript",
    ),
    (
        "an empty address",
        "node a  7946 - - 0",
        "line 1: fault 30 BadHex",
    ),
    (
        "an empty port",
        "node a 7f000001  - - 0",
        "line 1: fault 31 BadScript",
    ),
    (
        "an empty incarnation",
        "node a 7f000001 7946 - - ",
        "line 1: fault 31 BadScript",
    ),
    (
        "the name before the address",
        "node  7f00 7946 - - 0",
        "line 1: fault 11 NameEmpty",
    ),
    (
        "an address of no bytes",
        "node a - 7946 - - 0",
        "line 1: fault 13 BadAddress",
    ),
    (
        "the address before the versions",
        "node a 7f0000 7946 - 00 0",
        "line 1: fault 13 BadAddress",
    ),
    (
        "versions of one byte",
        "node a 7f000001 7946 - 00 0",
        "line 1: fault 15 BadVersions",
    ),
    (
        "a number that is a word",
        "exchange 0 x",
        "line 1: fault 31 BadScript",
    ),
    (
        "a number with a plus",
        "refute +0",
        "line 1: fault 31 BadScript",
    ),
    (
        "a number with a minus",
        "refute -1",
        "line 1: fault 31 BadScript",
    ),
    (
        "a number of 2^64",
        "refute 18446744073709551616",
        "line 1: fault 31 BadScript",
    ),
    (
        "a zero of 21 digits",
        "refute 000000000000000000000",
        "line 1: fault 31 BadScript",
    ),
    (
        "the node before the bytes",
        "hear x zz",
        "line 1: fault 31 BadScript",
    ),
    (
        "the bytes before the node is looked for",
        "hear 9 zz",
        "line 1: fault 30 BadHex",
    ),
    (
        "no hexadecimal is heard",
        "hear 0 ",
        "line 1: fault 30 BadHex",
    ),
    ("no byte is heard", "hear 0 -", "line 1: fault 1 Ended"),
    (
        "a compound packet without its count",
        "hear 0 07",
        "line 1: fault 1 Ended",
    ),
    (
        "a message of another type",
        "hear 0 09",
        "line 1: fault 16 WrongType 9",
    ),
    (
        "a packet with a key twice",
        "hear 0 0383a44e6f6465a161a44e6f6465a162",
        "line 1: fault 18 DuplicateKey",
    ),
    (
        "a packet of no name",
        "hear 0 0380",
        "line 1: fault 11 NameEmpty",
    ),
    (
        "a cut compound packet",
        "hear 0 0701",
        "line 1: fault 1 Ended",
    ),
    (
        "a compound packet with more after it",
        "hear 0 070000",
        "line 1: fault 22 Trailing",
    ),
    (
        "a compound packet of no hexadecimal",
        "hear 0 07000",
        "line 1: fault 30 BadHex",
    ),
];
