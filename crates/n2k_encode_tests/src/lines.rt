//! JSON lines, and the data or the refusals that they give.
use json::Scratch;
use n2k_encode::{EncodeError, encode_line};
use n2k_table::Table;
use std::alloc::Global;
use std::mem::ManuallyDrop;
use std::process::Abort;
use std::test::Fail;

// Fields of each kind, in single frames and in fast packets.
const TABLE: &str = "format = 3

[[lookup]]
name = \"Reference\"
entries = [[0, \"True\"], [1, \"Magnetic\"], [2, \"Error\"]]

[[lookup]]
name = \"Status\"
entries = [[0, \"Check Engine\"], [1, \"Over Temperature\"], [3, \"Low Oil\"]]

[[lookup]]
name = \"Twice\"
entries = [[4, \"A\"], [1, \"A\"], [2, \"B\"], [3, \"B\"]]

[[pgn]]
number = 127250
kind = \"single\"
description = \"Heading\"
fields = [
  { name = \"SID\", kind = \"number\", at = 0, bits = 8 },
  { name = \"Heading\", kind = \"number\", at = 8, bits = 16, resolution = \"0.0001\" },
  { name = \"Deviation\", kind = \"number\", at = 24, bits = 16, signed = true, resolution = \"0.0001\" },
  { name = \"Variation\", kind = \"number\", at = 40, bits = 16, signed = true, resolution = \"0.0001\" },
  { name = \"Reference\", kind = \"lookup\", at = 56, bits = 2, lookup = \"Reference\" },
]

[[pgn]]
number = 128267
kind = \"single\"
description = \"Depth\"
fields = [
  { name = \"SID\", kind = \"number\", at = 0, bits = 8 },
  { name = \"Depth\", kind = \"number\", at = 8, bits = 32, resolution = \"0.01\" },
  { name = \"Offset\", kind = \"number\", at = 40, bits = 16, signed = true, resolution = \"0.001\" },
  { name = \"Range\", kind = \"number\", at = 56, bits = 8, resolution = \"10\" },
]

[[pgn]]
number = 130820
kind = \"fast\"
description = \"Value\"
fields = [
  { name = \"Maker\", kind = \"number\", at = 0, bits = 11, match = 419 },
  { name = \"Industry\", kind = \"number\", at = 13, bits = 3, match = 4 },
  { name = \"Kind\", kind = \"number\", at = 16, bits = 8, match = 1 },
  { name = \"Value\", kind = \"number\", at = 24, bits = 16 },
]

[[pgn]]
number = 130820
kind = \"fast\"
description = \"Name\"
fields = [
  { name = \"Maker\", kind = \"number\", at = 0, bits = 11, match = 419 },
  { name = \"Industry\", kind = \"number\", at = 13, bits = 3, match = 4 },
  { name = \"Kind\", kind = \"number\", at = 16, bits = 8, match = 2 },
  { name = \"Name\", kind = \"text\", at = 24, bits = 64 },
]

[[pgn]]
number = 130822
kind = \"fast\"
description = \"Pairs\"
fields = [ { name = \"SID\", kind = \"number\", at = 0, bits = 8 } ]
repeat = { at = 8, bits = 24, fields = [
  { name = \"Id\", kind = \"number\", at = 0, bits = 8 },
  { name = \"Value\", kind = \"number\", at = 8, bits = 16, signed = true, resolution = \"0.1\" },
] }

[[pgn]]
number = 130823
kind = \"fast\"
description = \"Texts\"
fields = [
  { name = \"A\", kind = \"string\", at = 0, form = \"lau\" },
  { name = \"B\", kind = \"string\", at = 0, after = \"A\", form = \"lz\" },
  { name = \"C\", kind = \"number\", at = 0, bits = 8, after = \"B\", offset = -40 },
  { name = \"D\", kind = \"flags\", at = 8, bits = 8, after = \"B\", lookup = \"Status\" },
  { name = \"E\", kind = \"bytes\", at = 16, bits = 64, after = \"B\", short = true },
]

[[pgn]]
number = 130827
kind = \"fast\"
description = \"Digits\"
fields = [
  { name = \"MMSI\", kind = \"digits\", at = 0, bits = 40 },
  { name = \"T\", kind = \"text\", at = 40, bits = 32 },
  { name = \"Y\", kind = \"bytes\", at = 72, bits = 16 },
  { name = \"One\", kind = \"number\", at = 88, bits = 1 },
]

[[pgn]]
number = 130828
kind = \"fast\"
description = \"Names\"
fields = [
  { name = \"L\", kind = \"lookup\", at = 0, bits = 2, lookup = \"Twice\" },
  { name = \"M\", kind = \"lookup\", at = 2, bits = 2, lookup = \"Twice\", match = 3 },
  { name = \"F\", kind = \"flags\", at = 8, bits = 4, lookup = \"Twice\" },
]

[[pgn]]
number = 130829
kind = \"fast\"
description = \"Shared\"
fields = [
  { name = \"A\", kind = \"number\", at = 0, bits = 8 },
  { name = \"B\", kind = \"number\", at = 8, bits = 8 },
  { name = \"C\", kind = \"number\", at = 12, bits = 8 },
]

[[pgn]]
number = 130830
kind = \"fast\"
description = \"Sets\"
fields = []
repeat = { at = 0, bits = 8, fields = [
  { name = \"B\", kind = \"number\", at = 0, bits = 1 },
  { name = \"C\", kind = \"number\", at = 1, bits = 7 },
] }

[[pgn]]
number = 130831
kind = \"fast\"
description = \"Unmatched\"
fields = [
  { name = \"F\", kind = \"number\", at = 0, bits = 8, match = 4 },
  { name = \"Data\", kind = \"bytes\", at = 8, bits = 16 },
]

[[pgn]]
number = 130832
kind = \"fast\"
description = \"Inside\"
fields = [ { name = \"A\", kind = \"number\", at = 8, bits = 8 } ]
repeat = { at = 0, bits = 24, fields = [
  { name = \"B\", kind = \"number\", at = 0, bits = 8 },
  { name = \"C\", kind = \"number\", at = 12, bits = 8 },
] }
";

// Each number is exactly one that its field can show.
const ENCODED: [(&str, &[u8]); 39] = [
    // The field A is inside the first set, and shares bits 12 to 15 of the message with C.
    (
        "{\"pgn\":130832,\"fields\":{\"A\":5,\"list\":[{\"B\":1,\"C\":16}]}}",
        &[0x01, 0x05, 0xf1],
    ),
    (
        "{\"pgn\":130832,\"fields\":{\"A\":21,\"list\":[{\"B\":1,\"C\":33},{\"B\":2}]}}",
        &[0x01, 0x15, 0xf2, 0x02, 0xff, 0xff],
    ),
    (
        "{\"pgn\":130832,\"fields\":{\"A\":245,\"list\":[{},{\"C\":1}]}}",
        &[0xff, 0xf5, 0xff, 0xff, 0x1f, 0xf0],
    ),
    ("{\"pgn\":130832,\"fields\":{\"A\":5}}", &[0xff, 0x05]),
    // 4 is the first value named A, and neither two bits nor four flags can hold it. The field M has to be 3.
    (
        "{\"pgn\":130828,\"fields\":{\"L\":\"A\",\"M\":\"B\",\"F\":[\"A\"]}}",
        &[0xfd, 0xf2],
    ),
    (
        "{\"pgn\":130828,\"fields\":{\"L\":\"B\",\"M\":\"B\",\"F\":[\"B\",\"A\"]}}",
        &[0xfe, 0xf6],
    ),
    // Bytes are tried before the definition described as `Unmatched`.
    (
        "{\"pgn\":130831,\"description\":\"Unmatched\",\"fields\":{\"Data\":\"05 06\"}}",
        &[0x05, 0x06],
    ),
    (
        "{\"pgn\":130831,\"description\":\"Unmatched\",\"fields\":{\"Data\":\"04 06\"}}",
        &[0x04, 0x04, 0x06],
    ),
    (
        "{\"pgn\":130831,\"description\":\"Unmatched\",\"fields\":{\"F\":4}}",
        &[0x04],
    ),
    // 240 bytes of UTF-8 do not fit into a message.
    (
        "{\"pgn\":130823,\"fields\":{\"A\":\"éééééééééééééééééééééééééééééééééééééééééééééééééééééééééééééééééééééééééééééééééééééééééééééééééééééééééééééééééééééééé\"}}",
        &[
            0x7a, 0x01, 0xe9, 0xe9, 0xe9, 0xe9, 0xe9, 0xe9, 0xe9, 0xe9, 0xe9, 0xe9, 0xe9, 0xe9,
            0xe9, 0xe9, 0xe9, 0xe9, 0xe9, 0xe9, 0xe9, 0xe9, 0xe9, 0xe9, 0xe9, 0xe9, 0xe9, 0xe9,
            0xe9, 0xe9, 0xe9, 0xe9, 0xe9, 0xe9, 0xe9, 0xe9, 0xe9, 0xe9, 0xe9, 0xe9, 0xe9, 0xe9,
            0xe9, 0xe9, 0xe9, 0xe9, 0xe9, 0xe9, 0xe9, 0xe9, 0xe9, 0xe9, 0xe9, 0xe9, 0xe9, 0xe9,
            0xe9, 0xe9, 0xe9, 0xe9, 0xe9, 0xe9, 0xe9, 0xe9, 0xe9, 0xe9, 0xe9, 0xe9, 0xe9, 0xe9,
            0xe9, 0xe9, 0xe9, 0xe9, 0xe9, 0xe9, 0xe9, 0xe9, 0xe9, 0xe9, 0xe9, 0xe9, 0xe9, 0xe9,
            0xe9, 0xe9, 0xe9, 0xe9, 0xe9, 0xe9, 0xe9, 0xe9, 0xe9, 0xe9, 0xe9, 0xe9, 0xe9, 0xe9,
            0xe9, 0xe9, 0xe9, 0xe9, 0xe9, 0xe9, 0xe9, 0xe9, 0xe9, 0xe9, 0xe9, 0xe9, 0xe9, 0xe9,
            0xe9, 0xe9, 0xe9, 0xe9, 0xe9, 0xe9, 0xe9, 0xe9, 0xe9, 0xe9,
        ],
    ),
    ("{\"pgn\":130823,\"fields\":{}}", &[]),
    ("{\"pgn\":130827,\"fields\":{\"One\":null}}", &[]),
    (
        "{\"pgn\":127250,\"fields\":{\"Heading\":1.5708,\"Reference\":\"Magnetic\"}}",
        &[0xff, 0x5c, 0x3d, 0xff, 0x7f, 0xff, 0x7f, 0xfd],
    ),
    (
        "{\"pgn\":128267,\"src\":5,\"fields\":{\"SID\":1,\"Depth\":3.4,\"Offset\":-0.5}}",
        &[0x01, 0x54, 0x01, 0x00, 0x00, 0x0c, 0xfe, 0xff],
    ),
    (
        "{\"pgn\":128267,\"fields\":{\"Depth\":34e-1}}",
        &[0xff, 0x54, 0x01, 0x00, 0x00, 0xff, 0x7f, 0xff],
    ),
    (
        "{\"pgn\":128267,\"fields\":{\"Depth\":3.400000}}",
        &[0xff, 0x54, 0x01, 0x00, 0x00, 0xff, 0x7f, 0xff],
    ),
    (
        "{\"pgn\":128267,\"fields\":{\"Depth\":null}}",
        &[0xff, 0xff, 0xff, 0xff, 0xff, 0xff, 0x7f, 0xff],
    ),
    (
        "{\"pgn\":128267,\"fields\":{\"Offset\":-0}}",
        &[0xff, 0xff, 0xff, 0xff, 0xff, 0x00, 0x00, 0xff],
    ),
    (
        "{\"pgn\":128267,\"fields\":{\"Offset\":-32.768}}",
        &[0xff, 0xff, 0xff, 0xff, 0xff, 0x00, 0x80, 0xff],
    ),
    (
        "{\"pgn\":128267,\"fields\":{\"Offset\":32.765}}",
        &[0xff, 0xff, 0xff, 0xff, 0xff, 0xfd, 0x7f, 0xff],
    ),
    (
        "{\"pgn\":128267,\"fields\":{\"Range\":2.53e3}}",
        &[0xff, 0xff, 0xff, 0xff, 0xff, 0xff, 0x7f, 0xfd],
    ),
    (
        "{\"pgn\":1.28267e5,\"prio\":0,\"timestamp\":\"12:00\",\"dst\":255,\"fields\":{}}",
        &[0xff, 0xff, 0xff, 0xff, 0xff, 0xff, 0x7f, 0xff],
    ),
    (
        "{\"pgn\":130820,\"fields\":{\"Value\":5}}",
        &[0xa3, 0x99, 0x01, 0x05, 0x00],
    ),
    (
        "{\"pgn\":130820,\"fields\":{\"Maker\":419,\"Industry\":4,\"Kind\":1,\"Value\":5}}",
        &[0xa3, 0x99, 0x01, 0x05, 0x00],
    ),
    (
        "{\"pgn\":130820,\"fields\":{\"Name\":\"AB\"}}",
        &[
            0xa3, 0x99, 0x02, 0x41, 0x42, 0xff, 0xff, 0xff, 0xff, 0xff, 0xff,
        ],
    ),
    (
        "{\"pgn\":130820,\"description\":\"Name\",\"fields\":{}}",
        &[
            0xa3, 0x99, 0x02, 0xff, 0xff, 0xff, 0xff, 0xff, 0xff, 0xff, 0xff,
        ],
    ),
    ("{\"pgn\":130822,\"fields\":{\"SID\":1}}", &[0x01]),
    (
        "{\"pgn\":130822,\"fields\":{\"SID\":1,\"list\":[{\"Id\":10,\"Value\":10},{\"Id\":11}]}}",
        &[0x01, 0x0a, 0x64, 0x00, 0x0b, 0xff, 0x7f],
    ),
    (
        "{\"pgn\":130822,\"fields\":{\"list\":[{\"Value\":-0.1,\"Id\":0}]}}",
        &[0xff, 0x00, 0xff, 0xff],
    ),
    (
        "{\"pgn\":130823,\"fields\":{\"A\":\"Hi\",\"B\":\"Yo\",\"C\":20,\"D\":[\"Check Engine\",2],\"E\":\"DE AD\"}}",
        &[
            0x04, 0x01, 0x48, 0x69, 0x02, 0x59, 0x6f, 0x3c, 0x05, 0xde, 0xad,
        ],
    ),
    (
        "{\"pgn\":130823,\"fields\":{\"A\":\"Hi\",\"B\":\"Yo\",\"C\":20,\"D\":[2,\"Check Engine\"]}}",
        &[0x04, 0x01, 0x48, 0x69, 0x02, 0x59, 0x6f, 0x3c, 0x05],
    ),
    (
        "{\"pgn\":130823,\"fields\":{\"B\":\"Yo\",\"C\":-40,\"D\":[\"Low Oil\"]}}",
        &[0x02, 0x01, 0x02, 0x59, 0x6f, 0x00, 0x08],
    ),
    (
        "{\"pgn\":130823,\"fields\":{\"A\":\"\\u00e9\",\"D\":[]}}",
        &[0x04, 0x01, 0xc3, 0xa9, 0x00, 0xff, 0x00],
    ),
    (
        "{\"pgn\":130823,\"fields\":{\"C\":213}}",
        &[0x02, 0x01, 0x00, 0xfd],
    ),
    (
        "{\"pgn\":130827,\"fields\":{\"MMSI\":\"2111234567\",\"T\":\"AB\",\"Y\":\"01 02\",\"One\":1}}",
        &[
            0x15, 0x0b, 0x17, 0x2d, 0x43, 0x41, 0x42, 0xff, 0xff, 0x01, 0x02, 0xff,
        ],
    ),
    (
        "{\"pgn\":130827,\"fields\":{\"MMSI\":\"2111234567\",\"T\":\"AB\",\"Y\":\"01 02\",\"One\":0}}",
        &[
            0x15, 0x0b, 0x17, 0x2d, 0x43, 0x41, 0x42, 0xff, 0xff, 0x01, 0x02, 0xfe,
        ],
    ),
    (
        "{\"pgn\":130827,\"fields\":{\"MMSI\":\"21\"}}",
        &[0x15, 0xff, 0xff, 0xff, 0xff],
    ),
    (
        "{\"pgn\":130820,\"description\":\"Unmatched\",\"fields\":{\"Data\":\"A3 99 05\"}}",
        &[0xa3, 0x99, 0x05],
    ),
    (
        "{\"pgn\":130820,\"description\":\"Unmatched\",\"fields\":{\"Data\":\"\"}}",
        &[],
    ),
];

// A number that its field cannot show gives the nearest one.
const NEAREST: [(&str, &[u8]); 6] = [
    (
        "{\"pgn\":128267,\"fields\":{\"Depth\":3.401}}",
        &[0xff, 0x54, 0x01, 0x00, 0x00, 0xff, 0x7f, 0xff],
    ),
    (
        "{\"pgn\":128267,\"fields\":{\"Depth\":3.405}}",
        &[0xff, 0x54, 0x01, 0x00, 0x00, 0xff, 0x7f, 0xff],
    ),
    (
        "{\"pgn\":128267,\"fields\":{\"Depth\":3.4050001}}",
        &[0xff, 0x55, 0x01, 0x00, 0x00, 0xff, 0x7f, 0xff],
    ),
    (
        "{\"pgn\":128267,\"fields\":{\"Depth\":3.415}}",
        &[0xff, 0x56, 0x01, 0x00, 0x00, 0xff, 0x7f, 0xff],
    ),
    (
        "{\"pgn\":128267,\"fields\":{\"Offset\":-0.0005}}",
        &[0xff, 0xff, 0xff, 0xff, 0xff, 0x00, 0x00, 0xff],
    ),
    (
        "{\"pgn\":128267,\"fields\":{\"Offset\":-0.0006}}",
        &[0xff, 0xff, 0xff, 0xff, 0xff, 0xff, 0xff, 0xff],
    ),
];

// A refused line, and the number and the field of its refusal.
const REFUSED: [(&str, u8, &str); 54] = [
    (
        "{\"pgn\":130822,\"fields\":{\"SID\":255,\"list\":[1,{\"X\":1}]}}",
        16,
        "X",
    ),
    ("", 13, ""),
    ("[1]", 13, ""),
    ("{\"pgn\":128267,\"fields\":{\"SID\":1,\"SID\":2}}", 13, ""),
    ("{\"fields\":{}}", 14, ""),
    ("{\"pgn\":128267}", 14, ""),
    ("{\"pgn\":128267,\"fields\":[]}", 14, ""),
    ("{\"pgn\":128267,\"srcs\":1,\"fields\":{}}", 14, ""),
    ("{\"pgn\":131072,\"fields\":{}}", 14, ""),
    ("{\"pgn\":128267,\"prio\":8,\"fields\":{}}", 14, ""),
    ("{\"pgn\":128267,\"src\":1.5,\"fields\":{}}", 14, ""),
    ("{\"pgn\":128267,\"src\":-1,\"fields\":{}}", 14, ""),
    (
        "{\"pgn\":128267,\"timestamp\":\"a,b\",\"fields\":{}}",
        14,
        "",
    ),
    ("{\"pgn\":59904,\"fields\":{}}", 8, ""),
    ("{\"pgn\":128267,\"dst\":3,\"fields\":{}}", 12, ""),
    (
        "{\"pgn\":128267,\"description\":\"Speed\",\"fields\":{}}",
        15,
        "",
    ),
    ("{\"pgn\":128267,\"fields\":{\"Dept\":3.4}}", 16, "Dept"),
    (
        "{\"pgn\":130822,\"fields\":{\"list\":[{\"X\":1}]}}",
        16,
        "X",
    ),
    ("{\"pgn\":128267,\"fields\":{\"Depth\":3.401}}", 17, "Depth"),
    (
        "{\"pgn\":127250,\"fields\":{\"Heading\":6.5535}}",
        17,
        "Heading",
    ),
    (
        "{\"pgn\":128267,\"fields\":{\"Depth\":\"3.4\"}}",
        17,
        "Depth",
    ),
    ("{\"pgn\":128267,\"fields\":{\"Depth\":-0.01}}", 17, "Depth"),
    (
        "{\"pgn\":128267,\"fields\":{\"Depth\":1e1000000000}}",
        17,
        "Depth",
    ),
    (
        "{\"pgn\":128267,\"fields\":{\"Offset\":32.766}}",
        17,
        "Offset",
    ),
    ("{\"pgn\":128267,\"fields\":{\"Range\":2540}}", 17, "Range"),
    (
        "{\"pgn\":127250,\"fields\":{\"Reference\":\"Grid\"}}",
        17,
        "Reference",
    ),
    (
        "{\"pgn\":127250,\"fields\":{\"Reference\":1}}",
        17,
        "Reference",
    ),
    (
        "{\"pgn\":127250,\"fields\":{\"Reference\":3}}",
        17,
        "Reference",
    ),
    (
        "{\"pgn\":130820,\"fields\":{\"Kind\":2,\"Value\":5}}",
        17,
        "Kind",
    ),
    (
        "{\"pgn\":130820,\"description\":\"Name\",\"fields\":{\"Name\":\"ABCDEFGHI\"}}",
        17,
        "Name",
    ),
    (
        "{\"pgn\":130820,\"description\":\"Name\",\"fields\":{\"Name\":\"A \"}}",
        17,
        "Name",
    ),
    ("{\"pgn\":130822,\"fields\":{\"list\":{}}}", 17, "list"),
    ("{\"pgn\":130822,\"fields\":{\"list\":[1]}}", 17, "list"),
    (
        "{\"pgn\":130822,\"fields\":{\"list\":[{\"Id\":255}]}}",
        17,
        "Id",
    ),
    ("{\"pgn\":130823,\"fields\":{\"A\":\"\"}}", 17, "A"),
    ("{\"pgn\":130823,\"fields\":{\"C\":214}}", 17, "C"),
    ("{\"pgn\":130823,\"fields\":{\"C\":-41}}", 17, "C"),
    (
        "{\"pgn\":130823,\"fields\":{\"D\":[\"Low Oil\",\"Low Oil\"]}}",
        17,
        "D",
    ),
    ("{\"pgn\":130823,\"fields\":{\"D\":[1]}}", 17, "D"),
    ("{\"pgn\":130823,\"fields\":{\"D\":[8]}}", 17, "D"),
    ("{\"pgn\":130827,\"fields\":{\"MMSI\":\"211\"}}", 17, "MMSI"),
    ("{\"pgn\":130827,\"fields\":{\"Y\":\"01\"}}", 17, "Y"),
    ("{\"pgn\":130827,\"fields\":{\"Y\":\"0a 0b\"}}", 17, "Y"),
    (
        "{\"pgn\":128267,\"description\":\"Unmatched\",\"fields\":{\"Data\":\"01 02 03 04 05 06 07 08 09\"}}",
        9,
        "",
    ),
    // 256 bytes, more than a field of a table has.
    (
        "{\"pgn\":130820,\"description\":\"Unmatched\",\"fields\":{\"Data\":\"00 00 00 00 00 00 00 00 00 00 00 00 00 00 00 00 00 00 00 00 00 00 00 00 00 00 00 00 00 00 00 00 00 00 00 00 00 00 00 00 00 00 00 00 00 00 00 00 00 00 00 00 00 00 00 00 00 00 00 00 00 00 00 00 00 00 00 00 00 00 00 00 00 00 00 00 00 00 00 00 00 00 00 00 00 00 00 00 00 00 00 00 00 00 00 00 00 00 00 00 00 00 00 00 00 00 00 00 00 00 00 00 00 00 00 00 00 00 00 00 00 00 00 00 00 00 00 00 00 00 00 00 00 00 00 00 00 00 00 00 00 00 00 00 00 00 00 00 00 00 00 00 00 00 00 00 00 00 00 00 00 00 00 00 00 00 00 00 00 00 00 00 00 00 00 00 00 00 00 00 00 00 00 00 00 00 00 00 00 00 00 00 00 00 00 00 00 00 00 00 00 00 00 00 00 00 00 00 00 00 00 00 00 00 00 00 00 00 00 00 00 00 00 00 00 00 00 00 00 00 00 00 00 00 00 00 00 00 00 00 00 00 00 00 00 00 00 00 00 00 00 00 00 00 00 00\"}}",
        9,
        "",
    ),
    (
        "{\"pgn\":130820,\"description\":\"Unmatched\",\"fields\":{\"Data\":\"A3 99 01\"}}",
        18,
        "Data",
    ),
    ("{\"pgn\":130827,\"fields\":{\"One\":1}}", 18, "Y"),
    ("{\"pgn\":130828,\"fields\":{\"M\":\"A\"}}", 17, "M"),
    // Bits 12 to 15 of the message belong to B and to C.
    ("{\"pgn\":130829,\"fields\":{\"B\":5,\"C\":2}}", 18, "B"),
    (
        "{\"pgn\":130832,\"fields\":{\"A\":5,\"list\":[{\"C\":18}]}}",
        18,
        "A",
    ),
    (
        "{\"pgn\":130832,\"fields\":{\"A\":5,\"list\":[{\"B\":1}]}}",
        18,
        "list",
    ),
    // A number of one bit is always available.
    (
        "{\"pgn\":130830,\"fields\":{\"list\":[{\"C\":2}]}}",
        18,
        "list",
    ),
    (
        "{\"pgn\":130831,\"description\":\"Unmatched\",\"fields\":{\"Data\":\"04\"}}",
        18,
        "Data",
    ),
    (
        "{\"pgn\":128267,\"description\":\"Unmatched\",\"fields\":{\"Depth\":3.4}}",
        15,
        "",
    ),
];

fn read(alloc: Global) -> Result<ManuallyDrop<Table>, Fail> {
    Ok(ManuallyDrop::new(Table::read(alloc, TABLE.as_bytes())?))
}

// Each line gives a message with these data.
fn give(
    rt: &impl Abort,
    alloc: Global,
    nearest: bool,
    lines: &[(&str, &[u8])],
) -> Result<(), Fail> {
    let table = read(alloc)?;
    for (line, wanted) in lines {
        let mut scratch = Scratch::new(alloc);
        match encode_line(alloc, &table, nearest, line.as_bytes(), &mut scratch) {
            Ok(packet) => assert_eq!(rt; packet.data(), *wanted, "{line}"),
            Err(_) => return Err("a message".into()),
        }
    }
    Ok(())
}

#[test]
fn exact_numbers(rt: HostRuntime) -> Result<(), Fail> {
    give(&rt, rt.alloc(), false, &ENCODED)
}

#[test]
fn nearest_numbers(rt: HostRuntime) -> Result<(), Fail> {
    give(&rt, rt.alloc(), true, &NEAREST)
}

#[test]
fn refusals(rt: HostRuntime) -> Result<(), Fail> {
    let alloc = rt.alloc();
    let table = read(alloc)?;
    for (line, number, name) in &REFUSED {
        let mut scratch = Scratch::new(alloc);
        match encode_line(alloc, &table, false, line.as_bytes(), &mut scratch) {
            Err(EncodeError::Refused(refusal)) => {
                assert_eq!(rt; refusal.number(), *number, "{line}");
                assert_eq!(rt; refusal.name(), *name, "{line}");
            }
            _ => return Err("a refusal".into()),
        }
    }
    Ok(())
}
