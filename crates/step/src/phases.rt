// The tables of the phases, certified against the relations in windows/proofs/Tables.antt.

/// For each phase of each kernel: the highest v that the relations up to it use, and 1 where they reach no further than before.
pub static SHAPES: [[[u8; 2]; 16]; 3] = [
    [
        [0, 0], // kernel 0, phase 0
        [1, 0], // kernel 0, phase 1
        [2, 0], // kernel 0, phase 2
        [3, 0], // kernel 0, phase 3
        [4, 0], // kernel 0, phase 4
        [5, 0], // kernel 0, phase 5
        [6, 0], // kernel 0, phase 6
        [7, 0], // kernel 0, phase 7
        [8, 0], // kernel 0, phase 8
        [9, 0], // kernel 0, phase 9
        [10, 0], // kernel 0, phase 10
        [11, 0], // kernel 0, phase 11
        [12, 0], // kernel 0, phase 12
        [13, 0], // kernel 0, phase 13
        [14, 0], // kernel 0, phase 14
        [15, 0], // kernel 0, phase 15
    ],
    [
        [0, 0], // kernel 1, phase 0
        [1, 0], // kernel 1, phase 1
        [2, 0], // kernel 1, phase 2
        [4, 0], // kernel 1, phase 3
        [8, 0], // kernel 1, phase 4
        [9, 0], // kernel 1, phase 5
        [10, 0], // kernel 1, phase 6
        [10, 1], // kernel 1, phase 7
        [12, 0], // kernel 1, phase 8
        [12, 1], // kernel 1, phase 9
        [12, 1], // kernel 1, phase 10
        [12, 1], // kernel 1, phase 11
        [12, 1], // kernel 1, phase 12
        [13, 0], // kernel 1, phase 13
        [14, 0], // kernel 1, phase 14
        [15, 0], // kernel 1, phase 15
    ],
    [
        [0, 0], // kernel 2, phase 0
        [1, 0], // kernel 2, phase 1
        [2, 0], // kernel 2, phase 2
        [3, 0], // kernel 2, phase 3
        [4, 0], // kernel 2, phase 4
        [8, 0], // kernel 2, phase 5
        [9, 0], // kernel 2, phase 6
        [10, 0], // kernel 2, phase 7
        [10, 1], // kernel 2, phase 8
        [10, 1], // kernel 2, phase 9
        [10, 1], // kernel 2, phase 10
        [11, 0], // kernel 2, phase 11
        [12, 0], // kernel 2, phase 12
        [13, 0], // kernel 2, phase 13
        [14, 0], // kernel 2, phase 14
        [15, 0], // kernel 2, phase 15
    ],
];

/// The rows that turn symbols and window bits into the words of a path, or into the number of the path before.
pub static PATHS: [[[u16; 16]; 16]; 3] = [
    [
        [
            0x8000, // kernel 0, phase 0, u0
            0x0000, 0x0000, 0x0000, 0x0000, 0x0000, 0x0000, 0x0000, 0x0000, 0x0000, 0x0000, 0x0000,
            0x0000, 0x0000, 0x0000, 0x0000,
        ],
        [
            0x8000, // kernel 0, phase 1, u0
            0x4000, // kernel 0, phase 1, u1
            0x0000, 0x0000, 0x0000, 0x0000, 0x0000, 0x0000, 0x0000, 0x0000, 0x0000, 0x0000, 0x0000,
            0x0000, 0x0000, 0x0000,
        ],
        [
            0x8000, // kernel 0, phase 2, u0
            0xc000, // kernel 0, phase 2, u1
            0x2000, // kernel 0, phase 2, u2
            0x0000, 0x0000, 0x0000, 0x0000, 0x0000, 0x0000, 0x0000, 0x0000, 0x0000, 0x0000, 0x0000,
            0x0000, 0x0000,
        ],
        [
            0x8000, // kernel 0, phase 3, u0
            0xc000, // kernel 0, phase 3, u1
            0x2000, // kernel 0, phase 3, u2
            0x1000, // kernel 0, phase 3, u3
            0x0000, 0x0000, 0x0000, 0x0000, 0x0000, 0x0000, 0x0000, 0x0000, 0x0000, 0x0000, 0x0000,
            0x0000,
        ],
        [
            0x8000, // kernel 0, phase 4, u0
            0xc000, // kernel 0, phase 4, u1
            0xa000, // kernel 0, phase 4, u2
            0xf000, // kernel 0, phase 4, u3
            0x0800, // kernel 0, phase 4, u4
            0x0000, 0x0000, 0x0000, 0x0000, 0x0000, 0x0000, 0x0000, 0x0000, 0x0000, 0x0000, 0x0000,
        ],
        [
            0x8000, // kernel 0, phase 5, u0
            0xc000, // kernel 0, phase 5, u1
            0xa000, // kernel 0, phase 5, u2
            0xf000, // kernel 0, phase 5, u3
            0x0800, // kernel 0, phase 5, u4
            0x0400, // kernel 0, phase 5, u5
            0x0000, 0x0000, 0x0000, 0x0000, 0x0000, 0x0000, 0x0000, 0x0000, 0x0000, 0x0000,
        ],
        [
            0x8000, // kernel 0, phase 6, u0
            0xc000, // kernel 0, phase 6, u1
            0xa000, // kernel 0, phase 6, u2
            0xf000, // kernel 0, phase 6, u3
            0x0800, // kernel 0, phase 6, u4
            0x0c00, // kernel 0, phase 6, u5
            0x0200, // kernel 0, phase 6, u6
            0x0000, 0x0000, 0x0000, 0x0000, 0x0000, 0x0000, 0x0000, 0x0000, 0x0000,
        ],
        [
            0x8000, // kernel 0, phase 7, u0
            0xc000, // kernel 0, phase 7, u1
            0xa000, // kernel 0, phase 7, u2
            0xf000, // kernel 0, phase 7, u3
            0x0800, // kernel 0, phase 7, u4
            0x0c00, // kernel 0, phase 7, u5
            0x0200, // kernel 0, phase 7, u6
            0x0100, // kernel 0, phase 7, u7
            0x0000, 0x0000, 0x0000, 0x0000, 0x0000, 0x0000, 0x0000, 0x0000,
        ],
        [
            0x8000, // kernel 0, phase 8, u0
            0xc000, // kernel 0, phase 8, u1
            0xa000, // kernel 0, phase 8, u2
            0xf000, // kernel 0, phase 8, u3
            0x8800, // kernel 0, phase 8, u4
            0xcc00, // kernel 0, phase 8, u5
            0xaa00, // kernel 0, phase 8, u6
            0xff00, // kernel 0, phase 8, u7
            0x0080, // kernel 0, phase 8, u8
            0x0000, 0x0000, 0x0000, 0x0000, 0x0000, 0x0000, 0x0000,
        ],
        [
            0x8000, // kernel 0, phase 9, u0
            0xc000, // kernel 0, phase 9, u1
            0xa000, // kernel 0, phase 9, u2
            0xf000, // kernel 0, phase 9, u3
            0x8800, // kernel 0, phase 9, u4
            0xcc00, // kernel 0, phase 9, u5
            0xaa00, // kernel 0, phase 9, u6
            0xff00, // kernel 0, phase 9, u7
            0x0080, // kernel 0, phase 9, u8
            0x0040, // kernel 0, phase 9, u9
            0x0000, 0x0000, 0x0000, 0x0000, 0x0000, 0x0000,
        ],
        [
            0x8000, // kernel 0, phase 10, u0
            0xc000, // kernel 0, phase 10, u1
            0xa000, // kernel 0, phase 10, u2
            0xf000, // kernel 0, phase 10, u3
            0x8800, // kernel 0, phase 10, u4
            0xcc00, // kernel 0, phase 10, u5
            0xaa00, // kernel 0, phase 10, u6
            0xff00, // kernel 0, phase 10, u7
            0x0080, // kernel 0, phase 10, u8
            0x00c0, // kernel 0, phase 10, u9
            0x0020, // kernel 0, phase 10, u10
            0x0000, 0x0000, 0x0000, 0x0000, 0x0000,
        ],
        [
            0x8000, // kernel 0, phase 11, u0
            0xc000, // kernel 0, phase 11, u1
            0xa000, // kernel 0, phase 11, u2
            0xf000, // kernel 0, phase 11, u3
            0x8800, // kernel 0, phase 11, u4
            0xcc00, // kernel 0, phase 11, u5
            0xaa00, // kernel 0, phase 11, u6
            0xff00, // kernel 0, phase 11, u7
            0x0080, // kernel 0, phase 11, u8
            0x00c0, // kernel 0, phase 11, u9
            0x0020, // kernel 0, phase 11, u10
            0x0010, // kernel 0, phase 11, u11
            0x0000, 0x0000, 0x0000, 0x0000,
        ],
        [
            0x8000, // kernel 0, phase 12, u0
            0xc000, // kernel 0, phase 12, u1
            0xa000, // kernel 0, phase 12, u2
            0xf000, // kernel 0, phase 12, u3
            0x8800, // kernel 0, phase 12, u4
            0xcc00, // kernel 0, phase 12, u5
            0xaa00, // kernel 0, phase 12, u6
            0xff00, // kernel 0, phase 12, u7
            0x0080, // kernel 0, phase 12, u8
            0x00c0, // kernel 0, phase 12, u9
            0x00a0, // kernel 0, phase 12, u10
            0x00f0, // kernel 0, phase 12, u11
            0x0008, // kernel 0, phase 12, u12
            0x0000, 0x0000, 0x0000,
        ],
        [
            0x8000, // kernel 0, phase 13, u0
            0xc000, // kernel 0, phase 13, u1
            0xa000, // kernel 0, phase 13, u2
            0xf000, // kernel 0, phase 13, u3
            0x8800, // kernel 0, phase 13, u4
            0xcc00, // kernel 0, phase 13, u5
            0xaa00, // kernel 0, phase 13, u6
            0xff00, // kernel 0, phase 13, u7
            0x0080, // kernel 0, phase 13, u8
            0x00c0, // kernel 0, phase 13, u9
            0x00a0, // kernel 0, phase 13, u10
            0x00f0, // kernel 0, phase 13, u11
            0x0008, // kernel 0, phase 13, u12
            0x0004, // kernel 0, phase 13, u13
            0x0000, 0x0000,
        ],
        [
            0x8000, // kernel 0, phase 14, u0
            0xc000, // kernel 0, phase 14, u1
            0xa000, // kernel 0, phase 14, u2
            0xf000, // kernel 0, phase 14, u3
            0x8800, // kernel 0, phase 14, u4
            0xcc00, // kernel 0, phase 14, u5
            0xaa00, // kernel 0, phase 14, u6
            0xff00, // kernel 0, phase 14, u7
            0x0080, // kernel 0, phase 14, u8
            0x00c0, // kernel 0, phase 14, u9
            0x00a0, // kernel 0, phase 14, u10
            0x00f0, // kernel 0, phase 14, u11
            0x0008, // kernel 0, phase 14, u12
            0x000c, // kernel 0, phase 14, u13
            0x0002, // kernel 0, phase 14, u14
            0x0000,
        ],
        [
            0x8000, // kernel 0, phase 15, u0
            0xc000, // kernel 0, phase 15, u1
            0xa000, // kernel 0, phase 15, u2
            0xf000, // kernel 0, phase 15, u3
            0x8800, // kernel 0, phase 15, u4
            0xcc00, // kernel 0, phase 15, u5
            0xaa00, // kernel 0, phase 15, u6
            0xff00, // kernel 0, phase 15, u7
            0x0080, // kernel 0, phase 15, u8
            0x00c0, // kernel 0, phase 15, u9
            0x00a0, // kernel 0, phase 15, u10
            0x00f0, // kernel 0, phase 15, u11
            0x0008, // kernel 0, phase 15, u12
            0x000c, // kernel 0, phase 15, u13
            0x0002, // kernel 0, phase 15, u14
            0x0001, // kernel 0, phase 15, u15
        ],
    ],
    [
        [
            0x8000, // kernel 1, phase 0, u0
            0x0000, 0x0000, 0x0000, 0x0000, 0x0000, 0x0000, 0x0000, 0x0000, 0x0000, 0x0000, 0x0000,
            0x0000, 0x0000, 0x0000, 0x0000,
        ],
        [
            0x8000, // kernel 1, phase 1, u0
            0x4000, // kernel 1, phase 1, u1
            0x0000, 0x0000, 0x0000, 0x0000, 0x0000, 0x0000, 0x0000, 0x0000, 0x0000, 0x0000, 0x0000,
            0x0000, 0x0000, 0x0000,
        ],
        [
            0x8000, // kernel 1, phase 2, u0
            0xc000, // kernel 1, phase 2, u1
            0x2000, // kernel 1, phase 2, u2
            0x0000, 0x0000, 0x0000, 0x0000, 0x0000, 0x0000, 0x0000, 0x0000, 0x0000, 0x0000, 0x0000,
            0x0000, 0x0000,
        ],
        [
            0x8000, // kernel 1, phase 3, u0
            0xc000, // kernel 1, phase 3, u1
            0xa000, // kernel 1, phase 3, u2
            0x0800, // kernel 1, phase 3, u3
            0xf000, // kernel 1, phase 3, v3
            0x0000, 0x0000, 0x0000, 0x0000, 0x0000, 0x0000, 0x0000, 0x0000, 0x0000, 0x0000, 0x0000,
        ],
        [
            0x8000, // kernel 1, phase 4, u0
            0xc000, // kernel 1, phase 4, u1
            0xa000, // kernel 1, phase 4, u2
            0x8800, // kernel 1, phase 4, u3
            0x0080, // kernel 1, phase 4, u4
            0xf000, // kernel 1, phase 4, v3
            0xcc00, // kernel 1, phase 4, v5
            0xaa00, // kernel 1, phase 4, v6
            0xff00, // kernel 1, phase 4, v7
            0x0000, 0x0000, 0x0000, 0x0000, 0x0000, 0x0000, 0x0000,
        ],
        [
            0x8000, // kernel 1, phase 5, u0
            0xc000, // kernel 1, phase 5, u1
            0xa000, // kernel 1, phase 5, u2
            0x8800, // kernel 1, phase 5, u3
            0x0080, // kernel 1, phase 5, u4
            0x0040, // kernel 1, phase 5, u5
            0xf000, // kernel 1, phase 5, v3
            0xcc00, // kernel 1, phase 5, v5
            0xaa40, // kernel 1, phase 5, v6
            0xff00, // kernel 1, phase 5, v7
            0x0000, 0x0000, 0x0000, 0x0000, 0x0000, 0x0000,
        ],
        [
            0x8000, // kernel 1, phase 6, u0
            0xc000, // kernel 1, phase 6, u1
            0xa000, // kernel 1, phase 6, u2
            0x8800, // kernel 1, phase 6, u3
            0x0080, // kernel 1, phase 6, u4
            0x00c0, // kernel 1, phase 6, u5
            0x0020, // kernel 1, phase 6, u6
            0xf000, // kernel 1, phase 6, v3
            0xcc20, // kernel 1, phase 6, v5
            0xaae0, // kernel 1, phase 6, v6
            0xff00, // kernel 1, phase 6, v7
            0x0000, 0x0000, 0x0000, 0x0000, 0x0000,
        ],
        [
            0x0000, // kernel 1, phase 7, u0
            0x0000, // kernel 1, phase 7, u1
            0x0000, // kernel 1, phase 7, u2
            0x0000, // kernel 1, phase 7, u3
            0x0000, // kernel 1, phase 7, u4
            0x0000, // kernel 1, phase 7, u5
            0x0000, // kernel 1, phase 7, u6
            0x0008, // kernel 1, phase 7, u7
            0x0004, // kernel 1, phase 7, v5
            0x0002, // kernel 1, phase 7, v6
            0x0001, // kernel 1, phase 7, v7
            0x0000, 0x0000, 0x0000, 0x0000, 0x0000,
        ],
        [
            0x8000, // kernel 1, phase 8, u0
            0xc000, // kernel 1, phase 8, u1
            0xa000, // kernel 1, phase 8, u2
            0x8800, // kernel 1, phase 8, u3
            0x0080, // kernel 1, phase 8, u4
            0x00c0, // kernel 1, phase 8, u5
            0x00a0, // kernel 1, phase 8, u6
            0xf000, // kernel 1, phase 8, u7
            0x0008, // kernel 1, phase 8, u8
            0xcca0, // kernel 1, phase 8, v5
            0xaa60, // kernel 1, phase 8, v6
            0xff00, // kernel 1, phase 8, v7
            0x00f0, // kernel 1, phase 8, v11
            0x0000, 0x0000, 0x0000,
        ],
        [
            0x0000, // kernel 1, phase 9, u0
            0x0000, // kernel 1, phase 9, u1
            0x0000, // kernel 1, phase 9, u2
            0x0000, // kernel 1, phase 9, u3
            0x0000, // kernel 1, phase 9, u4
            0x0000, // kernel 1, phase 9, u5
            0x0000, // kernel 1, phase 9, u6
            0x0000, // kernel 1, phase 9, u7
            0x0000, // kernel 1, phase 9, u8
            0x0004, // kernel 1, phase 9, u9
            0x0008, // kernel 1, phase 9, v5
            0x0002, // kernel 1, phase 9, v7
            0x0001, // kernel 1, phase 9, v11
            0x0000, 0x0000, 0x0000,
        ],
        [
            0x0000, // kernel 1, phase 10, u0
            0x0000, // kernel 1, phase 10, u1
            0x0000, // kernel 1, phase 10, u2
            0x0000, // kernel 1, phase 10, u3
            0x0000, // kernel 1, phase 10, u4
            0x0000, // kernel 1, phase 10, u5
            0x0004, // kernel 1, phase 10, u6
            0x0000, // kernel 1, phase 10, u7
            0x0000, // kernel 1, phase 10, u8
            0x0004, // kernel 1, phase 10, u9
            0x0004, // kernel 1, phase 10, u10
            0x0002, // kernel 1, phase 10, v7
            0x0001, // kernel 1, phase 10, v11
            0x0000, 0x0000, 0x0000,
        ],
        [
            0x0000, // kernel 1, phase 11, u0
            0x0000, // kernel 1, phase 11, u1
            0x0000, // kernel 1, phase 11, u2
            0x0000, // kernel 1, phase 11, u3
            0x0000, // kernel 1, phase 11, u4
            0x0000, // kernel 1, phase 11, u5
            0x0000, // kernel 1, phase 11, u6
            0x0000, // kernel 1, phase 11, u7
            0x0000, // kernel 1, phase 11, u8
            0x0000, // kernel 1, phase 11, u9
            0x0000, // kernel 1, phase 11, u10
            0x0002, // kernel 1, phase 11, u11
            0x0001, // kernel 1, phase 11, v11
            0x0000, 0x0000, 0x0000,
        ],
        [
            0x0000, // kernel 1, phase 12, u0
            0x0000, // kernel 1, phase 12, u1
            0x0000, // kernel 1, phase 12, u2
            0x0000, // kernel 1, phase 12, u3
            0x0000, // kernel 1, phase 12, u4
            0x0000, // kernel 1, phase 12, u5
            0x0000, // kernel 1, phase 12, u6
            0x0000, // kernel 1, phase 12, u7
            0x0000, // kernel 1, phase 12, u8
            0x0000, // kernel 1, phase 12, u9
            0x0000, // kernel 1, phase 12, u10
            0x0000, // kernel 1, phase 12, u11
            0x0001, // kernel 1, phase 12, u12
            0x0000, 0x0000, 0x0000,
        ],
        [
            0x8000, // kernel 1, phase 13, u0
            0xc000, // kernel 1, phase 13, u1
            0xa000, // kernel 1, phase 13, u2
            0x8800, // kernel 1, phase 13, u3
            0x0080, // kernel 1, phase 13, u4
            0x00c0, // kernel 1, phase 13, u5
            0xcc00, // kernel 1, phase 13, u6
            0xf000, // kernel 1, phase 13, u7
            0x0008, // kernel 1, phase 13, u8
            0x66c0, // kernel 1, phase 13, u9
            0xcca0, // kernel 1, phase 13, u10
            0xff00, // kernel 1, phase 13, u11
            0x00f0, // kernel 1, phase 13, u12
            0x0004, // kernel 1, phase 13, u13
            0x0000, 0x0000,
        ],
        [
            0x8000, // kernel 1, phase 14, u0
            0xc000, // kernel 1, phase 14, u1
            0xa000, // kernel 1, phase 14, u2
            0x8800, // kernel 1, phase 14, u3
            0x0080, // kernel 1, phase 14, u4
            0x00c0, // kernel 1, phase 14, u5
            0xcc00, // kernel 1, phase 14, u6
            0xf000, // kernel 1, phase 14, u7
            0x0008, // kernel 1, phase 14, u8
            0x66c0, // kernel 1, phase 14, u9
            0xcca0, // kernel 1, phase 14, u10
            0xff00, // kernel 1, phase 14, u11
            0x00f0, // kernel 1, phase 14, u12
            0x000c, // kernel 1, phase 14, u13
            0x0002, // kernel 1, phase 14, u14
            0x0000,
        ],
        [
            0x8000, // kernel 1, phase 15, u0
            0xc000, // kernel 1, phase 15, u1
            0xa000, // kernel 1, phase 15, u2
            0x8800, // kernel 1, phase 15, u3
            0x0080, // kernel 1, phase 15, u4
            0x00c0, // kernel 1, phase 15, u5
            0xcc00, // kernel 1, phase 15, u6
            0xf000, // kernel 1, phase 15, u7
            0x0008, // kernel 1, phase 15, u8
            0x66c0, // kernel 1, phase 15, u9
            0xcca0, // kernel 1, phase 15, u10
            0xff00, // kernel 1, phase 15, u11
            0x00f0, // kernel 1, phase 15, u12
            0x000c, // kernel 1, phase 15, u13
            0x0002, // kernel 1, phase 15, u14
            0x0001, // kernel 1, phase 15, u15
        ],
    ],
    [
        [
            0x8000, // kernel 2, phase 0, u0
            0x0000, 0x0000, 0x0000, 0x0000, 0x0000, 0x0000, 0x0000, 0x0000, 0x0000, 0x0000, 0x0000,
            0x0000, 0x0000, 0x0000, 0x0000,
        ],
        [
            0x8000, // kernel 2, phase 1, u0
            0x4000, // kernel 2, phase 1, u1
            0x0000, 0x0000, 0x0000, 0x0000, 0x0000, 0x0000, 0x0000, 0x0000, 0x0000, 0x0000, 0x0000,
            0x0000, 0x0000, 0x0000,
        ],
        [
            0x8000, // kernel 2, phase 2, u0
            0xc000, // kernel 2, phase 2, u1
            0x2000, // kernel 2, phase 2, u2
            0x0000, 0x0000, 0x0000, 0x0000, 0x0000, 0x0000, 0x0000, 0x0000, 0x0000, 0x0000, 0x0000,
            0x0000, 0x0000,
        ],
        [
            0x8000, // kernel 2, phase 3, u0
            0xc000, // kernel 2, phase 3, u1
            0x2000, // kernel 2, phase 3, u2
            0x1000, // kernel 2, phase 3, u3
            0x0000, 0x0000, 0x0000, 0x0000, 0x0000, 0x0000, 0x0000, 0x0000, 0x0000, 0x0000, 0x0000,
            0x0000,
        ],
        [
            0x8000, // kernel 2, phase 4, u0
            0xc000, // kernel 2, phase 4, u1
            0xa000, // kernel 2, phase 4, u2
            0xf000, // kernel 2, phase 4, u3
            0x0800, // kernel 2, phase 4, u4
            0x0000, 0x0000, 0x0000, 0x0000, 0x0000, 0x0000, 0x0000, 0x0000, 0x0000, 0x0000, 0x0000,
        ],
        [
            0x8000, // kernel 2, phase 5, u0
            0xc000, // kernel 2, phase 5, u1
            0xa000, // kernel 2, phase 5, u2
            0xf000, // kernel 2, phase 5, u3
            0x8800, // kernel 2, phase 5, u4
            0x0080, // kernel 2, phase 5, u5
            0xcc00, // kernel 2, phase 5, v5
            0xaa00, // kernel 2, phase 5, v6
            0xff00, // kernel 2, phase 5, v7
            0x0000, 0x0000, 0x0000, 0x0000, 0x0000, 0x0000, 0x0000,
        ],
        [
            0x8000, // kernel 2, phase 6, u0
            0xc000, // kernel 2, phase 6, u1
            0xa000, // kernel 2, phase 6, u2
            0xf000, // kernel 2, phase 6, u3
            0x8800, // kernel 2, phase 6, u4
            0x0080, // kernel 2, phase 6, u5
            0x0040, // kernel 2, phase 6, u6
            0xcc00, // kernel 2, phase 6, v5
            0xaa40, // kernel 2, phase 6, v6
            0xff00, // kernel 2, phase 6, v7
            0x0000, 0x0000, 0x0000, 0x0000, 0x0000, 0x0000,
        ],
        [
            0x8000, // kernel 2, phase 7, u0
            0xc000, // kernel 2, phase 7, u1
            0xa000, // kernel 2, phase 7, u2
            0xf000, // kernel 2, phase 7, u3
            0x8800, // kernel 2, phase 7, u4
            0x0080, // kernel 2, phase 7, u5
            0x00c0, // kernel 2, phase 7, u6
            0x0020, // kernel 2, phase 7, u7
            0xcc20, // kernel 2, phase 7, v5
            0xaae0, // kernel 2, phase 7, v6
            0xff00, // kernel 2, phase 7, v7
            0x0000, 0x0000, 0x0000, 0x0000, 0x0000,
        ],
        [
            0x0000, // kernel 2, phase 8, u0
            0x0000, // kernel 2, phase 8, u1
            0x0000, // kernel 2, phase 8, u2
            0x0000, // kernel 2, phase 8, u3
            0x0000, // kernel 2, phase 8, u4
            0x0000, // kernel 2, phase 8, u5
            0x0000, // kernel 2, phase 8, u6
            0x0000, // kernel 2, phase 8, u7
            0x0002, // kernel 2, phase 8, u8
            0x0004, // kernel 2, phase 8, v5
            0x0001, // kernel 2, phase 8, v7
            0x0000, 0x0000, 0x0000, 0x0000, 0x0000,
        ],
        [
            0x0000, // kernel 2, phase 9, u0
            0x0000, // kernel 2, phase 9, u1
            0x0000, // kernel 2, phase 9, u2
            0x0000, // kernel 2, phase 9, u3
            0x0000, // kernel 2, phase 9, u4
            0x0000, // kernel 2, phase 9, u5
            0x0000, // kernel 2, phase 9, u6
            0x0002, // kernel 2, phase 9, u7
            0x0002, // kernel 2, phase 9, u8
            0x0002, // kernel 2, phase 9, u9
            0x0001, // kernel 2, phase 9, v7
            0x0000, 0x0000, 0x0000, 0x0000, 0x0000,
        ],
        [
            0x0000, // kernel 2, phase 10, u0
            0x0000, // kernel 2, phase 10, u1
            0x0000, // kernel 2, phase 10, u2
            0x0000, // kernel 2, phase 10, u3
            0x0000, // kernel 2, phase 10, u4
            0x0000, // kernel 2, phase 10, u5
            0x0000, // kernel 2, phase 10, u6
            0x0000, // kernel 2, phase 10, u7
            0x0000, // kernel 2, phase 10, u8
            0x0000, // kernel 2, phase 10, u9
            0x0001, // kernel 2, phase 10, u10
            0x0000, 0x0000, 0x0000, 0x0000, 0x0000,
        ],
        [
            0x8000, // kernel 2, phase 11, u0
            0xc000, // kernel 2, phase 11, u1
            0xa000, // kernel 2, phase 11, u2
            0xf000, // kernel 2, phase 11, u3
            0x8800, // kernel 2, phase 11, u4
            0x0080, // kernel 2, phase 11, u5
            0x00c0, // kernel 2, phase 11, u6
            0xcc00, // kernel 2, phase 11, u7
            0x66c0, // kernel 2, phase 11, u8
            0xcc20, // kernel 2, phase 11, u9
            0xff00, // kernel 2, phase 11, u10
            0x0010, // kernel 2, phase 11, u11
            0x0000, 0x0000, 0x0000, 0x0000,
        ],
        [
            0x8000, // kernel 2, phase 12, u0
            0xc000, // kernel 2, phase 12, u1
            0xa000, // kernel 2, phase 12, u2
            0xf000, // kernel 2, phase 12, u3
            0x8800, // kernel 2, phase 12, u4
            0x0080, // kernel 2, phase 12, u5
            0x00c0, // kernel 2, phase 12, u6
            0xcc00, // kernel 2, phase 12, u7
            0x66c0, // kernel 2, phase 12, u8
            0xcca0, // kernel 2, phase 12, u9
            0xff00, // kernel 2, phase 12, u10
            0x00f0, // kernel 2, phase 12, u11
            0x0008, // kernel 2, phase 12, u12
            0x0000, 0x0000, 0x0000,
        ],
        [
            0x8000, // kernel 2, phase 13, u0
            0xc000, // kernel 2, phase 13, u1
            0xa000, // kernel 2, phase 13, u2
            0xf000, // kernel 2, phase 13, u3
            0x8800, // kernel 2, phase 13, u4
            0x0080, // kernel 2, phase 13, u5
            0x00c0, // kernel 2, phase 13, u6
            0xcc00, // kernel 2, phase 13, u7
            0x66c0, // kernel 2, phase 13, u8
            0xcca0, // kernel 2, phase 13, u9
            0xff00, // kernel 2, phase 13, u10
            0x00f0, // kernel 2, phase 13, u11
            0x0008, // kernel 2, phase 13, u12
            0x0004, // kernel 2, phase 13, u13
            0x0000, 0x0000,
        ],
        [
            0x8000, // kernel 2, phase 14, u0
            0xc000, // kernel 2, phase 14, u1
            0xa000, // kernel 2, phase 14, u2
            0xf000, // kernel 2, phase 14, u3
            0x8800, // kernel 2, phase 14, u4
            0x0080, // kernel 2, phase 14, u5
            0x00c0, // kernel 2, phase 14, u6
            0xcc00, // kernel 2, phase 14, u7
            0x66c0, // kernel 2, phase 14, u8
            0xcca0, // kernel 2, phase 14, u9
            0xff00, // kernel 2, phase 14, u10
            0x00f0, // kernel 2, phase 14, u11
            0x0008, // kernel 2, phase 14, u12
            0x000c, // kernel 2, phase 14, u13
            0x0002, // kernel 2, phase 14, u14
            0x0000,
        ],
        [
            0x8000, // kernel 2, phase 15, u0
            0xc000, // kernel 2, phase 15, u1
            0xa000, // kernel 2, phase 15, u2
            0xf000, // kernel 2, phase 15, u3
            0x8800, // kernel 2, phase 15, u4
            0x0080, // kernel 2, phase 15, u5
            0x00c0, // kernel 2, phase 15, u6
            0xcc00, // kernel 2, phase 15, u7
            0x66c0, // kernel 2, phase 15, u8
            0xcca0, // kernel 2, phase 15, u9
            0xff00, // kernel 2, phase 15, u10
            0x00f0, // kernel 2, phase 15, u11
            0x0008, // kernel 2, phase 15, u12
            0x000c, // kernel 2, phase 15, u13
            0x0002, // kernel 2, phase 15, u14
            0x0001, // kernel 2, phase 15, u15
        ],
    ],
];
