// Trio order, and the tables of the trellis, all in bytes. Each row's first entry names it.
// The coordinate at each place of trio order, an octad to a row.
pub const ORDER: [u8; 24] = [
    0, // octad 0
    1, 2, 3, 4, 7, 10, 12, 6, // octad 1
    11, 13, 14, 16, 17, 18, 19, 5, // octad 2
    8, 9, 15, 20, 21, 22, 23,
];

// The place of each coordinate.
pub const PLACES: [u8; 24] = [
    0, // coordinates from 0
    1, 2, 3, 4, 16, 8, 5, 17, 18, 6, 9, 7, 10, 11, 19, 12, 13, 14, 15, 20, 21, 22, 23,
];

// The two prefix bytes of each state at cut 8.
pub const PREFIXES: [[u8; 2]; 64] = [
    [0, 255], // prefixes of 0
    [46, 209],
    [90, 165],
    [116, 139],
    [51, 204],
    [29, 226],
    [105, 150],
    [71, 184],
    [30, 225], // prefixes of 8
    [48, 207],
    [68, 187],
    [106, 149],
    [45, 210],
    [3, 252],
    [119, 136],
    [89, 166],
    [99, 156], // prefixes of 16
    [77, 178],
    [57, 198],
    [23, 232],
    [80, 175],
    [126, 129],
    [10, 245],
    [36, 219],
    [125, 130], // prefixes of 24
    [83, 172],
    [39, 216],
    [9, 246],
    [78, 177],
    [96, 159],
    [20, 235],
    [58, 197],
    [120, 135], // prefixes of 32
    [86, 169],
    [34, 221],
    [12, 243],
    [75, 180],
    [101, 154],
    [17, 238],
    [63, 192],
    [102, 153], // prefixes of 40
    [72, 183],
    [60, 195],
    [18, 237],
    [85, 170],
    [123, 132],
    [15, 240],
    [33, 222],
    [27, 228], // prefixes of 48
    [53, 202],
    [65, 190],
    [111, 144],
    [40, 215],
    [6, 249],
    [114, 141],
    [92, 163],
    [5, 250], // prefixes of 56
    [43, 212],
    [95, 160],
    [113, 142],
    [54, 201],
    [24, 231],
    [108, 147],
    [66, 189],
];

// The middle bytes of the sixteen branches out of state 0.
pub const MIDDLES: [u8; 16] = [
    0, 29, 43, 54, 71, 90, 108, 113, 142, 147, 165, 184, 201, 212, 226, 255,
];

// The first middle byte of each eight states in a row: they have the same middle bytes, those of state 0 with this byte's bits turned.
pub const SETS: [u8; 8] = [0, 6, 9, 15, 5, 3, 12, 10];

// The states at cut 16 that the branches out of state 0 lead to.
pub const NEXTS: [u8; 16] = [0, 22, 29, 11, 58, 44, 39, 49, 49, 39, 44, 58, 11, 29, 22, 0];

// The first eight of them once more: the shares of the states 0 to 7.
pub const FIRST_NEXTS: [u8; 8] = [0, 22, 29, 11, 58, 44, 39, 49];

// The two suffix bytes of each state at cut 16.
pub const SUFFIXES: [[u8; 2]; 64] = [
    [0, 255], // suffixes of 0
    [3, 252],
    [5, 250],
    [6, 249],
    [9, 246],
    [10, 245],
    [12, 243],
    [15, 240],
    [17, 238], // suffixes of 8
    [18, 237],
    [20, 235],
    [23, 232],
    [24, 231],
    [27, 228],
    [29, 226],
    [30, 225],
    [33, 222], // suffixes of 16
    [34, 221],
    [36, 219],
    [39, 216],
    [40, 215],
    [43, 212],
    [45, 210],
    [46, 209],
    [48, 207], // suffixes of 24
    [51, 204],
    [53, 202],
    [54, 201],
    [57, 198],
    [58, 197],
    [60, 195],
    [63, 192],
    [65, 190], // suffixes of 32
    [66, 189],
    [68, 187],
    [71, 184],
    [72, 183],
    [75, 180],
    [77, 178],
    [78, 177],
    [80, 175], // suffixes of 40
    [83, 172],
    [85, 170],
    [86, 169],
    [89, 166],
    [90, 165],
    [92, 163],
    [95, 160],
    [96, 159], // suffixes of 48
    [99, 156],
    [101, 154],
    [102, 153],
    [105, 150],
    [106, 149],
    [108, 147],
    [111, 144],
    [113, 142], // suffixes of 56
    [114, 141],
    [116, 139],
    [119, 136],
    [120, 135],
    [123, 132],
    [125, 130],
    [126, 129],
];
