//! What the files of the nodes hold at the end of worked runs, as hexadecimal digits: the first and the second
//! file of each node in turn. Every other file is empty. A line is the version with the generation, a gate with
//! its record, the closed gate, or what stands behind it.

/// One update from its begin to its closing.
pub const READ_THEN_WRITE_DISKS: [&str; 4] = [
    // n1, first file, 78 bytes:
    // version 1: Prepared of 1 with 1, Decided of 1 with 1, Ended of 1 with commit 1, Closed of 1
    "\
01\
010023010001010201020000000000000000000000000000000100010162000000000000000b\
01000e0400010000000000000001020102\
01000c020001010000000000000001\
010003050001\
00",
    // n1, second file: empty
    "",
    // n2, first file, 47 bytes:
    // version 1: Prepared of 1 with 1, Ended of 1 with commit 1
    "\
01\
01001b010001010201020000000000000000000000000000000101016100\
01000c020001010000000000000001\
00",
    // n2, second file: empty
    "",
];

/// A node that promised a read, stopped, and voted above its promise.
pub const CEILING_AFTER_CRASH_DISKS: [&str; 4] = [
    // n1, first file, 76 bytes:
    // version 1: Prepared of 1 with 1, Decided of 1 with 1, Ended of 1 with commit 1, Closed of 1
    "\
01\
01002201000101010100000000000000000000000000000001000101620000000000000005\
01000d04000100000000000000010101\
01000c020001010000000000000001\
010003050001\
00",
    // n1, second file: empty
    "",
    // n2, first file, 51 bytes:
    // version 1: Ceiling 64, Prepared of 3 with 65
    "\
01\
010009030000000000000040\
01002201000301010200000000000000010000000000000041000101610000000000000007\
00",
    // n2, second file: empty
    "",
];

/// A home that stopped before it decided, and parts that were told abort.
pub const PRESUMED_ABORT_DISKS: [&str; 4] = [
    // n1, first file, 47 bytes:
    // version 1: Prepared of 1 with 1, Ended of 1 with abort
    "\
01\
010023010001010201020000000000000000000000000000000100010162000000000000000b\
01000402000100\
00",
    // n1, second file: empty
    "",
    // n2, first file, 39 bytes:
    // version 1: Prepared of 1 with 1, Ended of 1 with abort
    "\
01\
01001b010001010201020000000000000000000000000000000101016100\
01000402000100\
00",
    // n2, second file: empty
    "",
];

/// A failed write left nothing: the files are those of an update without a fault.
pub const FAILING_DEVICE_CALL_DISKS: [&str; 4] = [
    // n1, first file, 78 bytes:
    // version 1: Prepared of 1 with 1, Decided of 1 with 1, Ended of 1 with commit 1, Closed of 1
    "\
01\
010023010001010201020000000000000000000000000000000100010162000000000000000b\
01000e0400010000000000000001020102\
01000c020001010000000000000001\
010003050001\
00",
    // n1, second file: empty
    "",
    // n2, first file, 47 bytes:
    // version 1: Prepared of 1 with 1, Ended of 1 with commit 1
    "\
01\
01001b010001010201020000000000000000000000000000000101016100\
01000c020001010000000000000001\
00",
    // n2, second file: empty
    "",
];

/// Two parts that committed, and the home, which is down and no part: its journal has the Decided.
pub const TOLD_BY_A_PEER_DISKS: [&str; 6] = [
    // n1, first file, 55 bytes:
    // version 1: Prepared of 1 with 1, Ended of 1 with commit 1
    "\
01\
010023010001030201020000000000000000000000000000000100010162000000000000000b\
01000c020001010000000000000001\
00",
    // n1, second file: empty
    "",
    // n2, first file, 47 bytes:
    // version 1: Prepared of 1 with 1, Ended of 1 with commit 1
    "\
01\
01001b010001030201020000000000000000000000000000000101016100\
01000c020001010000000000000001\
00",
    // n2, second file: empty
    "",
    // n3, first file, 19 bytes:
    // version 1: Decided of 1 with 1
    "\
01\
01000e0400010000000000000001020102\
00",
    // n3, second file: empty
    "",
];

/// The small journal in the second file; the first stands as it was.
pub const COMPACTION_DISKS: [&str; 4] = [
    // n1, first file, 78 bytes:
    // version 1: Prepared of 1 with 1, Decided of 1 with 1, Ended of 1 with commit 1, Closed of 1
    "\
01\
010023010001010201020000000000000000000000000000000100010162000000000000000b\
01000e0400010000000000000001020102\
01000c020001010000000000000001\
010003050001\
00",
    // n1, second file, 63 bytes:
    // version 2 of generation 1: Prepared of 1 with 1, Ended of 1 with commit 1
    "\
020000000000000001\
010023010001010201020000000000000000000000000000000100010162000000000000000b\
01000c020001010000000000000001\
00",
    // n2, first file, 47 bytes:
    // version 1: Prepared of 1 with 1, Ended of 1 with commit 1
    "\
01\
01001b010001010201020000000000000000000000000000000101016100\
01000c020001010000000000000001\
00",
    // n2, second file: empty
    "",
];

/// The small journal in both files, the first being the newer.
pub const SECOND_COMPACTION_DISKS: [&str; 4] = [
    // n1, first file, 63 bytes:
    // version 2 of generation 2: Prepared of 1 with 1, Ended of 1 with commit 1
    "\
020000000000000002\
010023010001010201020000000000000000000000000000000100010162000000000000000b\
01000c020001010000000000000001\
00",
    // n1, second file, 63 bytes:
    // version 2 of generation 1: Prepared of 1 with 1, Ended of 1 with commit 1
    "\
020000000000000001\
010023010001010201020000000000000000000000000000000100010162000000000000000b\
01000c020001010000000000000001\
00",
    // n2, first file, 47 bytes:
    // version 1: Prepared of 1 with 1, Ended of 1 with commit 1
    "\
01\
01001b010001010201020000000000000000000000000000000101016100\
01000c020001010000000000000001\
00",
    // n2, second file: empty
    "",
];

/// The pairs of the table of stops at the decision that leave the files below.
pub const STOP_AT_THE_DECISION_NOTHING_WRITTEN: [&str; 2] = ["1 0", "2 0"];

/// A stop at the decision that left nothing of the record.
pub const STOP_AT_THE_DECISION_NOTHING_WRITTEN_DISKS: [&str; 4] = [
    // n1, first file, 40 bytes:
    // version 1: Prepared of 1 with 1
    "\
01\
010023010001010201020000000000000000000000000000000100010162000000000000000b\
00",
    // n1, second file: empty
    "",
    // n2, first file, 32 bytes:
    // version 1: Prepared of 1 with 1
    "\
01\
01001b010001010201020000000000000000000000000000000101016100\
00",
    // n2, second file: empty
    "",
];

/// The pairs of the table of stops at the decision that leave the files below.
pub const STOP_AT_THE_DECISION_BEHIND_THE_GATE: [&str; 6] = [
    "1 1", "2 1", "3 0", "3 2", "4 0", "4 2",
];

/// A stop that left the record behind a gate that is closed.
pub const STOP_AT_THE_DECISION_BEHIND_THE_GATE_DISKS: [&str; 4] = [
    // n1, first file, 57 bytes; 17 bytes behind the closed gate:
    // version 1: Prepared of 1 with 1
    "\
01\
010023010001010201020000000000000000000000000000000100010162000000000000000b\
00\
000e040001000000000000000102010200",
    // n1, second file: empty
    "",
    // n2, first file, 32 bytes:
    // version 1: Prepared of 1 with 1
    "\
01\
01001b010001010201020000000000000000000000000000000101016100\
00",
    // n2, second file: empty
    "",
];

/// The pairs of the table of stops at the decision that leave the files below.
pub const STOP_AT_THE_DECISION_ZEROS: [&str; 2] = ["1 2", "2 2"];

/// A stop that left zeros in the place of the record.
pub const STOP_AT_THE_DECISION_ZEROS_DISKS: [&str; 4] = [
    // n1, first file, 57 bytes; 17 bytes behind the closed gate:
    // version 1: Prepared of 1 with 1
    "\
01\
010023010001010201020000000000000000000000000000000100010162000000000000000b\
00\
0000000000000000000000000000000000",
    // n1, second file: empty
    "",
    // n2, first file, 32 bytes:
    // version 1: Prepared of 1 with 1
    "\
01\
01001b010001010201020000000000000000000000000000000101016100\
00",
    // n2, second file: empty
    "",
];

/// The pairs of the table of stops at the decision that leave the files below.
pub const STOP_AT_THE_DECISION_ONES: [&str; 2] = ["1 5", "2 5"];

/// A stop that left ones in the place of the record, behind a gate that is closed.
pub const STOP_AT_THE_DECISION_ONES_DISKS: [&str; 4] = [
    // n1, first file, 57 bytes; 17 bytes behind the closed gate:
    // version 1: Prepared of 1 with 1
    "\
01\
010023010001010201020000000000000000000000000000000100010162000000000000000b\
00\
0101010101010101010101010101010101",
    // n1, second file: empty
    "",
    // n2, first file, 32 bytes:
    // version 1: Prepared of 1 with 1
    "\
01\
01001b010001010201020000000000000000000000000000000101016100\
00",
    // n2, second file: empty
    "",
];

/// The pairs of the table of stops at the decision that leave the files below.
pub const STOP_AT_THE_DECISION_KEPT: [&str; 4] = ["3 1", "3 5", "4 1", "4 5"];

/// A stop that left the gate open: the record is kept.
pub const STOP_AT_THE_DECISION_KEPT_DISKS: [&str; 4] = [
    // n1, first file, 57 bytes:
    // version 1: Prepared of 1 with 1, Decided of 1 with 1
    "\
01\
010023010001010201020000000000000000000000000000000100010162000000000000000b\
01000e0400010000000000000001020102\
00",
    // n1, second file: empty
    "",
    // n2, first file, 32 bytes:
    // version 1: Prepared of 1 with 1
    "\
01\
01001b010001010201020000000000000000000000000000000101016100\
00",
    // n2, second file: empty
    "",
];
