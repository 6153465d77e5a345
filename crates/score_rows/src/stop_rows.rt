//! Worked runs with stops, retries, questions and compactions, as documents and the texts of their runs. The
//! texts were worked out from the rules.
//!
//! Where many runs differ only in where a fuse stops and what the crash leaves, a document is `NAME`, a line
//! `fuse n1 ` with one pair of a table, and `NAME_REST`. Its text is `NAME_TEXT`, a line `armed n1 ` with the
//! same pair, and behind it `NAME_GONE_TEXT` for each pair of `NAME_GONE`, `NAME_KEPT_TEXT` for each of
//! `NAME_KEPT`. A pair is the call that stops and how the disk crashes, in the words of the document.

/// A node promised a read and stops. Opened again, it proposes above its promise.
pub const CEILING_AFTER_CRASH: &str = "\
nodes 2
partition 0 n1
partition 1 n2
init a 10
init b 0
tx 1 n1
write b 5
end
tx 2 n1
read a
end
tx 3 n1
write a 7
end
schedule
begin 1
next 4
begin 2
deliver 5
crash n2 0
restart n2
begin 3
deliver 7
";

pub const CEILING_AFTER_CRASH_TEXT: &str = "\
up n1 none
up n2 none
began 1 n1 0
sent 1 n1 n1 prepare 1 0 parts 1 n1 reads 0 writes 1 b 5
got 1
prepared n1 1 1
sent 2 n1 n1 vote 1 yes 1
got 2
decided 1 1
finished 1
sent 3 n1 n1 tell 1 commit 1
got 3
ended n1 1 commit 1
sent 4 n1 n1 ack 1
got 4
closed 1
began 2 n1 1
sent 5 n1 n2 readreq 2 1 a first 1
got 5
ceiling n2 64
raised n2 1
served n2 2 1 a 1 0 10
sent 6 n2 n1 readrep 2 1 1 10
down n2 none
up n2 none
began 3 n1 1
sent 7 n1 n2 prepare 3 1 parts 1 n2 reads 0 writes 1 a 7
got 7
prepared n2 3 65
sent 8 n2 n1 vote 3 yes 65
summary
tx 1 committed 1
tx 2 reading 1
tx 3 collecting
key a n2 10 0
key b n1 5 1
";

/// The home stops at one of the four calls that append its Decided.
pub const STOP_AT_THE_DECISION: &str = "\
nodes 2
partition 0 n1
partition 1 n2
init a 10
init b 0
tx 1 n1
read a
write b a + 1
end
schedule
begin 1
next 5
";

pub const STOP_AT_THE_DECISION_REST: &str = "\
deliver 6
restart n1
retry 1
";

pub const STOP_AT_THE_DECISION_TEXT: &str = "\
up n1 none
up n2 none
began 1 n1 0
sent 1 n1 n2 readreq 1 1 a first 0
got 1
served n2 1 1 a 0 0 10
sent 2 n2 n1 readrep 1 1 0 10
got 2
taken 1 1 0 10
sent 3 n1 n1 prepare 1 0 parts 2 n1 n2 reads 0 writes 1 b 11
sent 4 n1 n2 prepare 1 0 parts 2 n1 n2 reads 1 a writes 0
got 3
prepared n1 1 1
sent 5 n1 n1 vote 1 yes 1
got 4
prepared n2 1 1
sent 6 n2 n1 vote 1 yes 1
got 5
";

/// The pairs whose record is gone.
pub const STOP_AT_THE_DECISION_GONE: [&str; 12] = [
    "1 0", "1 1", "1 2", "1 5", "2 0", "2 1", "2 2", "2 5", "3 0", "3 2", "4 0", "4 2",
];

pub const STOP_AT_THE_DECISION_GONE_TEXT: &str = "\
got 6
down n1 decided 1 1
up n1 gone
lost 1
void 5
summary
tx 1 lost
key a n2 10 0
key b n1 0 0
";

/// The pairs whose record is kept.
pub const STOP_AT_THE_DECISION_KEPT: [&str; 4] = ["3 1", "3 5", "4 1", "4 5"];

pub const STOP_AT_THE_DECISION_KEPT_TEXT: &str = "\
got 6
down n1 decided 1 1
up n1 kept
sent 7 n1 n1 tell 1 commit 1
sent 8 n1 n2 tell 1 commit 1
summary
tx 1 committed 1
key a n2 10 0
key b n1 0 0
";

/// The home stops before it decides. The transaction is lost, and each part that asks is told abort.
pub const PRESUMED_ABORT: &str = "\
nodes 2
partition 0 n1
partition 1 n2
init a 10
init b 0
tx 1 n1
read a
write b a + 1
end
schedule
begin 1
next 4
crash n1 0
restart n1
deliver 5
ask n2 1
deliver 7
deliver 8
ask n1 1
deliver 9
deliver 10
";

pub const PRESUMED_ABORT_TEXT: &str = "\
up n1 none
up n2 none
began 1 n1 0
sent 1 n1 n2 readreq 1 1 a first 0
got 1
served n2 1 1 a 0 0 10
sent 2 n2 n1 readrep 1 1 0 10
got 2
taken 1 1 0 10
sent 3 n1 n1 prepare 1 0 parts 2 n1 n2 reads 0 writes 1 b 11
sent 4 n1 n2 prepare 1 0 parts 2 n1 n2 reads 1 a writes 0
got 3
prepared n1 1 1
sent 5 n1 n1 vote 1 yes 1
got 4
prepared n2 1 1
sent 6 n2 n1 vote 1 yes 1
down n1 none
up n1 none
lost 1
got 5
sent 7 n2 n1 ask 1
got 7
sent 8 n1 n2 tell 1 abort
got 8
ended n2 1 abort
sent 9 n1 n1 ask 1
got 9
sent 10 n1 n1 tell 1 abort
got 10
ended n1 1 abort
summary
tx 1 lost
key a n2 10 0
key b n1 0 0
";

/// A read is asked again of the other holder. The first reply that comes is taken, the second ignored.
pub const RETRY_AT_THE_OTHER_HOLDER: &str = "\
nodes 3
partition 0 n1
partition 1 n2 n3
init a 10
tx 1 n1
read a
end
schedule
begin 1
retry 1
deliver 2
deliver 1
deliver 3
deliver 4
";

pub const RETRY_AT_THE_OTHER_HOLDER_TEXT: &str = "\
up n1 none
up n2 none
up n3 none
began 1 n1 0
sent 1 n1 n2 readreq 1 1 a first 0
sent 2 n1 n3 readreq 1 1 a first 0
got 2
served n3 1 1 a 0 0 10
sent 3 n3 n1 readrep 1 1 0 10
got 1
served n2 1 1 a 0 0 10
sent 4 n2 n1 readrep 1 1 0 10
got 3
taken 1 1 0 10
finished 1
got 4
summary
tx 1 read 0
key a n2 10 0
key a n3 10 0
";

/// Events that change nothing, each with its code, and a message to a node that is down.
pub const VOID_EVENTS: &str = "\
nodes 2
partition 0 n1
partition 1 n2
init a 10
init b 0
tx 1 n1
read a
end
tx 2 n2
read b
end
schedule
next 1
begin 1
begin 1
deliver 99
restart n1
retry 2
ask n1 1
crash n2 0
crash n2 0
begin 2
deliver 1
drop 1
";

pub const VOID_EVENTS_TEXT: &str = "\
up n1 none
up n2 none
void 4
began 1 n1 0
sent 1 n1 n2 readreq 1 1 a first 0
void 1
void 3
void 8
void 5
void 6
down n2 none
void 7
void 2
missed 1
dropped 1
summary
tx 1 reading 1
tx 2 unbegun
key a n2 10 0
key b n1 0 0
";

/// The first file of n2 fails at its third call, the first write of its Prepared.
pub const STOP_AT_THE_PREPARE: &str = "\
nodes 2
partition 0 n1
partition 1 n2
init a 10
init b 0
tx 1 n1
read a
write b a + 1
end
schedule
begin 1
next 4
";

pub const STOP_AT_THE_PREPARE_TEXT: &str = "\
up n1 none
up n2 none
began 1 n1 0
sent 1 n1 n2 readreq 1 1 a first 0
got 1
served n2 1 1 a 0 0 10
sent 2 n2 n1 readrep 1 1 0 10
got 2
taken 1 1 0 10
sent 3 n1 n1 prepare 1 0 parts 2 n1 n2 reads 0 writes 1 b 11
sent 4 n1 n2 prepare 1 0 parts 2 n1 n2 reads 1 a writes 0
got 3
prepared n1 1 1
sent 5 n1 n1 vote 1 yes 1
got 4
down n2 prepared 1 1
summary
tx 1 collecting
key a n2 10 0
key b n1 0 0
";

/// The first file of n2 fails at its third call. The record is gone, and a retry by the home brings the vote.
pub const FAILING_DEVICE_CALL: &str = "\
nodes 2
partition 0 n1
partition 1 n2
init a 10
init b 0
tx 1 n1
read a
write b a + 1
end
schedule
begin 1
next 4
restart n2
retry 1
next 9
";

pub const FAILING_DEVICE_CALL_TEXT: &str = "\
up n1 none
up n2 none
began 1 n1 0
sent 1 n1 n2 readreq 1 1 a first 0
got 1
served n2 1 1 a 0 0 10
sent 2 n2 n1 readrep 1 1 0 10
got 2
taken 1 1 0 10
sent 3 n1 n1 prepare 1 0 parts 2 n1 n2 reads 0 writes 1 b 11
sent 4 n1 n2 prepare 1 0 parts 2 n1 n2 reads 1 a writes 0
got 3
prepared n1 1 1
sent 5 n1 n1 vote 1 yes 1
got 4
down n2 prepared 1 1
up n2 gone
sent 6 n1 n1 prepare 1 0 parts 2 n1 n2 reads 0 writes 1 b 11
sent 7 n1 n2 prepare 1 0 parts 2 n1 n2 reads 1 a writes 0
got 5
got 6
sent 8 n1 n1 vote 1 yes 1
got 7
prepared n2 1 1
sent 9 n2 n1 vote 1 yes 1
got 8
got 9
decided 1 1
finished 1
sent 10 n1 n1 tell 1 commit 1
sent 11 n1 n2 tell 1 commit 1
got 10
ended n1 1 commit 1
sent 12 n1 n1 ack 1
got 11
ended n2 1 commit 1
sent 13 n2 n1 ack 1
got 12
got 13
closed 1
summary
tx 1 committed 1
key a n2 10 0
key b n1 11 1
";

/// A node whose journal is still empty makes it anew at each opening. A fuse stops that once, and the node stays down.
pub const STOP_AT_AN_OPENING: &str = "\
nodes 2
partition 0 n1
partition 1 n2
init a 10
init b 0
schedule
crash n2 0
fuse n2 1 0
restart n2
restart n2
";

pub const STOP_AT_AN_OPENING_TEXT: &str = "\
up n1 none
up n2 none
down n2 none
armed n2 1 0
stilldown n2
up n2 none
summary
key a n2 10 0
key b n1 0 0
";

/// The greatest numbers that a fuse and a crash may have.
pub const ITEMS_AT_THEIR_LIMITS: &str = "\
nodes 2
partition 0 n1
partition 1 n2
init a 10
init b 0
schedule
fuse n1 1000 4294967295
crash n1 4294967295
restart n1
restart n2
";

pub const ITEMS_AT_THEIR_LIMITS_TEXT: &str = "\
up n1 none
up n2 none
armed n1 1000 4294967295
down n1 none
up n1 none
void 8
summary
key a n2 10 0
key b n1 0 0
";

/// The home stops behind its decision. A part in doubt asks another part, which has ended, and commits.
pub const TOLD_BY_A_PEER: &str = "\
nodes 3
partition 0 n1
partition 1 n2
init a 10
tx 1 n3
read a
write b a + 1
end
schedule
begin 1
next 6
deliver 7
crash n3 0
ask n2 1 n3
ask n2 1 n1
deliver 10
deliver 11
ask n2 1 n1
";

pub const TOLD_BY_A_PEER_TEXT: &str = "\
up n1 none
up n2 none
up n3 none
began 1 n3 0
sent 1 n3 n2 readreq 1 1 a first 0
got 1
served n2 1 1 a 0 0 10
sent 2 n2 n3 readrep 1 1 0 10
got 2
taken 1 1 0 10
sent 3 n3 n1 prepare 1 0 parts 2 n1 n2 reads 0 writes 1 b 11
sent 4 n3 n2 prepare 1 0 parts 2 n1 n2 reads 1 a writes 0
got 3
prepared n1 1 1
sent 5 n1 n3 vote 1 yes 1
got 4
prepared n2 1 1
sent 6 n2 n3 vote 1 yes 1
got 5
got 6
decided 1 1
finished 1
sent 7 n3 n1 tell 1 commit 1
sent 8 n3 n2 tell 1 commit 1
got 7
ended n1 1 commit 1
sent 9 n1 n3 ack 1
down n3 none
void 10
sent 10 n2 n1 askpeer 1
got 10
sent 11 n1 n2 tell 1 commit 1
got 11
ended n2 1 commit 1
sent 12 n2 n3 ack 1
void 6
summary
tx 1 committed 1
key a n2 10 0
key b n1 11 1
";

/// The part that is asked is in doubt as well, and says nothing.
pub const PEER_IN_DOUBT: &str = "\
nodes 3
partition 0 n1
partition 1 n2
init a 10
tx 1 n3
read a
write b a + 1
end
schedule
begin 1
next 6
crash n3 0
ask n2 1 n1
deliver 9
";

pub const PEER_IN_DOUBT_TEXT: &str = "\
up n1 none
up n2 none
up n3 none
began 1 n3 0
sent 1 n3 n2 readreq 1 1 a first 0
got 1
served n2 1 1 a 0 0 10
sent 2 n2 n3 readrep 1 1 0 10
got 2
taken 1 1 0 10
sent 3 n3 n1 prepare 1 0 parts 2 n1 n2 reads 0 writes 1 b 11
sent 4 n3 n2 prepare 1 0 parts 2 n1 n2 reads 1 a writes 0
got 3
prepared n1 1 1
sent 5 n1 n3 vote 1 yes 1
got 4
prepared n2 1 1
sent 6 n2 n3 vote 1 yes 1
got 5
got 6
decided 1 1
finished 1
sent 7 n3 n1 tell 1 commit 1
sent 8 n3 n2 tell 1 commit 1
down n3 none
sent 9 n2 n1 askpeer 1
got 9
summary
tx 1 committed 1
key a n2 10 0
key b n1 0 0
";

/// A node that is down compacts nothing.
pub const COMPACTION_WHERE_DOWN: &str = "\
nodes 2
partition 0 n1
partition 1 n2
init a 10
init b 0
schedule
crash n1 0
compact n1
";

pub const COMPACTION_WHERE_DOWN_TEXT: &str = "\
up n1 none
up n2 none
down n1 none
void 11
summary
key a n2 10 0
key b n1 0 0
";

/// A journal is made small, and its node stops and opens again.
pub const COMPACTION: &str = "\
nodes 2
partition 0 n1
partition 1 n2
init a 10
init b 0
tx 1 n1
read a
write b a + 1
end
schedule
begin 1
next 10
compact n1
crash n1 0
restart n1
";

pub const COMPACTION_TEXT: &str = "\
up n1 none
up n2 none
began 1 n1 0
sent 1 n1 n2 readreq 1 1 a first 0
got 1
served n2 1 1 a 0 0 10
sent 2 n2 n1 readrep 1 1 0 10
got 2
taken 1 1 0 10
sent 3 n1 n1 prepare 1 0 parts 2 n1 n2 reads 0 writes 1 b 11
sent 4 n1 n2 prepare 1 0 parts 2 n1 n2 reads 1 a writes 0
got 3
prepared n1 1 1
sent 5 n1 n1 vote 1 yes 1
got 4
prepared n2 1 1
sent 6 n2 n1 vote 1 yes 1
got 5
got 6
decided 1 1
finished 1
sent 7 n1 n1 tell 1 commit 1
sent 8 n1 n2 tell 1 commit 1
got 7
ended n1 1 commit 1
sent 9 n1 n1 ack 1
got 8
ended n2 1 commit 1
sent 10 n2 n1 ack 1
got 9
got 10
closed 1
compacted n1
down n1 none
up n1 none
summary
tx 1 committed 1
key a n2 10 0
key b n1 11 1
";

/// A second compaction goes back into the first file.
pub const SECOND_COMPACTION: &str = "\
nodes 2
partition 0 n1
partition 1 n2
init a 10
init b 0
tx 1 n1
read a
write b a + 1
end
schedule
begin 1
next 10
compact n1
crash n1 0
restart n1
compact n1
";

pub const SECOND_COMPACTION_TEXT: &str = "\
up n1 none
up n2 none
began 1 n1 0
sent 1 n1 n2 readreq 1 1 a first 0
got 1
served n2 1 1 a 0 0 10
sent 2 n2 n1 readrep 1 1 0 10
got 2
taken 1 1 0 10
sent 3 n1 n1 prepare 1 0 parts 2 n1 n2 reads 0 writes 1 b 11
sent 4 n1 n2 prepare 1 0 parts 2 n1 n2 reads 1 a writes 0
got 3
prepared n1 1 1
sent 5 n1 n1 vote 1 yes 1
got 4
prepared n2 1 1
sent 6 n2 n1 vote 1 yes 1
got 5
got 6
decided 1 1
finished 1
sent 7 n1 n1 tell 1 commit 1
sent 8 n1 n2 tell 1 commit 1
got 7
ended n1 1 commit 1
sent 9 n1 n1 ack 1
got 8
ended n2 1 commit 1
sent 10 n2 n1 ack 1
got 9
got 10
closed 1
compacted n1
down n1 none
up n1 none
compacted n1
summary
tx 1 committed 1
key a n2 10 0
key b n1 11 1
";

/// A compaction of six calls goes on under a fuse of seven, and the fuse is gone behind it.
pub const FUSE_ENDED_BY_A_COMPACTION: &str = "\
nodes 2
partition 0 n1
partition 1 n2
init a 10
init b 0
tx 1 n1
read a
write b a + 1
end
tx 2 n1
write b 5
end
schedule
begin 1
next 10
fuse n1 7 0
compact n1
begin 2
next 4
";

pub const FUSE_ENDED_BY_A_COMPACTION_TEXT: &str = "\
up n1 none
up n2 none
began 1 n1 0
sent 1 n1 n2 readreq 1 1 a first 0
got 1
served n2 1 1 a 0 0 10
sent 2 n2 n1 readrep 1 1 0 10
got 2
taken 1 1 0 10
sent 3 n1 n1 prepare 1 0 parts 2 n1 n2 reads 0 writes 1 b 11
sent 4 n1 n2 prepare 1 0 parts 2 n1 n2 reads 1 a writes 0
got 3
prepared n1 1 1
sent 5 n1 n1 vote 1 yes 1
got 4
prepared n2 1 1
sent 6 n2 n1 vote 1 yes 1
got 5
got 6
decided 1 1
finished 1
sent 7 n1 n1 tell 1 commit 1
sent 8 n1 n2 tell 1 commit 1
got 7
ended n1 1 commit 1
sent 9 n1 n1 ack 1
got 8
ended n2 1 commit 1
sent 10 n2 n1 ack 1
got 9
got 10
closed 1
armed n1 7 0
compacted n1
began 2 n1 1
sent 11 n1 n1 prepare 2 1 parts 1 n1 reads 0 writes 1 b 5
got 11
prepared n1 2 2
sent 12 n1 n1 vote 2 yes 2
got 12
decided 2 2
finished 2
sent 13 n1 n1 tell 2 commit 2
got 13
ended n1 2 commit 2
sent 14 n1 n1 ack 2
got 14
closed 2
summary
tx 1 committed 1
tx 2 committed 2
key a n2 10 0
key b n1 5 2
";

/// A compaction into an empty file stops at one of its six calls.
pub const STOP_AT_A_COMPACTION: &str = "\
nodes 2
partition 0 n1
partition 1 n2
init a 10
init b 0
tx 1 n1
read a
write b a + 1
end
schedule
begin 1
next 10
";

pub const STOP_AT_A_COMPACTION_REST: &str = "\
compact n1
restart n1
";

pub const STOP_AT_A_COMPACTION_TEXT: &str = "\
up n1 none
up n2 none
began 1 n1 0
sent 1 n1 n2 readreq 1 1 a first 0
got 1
served n2 1 1 a 0 0 10
sent 2 n2 n1 readrep 1 1 0 10
got 2
taken 1 1 0 10
sent 3 n1 n1 prepare 1 0 parts 2 n1 n2 reads 0 writes 1 b 11
sent 4 n1 n2 prepare 1 0 parts 2 n1 n2 reads 1 a writes 0
got 3
prepared n1 1 1
sent 5 n1 n1 vote 1 yes 1
got 4
prepared n2 1 1
sent 6 n2 n1 vote 1 yes 1
got 5
got 6
decided 1 1
finished 1
sent 7 n1 n1 tell 1 commit 1
sent 8 n1 n2 tell 1 commit 1
got 7
ended n1 1 commit 1
sent 9 n1 n1 ack 1
got 8
ended n2 1 commit 1
sent 10 n2 n1 ack 1
got 9
got 10
closed 1
";

/// The pairs whose small journal is gone.
pub const STOP_AT_A_COMPACTION_GONE: [&str; 26] = [
    "1 0", "1 1", "1 2", "1 5", "1 8", "2 0", "2 1", "2 2", "2 5", "2 8", "3 0", "3 1", "3 2",
    "3 5", "3 8", "4 0", "4 1", "4 2", "4 5", "4 8", "5 0", "5 2", "5 5", "6 0", "6 2", "6 5",
];

pub const STOP_AT_A_COMPACTION_GONE_TEXT: &str = "\
down n1 compact
up n1 gone
summary
tx 1 committed 1
key a n2 10 0
key b n1 11 1
";

/// The pairs whose small journal is kept.
pub const STOP_AT_A_COMPACTION_KEPT: [&str; 4] = ["5 1", "5 8", "6 1", "6 8"];

pub const STOP_AT_A_COMPACTION_KEPT_TEXT: &str = "\
down n1 compact
up n1 kept
summary
tx 1 committed 1
key a n2 10 0
key b n1 11 1
";

/// A compaction into a file of version 1 stops at one of its eight calls.
pub const STOP_AT_A_COMPACTION_OVER_A_FIRST_JOURNAL: &str = "\
nodes 2
partition 0 n1
partition 1 n2
init a 10
init b 0
tx 1 n1
read a
write b a + 1
end
schedule
begin 1
next 10
compact n1
";

pub const STOP_AT_A_COMPACTION_OVER_A_FIRST_JOURNAL_REST: &str = "\
compact n1
restart n1
";

pub const STOP_AT_A_COMPACTION_OVER_A_FIRST_JOURNAL_TEXT: &str = "\
up n1 none
up n2 none
began 1 n1 0
sent 1 n1 n2 readreq 1 1 a first 0
got 1
served n2 1 1 a 0 0 10
sent 2 n2 n1 readrep 1 1 0 10
got 2
taken 1 1 0 10
sent 3 n1 n1 prepare 1 0 parts 2 n1 n2 reads 0 writes 1 b 11
sent 4 n1 n2 prepare 1 0 parts 2 n1 n2 reads 1 a writes 0
got 3
prepared n1 1 1
sent 5 n1 n1 vote 1 yes 1
got 4
prepared n2 1 1
sent 6 n2 n1 vote 1 yes 1
got 5
got 6
decided 1 1
finished 1
sent 7 n1 n1 tell 1 commit 1
sent 8 n1 n2 tell 1 commit 1
got 7
ended n1 1 commit 1
sent 9 n1 n1 ack 1
got 8
ended n2 1 commit 1
sent 10 n2 n1 ack 1
got 9
got 10
closed 1
compacted n1
";

/// The pairs whose small journal is gone.
pub const STOP_AT_A_COMPACTION_OVER_A_FIRST_JOURNAL_GONE: [&str; 36] = [
    "1 0", "1 1", "1 2", "1 5", "1 8", "2 0", "2 1", "2 2", "2 5", "2 8", "3 0", "3 1", "3 2",
    "3 5", "3 8", "4 0", "4 1", "4 2", "4 5", "4 8", "5 0", "5 1", "5 2", "5 5", "5 8", "6 0",
    "6 1", "6 2", "6 5", "6 8", "7 0", "7 2", "7 5", "8 0", "8 2", "8 5",
];

pub const STOP_AT_A_COMPACTION_OVER_A_FIRST_JOURNAL_GONE_TEXT: &str = "\
down n1 compact
up n1 gone
summary
tx 1 committed 1
key a n2 10 0
key b n1 11 1
";

/// The pairs whose small journal is kept.
pub const STOP_AT_A_COMPACTION_OVER_A_FIRST_JOURNAL_KEPT: [&str; 4] = ["7 1", "7 8", "8 1", "8 8"];

pub const STOP_AT_A_COMPACTION_OVER_A_FIRST_JOURNAL_KEPT_TEXT: &str = "\
down n1 compact
up n1 kept
summary
tx 1 committed 1
key a n2 10 0
key b n1 11 1
";

/// A compaction into a file of version 2 stops at one of its eight calls.
pub const STOP_AT_A_COMPACTION_OVER_A_SMALL_ONE: &str = "\
nodes 2
partition 0 n1
partition 1 n2
init a 10
init b 0
tx 1 n1
read a
write b a + 1
end
schedule
begin 1
next 10
compact n1
compact n1
";

pub const STOP_AT_A_COMPACTION_OVER_A_SMALL_ONE_REST: &str = "\
compact n1
restart n1
";

pub const STOP_AT_A_COMPACTION_OVER_A_SMALL_ONE_TEXT: &str = "\
up n1 none
up n2 none
began 1 n1 0
sent 1 n1 n2 readreq 1 1 a first 0
got 1
served n2 1 1 a 0 0 10
sent 2 n2 n1 readrep 1 1 0 10
got 2
taken 1 1 0 10
sent 3 n1 n1 prepare 1 0 parts 2 n1 n2 reads 0 writes 1 b 11
sent 4 n1 n2 prepare 1 0 parts 2 n1 n2 reads 1 a writes 0
got 3
prepared n1 1 1
sent 5 n1 n1 vote 1 yes 1
got 4
prepared n2 1 1
sent 6 n2 n1 vote 1 yes 1
got 5
got 6
decided 1 1
finished 1
sent 7 n1 n1 tell 1 commit 1
sent 8 n1 n2 tell 1 commit 1
got 7
ended n1 1 commit 1
sent 9 n1 n1 ack 1
got 8
ended n2 1 commit 1
sent 10 n2 n1 ack 1
got 9
got 10
closed 1
compacted n1
compacted n1
";

/// The pairs whose small journal is gone.
pub const STOP_AT_A_COMPACTION_OVER_A_SMALL_ONE_GONE: [&str; 36] = [
    "1 0", "1 1", "1 2", "1 5", "1 8", "2 0", "2 1", "2 2", "2 5", "2 8", "3 0", "3 1", "3 2",
    "3 5", "3 8", "4 0", "4 1", "4 2", "4 5", "4 8", "5 0", "5 1", "5 2", "5 5", "5 8", "6 0",
    "6 1", "6 2", "6 5", "6 8", "7 0", "7 2", "7 5", "8 0", "8 2", "8 5",
];

pub const STOP_AT_A_COMPACTION_OVER_A_SMALL_ONE_GONE_TEXT: &str = "\
down n1 compact
up n1 gone
summary
tx 1 committed 1
key a n2 10 0
key b n1 11 1
";

/// The pairs whose small journal is kept.
pub const STOP_AT_A_COMPACTION_OVER_A_SMALL_ONE_KEPT: [&str; 4] = ["7 1", "7 8", "8 1", "8 8"];

pub const STOP_AT_A_COMPACTION_OVER_A_SMALL_ONE_KEPT_TEXT: &str = "\
down n1 compact
up n1 kept
summary
tx 1 committed 1
key a n2 10 0
key b n1 11 1
";

/// Documents that are refused are this front with one line or two behind it.
pub const REFUSED_ITEMS_FRONT: &str = "\
nodes 2
partition 0 n1
partition 1 n2
init a 10
init b 0
tx 1 n1
read a
end
schedule
";

/// What stands behind the front, and the text of its refusal.
pub const REFUSED_ITEMS: [(&str, &str); 34] = [
    ("retry 2\n", "refused 10 6\n"),
    ("retry\n", "refused 10 10\n"),
    ("retry 1 1\n", "refused 10 1\n"),
    ("ask n3 1\n", "refused 10 3\n"),
    ("ask n1\n", "refused 10 10\n"),
    ("ask n1 2\n", "refused 10 6\n"),
    ("ask n1 1 n3\n", "refused 10 3\n"),
    ("ask n1 1 \n", "refused 10 3\n"),
    ("ask n1 1 n2 n1\n", "refused 10 1\n"),
    ("crash n3 0\n", "refused 10 3\n"),
    ("crash n1\n", "refused 10 10\n"),
    ("crash n1 x\n", "refused 10 2\n"),
    ("crash n1 4294967296\n", "refused 10 9\n"),
    ("crash n1 0 0\n", "refused 10 1\n"),
    ("fuse n3 1 0\n", "refused 10 3\n"),
    ("fuse n1 1\n", "refused 10 10\n"),
    ("fuse n1 0 0\n", "refused 10 9\n"),
    ("fuse n1 1001 0\n", "refused 10 9\n"),
    ("fuse n1 01 0\n", "refused 10 2\n"),
    ("fuse n1 1 4294967296\n", "refused 10 9\n"),
    ("fuse n1 1 0 0\n", "refused 10 1\n"),
    ("restart\n", "refused 10 10\n"),
    ("restart n3\n", "refused 10 3\n"),
    ("restart n1 0\n", "refused 10 1\n"),
    ("compact\n", "refused 10 10\n"),
    ("compact n3\n", "refused 10 3\n"),
    ("compact n1 0\n", "refused 10 1\n"),
    ("next 50000\nretry 1\n", "refused 11 9\n"),
    ("next 50000\nask n1 1\n", "refused 11 9\n"),
    ("next 50000\nask n1 1 n2\n", "refused 11 9\n"),
    ("next 50000\ncrash n1 0\n", "refused 11 9\n"),
    ("next 50000\nfuse n1 1 0\n", "refused 11 9\n"),
    ("next 50000\nrestart n1\n", "refused 11 9\n"),
    ("next 50000\ncompact n1\n", "refused 11 9\n"),
];

/// What is written of a run of two nodes where the sink fails at its second call.
pub const SINK_FAILS_AT_ITS_SECOND_CALL_TEXT: &str = "\
up n1 none
up n2 none
";
