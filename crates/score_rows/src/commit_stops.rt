//! Stops at each device call of a commit, as documents and the texts of their runs. The texts were worked out from
//! the rules.

// A case is a line `k how`. For a stop of node 1 its document is COMMIT_STOPS, `fuse n1 k how` and
// COMMIT_STOPS_FIRST_NODE, and its text is `up n1 none`, `up n2 none`, `armed n1 k how`, the acts up to the record,
// and what comes behind. For a stop of node 2 it is the same with n2 and COMMIT_STOPS_SECOND_NODE. The acts up to a
// record are these pieces, one behind the other, up to and with its own:
//
// record             node  piece              cases               behind them
// Prepared           n1    TO_FIRST_PREPARED  FIRST_RECORD_GONE   FIRST_PREPARED_GONE
//                                             FIRST_RECORD_KEPT   FIRST_PREPARED_KEPT
// Prepared           n2    TO_SECOND_PREPARED FIRST_RECORD_..     SECOND_PREPARED_..
// Decided            n1    TO_DECIDED         SECOND_RECORD_..    DECIDED_..
// Ended              n1    TO_FIRST_ENDED     THIRD_RECORD_..     FIRST_ENDED_..
// Ended              n2    TO_SECOND_ENDED    SECOND_RECORD_..    SECOND_ENDED_..
// Closed             n1    TO_CLOSED          FOURTH_RECORD_..    CLOSED_..

pub const COMMIT_STOPS: &str = "\
nodes 2
partition 0 n1
partition 1 n2
init a 10
init b 0
tx 1 n1
read a
write b a + 1
end
schedule
";

pub const COMMIT_STOPS_FIRST_NODE: &str = "\
begin 1
next 10
restart n1
retry 1
ask n1 1
ask n2 1
next 20
";

pub const COMMIT_STOPS_SECOND_NODE: &str = "\
begin 1
next 10
restart n2
retry 1
ask n1 1
ask n2 1
next 20
";

/// The stops of the first record of a node that take it away.
pub const FIRST_RECORD_GONE: &str = "\
1 0
1 1
1 2
1 5
2 0
2 1
2 2
2 5
3 0
3 2
4 0
4 2
";

/// The stops of the first record of a node that keep it.
pub const FIRST_RECORD_KEPT: &str = "\
3 1
3 5
4 1
4 5
";

/// The stops of the second record of a node that take it away.
pub const SECOND_RECORD_GONE: &str = "\
5 0
5 1
5 2
5 5
6 0
6 1
6 2
6 5
7 0
7 2
8 0
8 2
";

/// The stops of the second record of a node that keep it.
pub const SECOND_RECORD_KEPT: &str = "\
7 1
7 5
8 1
8 5
";

/// The stops of the third record of a node that take it away.
pub const THIRD_RECORD_GONE: &str = "\
9 0
9 1
9 2
9 5
10 0
10 1
10 2
10 5
11 0
11 2
12 0
12 2
";

/// The stops of the third record of a node that keep it.
pub const THIRD_RECORD_KEPT: &str = "\
11 1
11 5
12 1
12 5
";

/// The stops of the fourth record of a node that take it away.
pub const FOURTH_RECORD_GONE: &str = "\
13 0
13 1
13 2
13 5
14 0
14 1
14 2
14 5
15 0
15 2
16 0
16 2
";

/// The stops of the fourth record of a node that keep it.
pub const FOURTH_RECORD_KEPT: &str = "\
15 1
15 5
16 1
16 5
";

pub const TO_FIRST_PREPARED: &str = "\
began 1 n1 0
sent 1 n1 n2 readreq 1 1 a first 0
got 1
served n2 1 1 a 0 0 10
sent 2 n2 n1 readrep 1 1 0 10
got 2
taken 1 1 0 10
sent 3 n1 n1 prepare 1 0 parts 2 n1 n2 reads 0 writes 1 b 11
sent 4 n1 n2 prepare 1 0 parts 2 n1 n2 reads 1 a writes 0
got 3
";

pub const TO_SECOND_PREPARED: &str = "\
prepared n1 1 1
sent 5 n1 n1 vote 1 yes 1
got 4
";

pub const TO_DECIDED: &str = "\
prepared n2 1 1
sent 6 n2 n1 vote 1 yes 1
got 5
got 6
";

pub const TO_FIRST_ENDED: &str = "\
decided 1 1
finished 1
sent 7 n1 n1 tell 1 commit 1
sent 8 n1 n2 tell 1 commit 1
got 7
";

pub const TO_SECOND_ENDED: &str = "\
ended n1 1 commit 1
sent 9 n1 n1 ack 1
got 8
";

pub const TO_CLOSED: &str = "\
ended n2 1 commit 1
sent 10 n2 n1 ack 1
got 9
got 10
";

/// The Prepared of the home is gone.
pub const FIRST_PREPARED_GONE: &str = "\
down n1 prepared 1 1
got 4
prepared n2 1 1
sent 5 n2 n1 vote 1 yes 1
missed 5
void 4
void 4
void 4
void 4
void 4
up n1 gone
lost 1
void 5
void 6
sent 6 n2 n1 ask 1
got 6
sent 7 n1 n2 tell 1 abort
got 7
ended n2 1 abort
void 4
void 4
void 4
void 4
void 4
void 4
void 4
void 4
void 4
void 4
void 4
void 4
void 4
void 4
void 4
void 4
void 4
void 4
summary
tx 1 lost
key a n2 10 0
key b n1 0 0
";

/// The Prepared of the home is kept.
pub const FIRST_PREPARED_KEPT: &str = "\
down n1 prepared 1 1
got 4
prepared n2 1 1
sent 5 n2 n1 vote 1 yes 1
missed 5
void 4
void 4
void 4
void 4
void 4
up n1 kept
lost 1
void 5
sent 6 n1 n1 ask 1
sent 7 n2 n1 ask 1
got 6
sent 8 n1 n1 tell 1 abort
got 7
sent 9 n1 n2 tell 1 abort
got 8
ended n1 1 abort
got 9
ended n2 1 abort
void 4
void 4
void 4
void 4
void 4
void 4
void 4
void 4
void 4
void 4
void 4
void 4
void 4
void 4
void 4
void 4
summary
tx 1 lost
key a n2 10 0
key b n1 0 0
";

/// The Prepared of the other part is gone.
pub const SECOND_PREPARED_GONE: &str = "\
down n2 prepared 1 1
got 5
void 4
void 4
void 4
void 4
void 4
up n2 gone
sent 6 n1 n2 prepare 1 0 parts 2 n1 n2 reads 1 a writes 0
sent 7 n1 n1 ask 1
void 6
got 6
prepared n2 1 1
sent 8 n2 n1 vote 1 yes 1
got 7
got 8
decided 1 1
finished 1
sent 9 n1 n1 tell 1 commit 1
sent 10 n1 n2 tell 1 commit 1
got 9
ended n1 1 commit 1
sent 11 n1 n1 ack 1
got 10
ended n2 1 commit 1
sent 12 n2 n1 ack 1
got 11
got 12
closed 1
void 4
void 4
void 4
void 4
void 4
void 4
void 4
void 4
void 4
void 4
void 4
void 4
void 4
summary
tx 1 committed 1
key a n2 10 0
key b n1 11 1
";

/// The Prepared of the other part is kept.
pub const SECOND_PREPARED_KEPT: &str = "\
down n2 prepared 1 1
got 5
void 4
void 4
void 4
void 4
void 4
up n2 kept
sent 6 n1 n2 prepare 1 0 parts 2 n1 n2 reads 1 a writes 0
sent 7 n1 n1 ask 1
sent 8 n2 n1 ask 1
got 6
sent 9 n2 n1 vote 1 yes 1
got 7
got 8
got 9
decided 1 1
finished 1
sent 10 n1 n1 tell 1 commit 1
sent 11 n1 n2 tell 1 commit 1
got 10
ended n1 1 commit 1
sent 12 n1 n1 ack 1
got 11
ended n2 1 commit 1
sent 13 n2 n1 ack 1
got 12
got 13
closed 1
void 4
void 4
void 4
void 4
void 4
void 4
void 4
void 4
void 4
void 4
void 4
void 4
summary
tx 1 committed 1
key a n2 10 0
key b n1 11 1
";

/// The Decided is gone.
pub const DECIDED_GONE: &str = "\
down n1 decided 1 1
void 4
void 4
void 4
void 4
up n1 gone
lost 1
void 5
sent 7 n1 n1 ask 1
sent 8 n2 n1 ask 1
got 7
sent 9 n1 n1 tell 1 abort
got 8
sent 10 n1 n2 tell 1 abort
got 9
ended n1 1 abort
got 10
ended n2 1 abort
void 4
void 4
void 4
void 4
void 4
void 4
void 4
void 4
void 4
void 4
void 4
void 4
void 4
void 4
void 4
void 4
summary
tx 1 lost
key a n2 10 0
key b n1 0 0
";

/// The Decided is kept.
pub const DECIDED_KEPT: &str = "\
down n1 decided 1 1
void 4
void 4
void 4
void 4
up n1 kept
sent 7 n1 n1 tell 1 commit 1
sent 8 n1 n2 tell 1 commit 1
sent 9 n1 n1 ask 1
sent 10 n2 n1 ask 1
got 7
ended n1 1 commit 1
sent 11 n1 n1 ack 1
got 8
ended n2 1 commit 1
sent 12 n2 n1 ack 1
got 9
sent 13 n1 n1 tell 1 commit 1
got 10
sent 14 n1 n2 tell 1 commit 1
got 11
got 12
closed 1
got 13
sent 15 n1 n1 ack 1
got 14
sent 16 n2 n1 ack 1
got 15
got 16
void 4
void 4
void 4
void 4
void 4
void 4
void 4
void 4
void 4
void 4
summary
tx 1 committed 1
key a n2 10 0
key b n1 11 1
";

/// The Ended of the home is gone.
pub const FIRST_ENDED_GONE: &str = "\
down n1 ended 1 commit 1
got 8
ended n2 1 commit 1
sent 9 n2 n1 ack 1
missed 9
void 4
up n1 gone
sent 10 n1 n1 tell 1 commit 1
sent 11 n1 n2 tell 1 commit 1
sent 12 n1 n1 ask 1
void 6
got 10
ended n1 1 commit 1
sent 13 n1 n1 ack 1
got 11
sent 14 n2 n1 ack 1
got 12
sent 15 n1 n1 tell 1 commit 1
got 13
got 14
closed 1
got 15
sent 16 n1 n1 ack 1
got 16
void 4
void 4
void 4
void 4
void 4
void 4
void 4
void 4
void 4
void 4
void 4
void 4
void 4
summary
tx 1 committed 1
key a n2 10 0
key b n1 11 1
";

/// The Ended of the home is kept.
pub const FIRST_ENDED_KEPT: &str = "\
down n1 ended 1 commit 1
got 8
ended n2 1 commit 1
sent 9 n2 n1 ack 1
missed 9
void 4
up n1 kept
sent 10 n1 n1 tell 1 commit 1
sent 11 n1 n2 tell 1 commit 1
void 6
void 6
got 10
sent 12 n1 n1 ack 1
got 11
sent 13 n2 n1 ack 1
got 12
got 13
closed 1
void 4
void 4
void 4
void 4
void 4
void 4
void 4
void 4
void 4
void 4
void 4
void 4
void 4
void 4
void 4
void 4
summary
tx 1 committed 1
key a n2 10 0
key b n1 11 1
";

/// The Ended of the other part is gone.
pub const SECOND_ENDED_GONE: &str = "\
down n2 ended 1 commit 1
got 9
void 4
up n2 gone
sent 10 n1 n2 tell 1 commit 1
void 6
sent 11 n2 n1 ask 1
got 10
ended n2 1 commit 1
sent 12 n2 n1 ack 1
got 11
sent 13 n1 n2 tell 1 commit 1
got 12
closed 1
got 13
sent 14 n2 n1 ack 1
got 14
void 4
void 4
void 4
void 4
void 4
void 4
void 4
void 4
void 4
void 4
void 4
void 4
void 4
void 4
void 4
summary
tx 1 committed 1
key a n2 10 0
key b n1 11 1
";

/// The Ended of the other part is kept.
pub const SECOND_ENDED_KEPT: &str = "\
down n2 ended 1 commit 1
got 9
void 4
up n2 kept
sent 10 n1 n2 tell 1 commit 1
void 6
void 6
got 10
sent 11 n2 n1 ack 1
got 11
closed 1
void 4
void 4
void 4
void 4
void 4
void 4
void 4
void 4
void 4
void 4
void 4
void 4
void 4
void 4
void 4
void 4
void 4
void 4
summary
tx 1 committed 1
key a n2 10 0
key b n1 11 1
";

/// The Closed is gone.
pub const CLOSED_GONE: &str = "\
down n1 closed 1
up n1 gone
sent 11 n1 n1 tell 1 commit 1
sent 12 n1 n2 tell 1 commit 1
void 6
void 6
got 11
sent 13 n1 n1 ack 1
got 12
sent 14 n2 n1 ack 1
got 13
got 14
closed 1
void 4
void 4
void 4
void 4
void 4
void 4
void 4
void 4
void 4
void 4
void 4
void 4
void 4
void 4
void 4
void 4
summary
tx 1 committed 1
key a n2 10 0
key b n1 11 1
";

/// The Closed is kept.
pub const CLOSED_KEPT: &str = "\
down n1 closed 1
up n1 kept
void 5
void 6
void 6
void 4
void 4
void 4
void 4
void 4
void 4
void 4
void 4
void 4
void 4
void 4
void 4
void 4
void 4
void 4
void 4
void 4
void 4
void 4
void 4
summary
tx 1 committed 1
key a n2 10 0
key b n1 11 1
";

// Device calls that fail once, of the first disk of node 2, counted from 1 over its writes, cuts and syncs: 1 and 2
// make the journal, 3 to 6 append the Prepared, 7 to 10 the Ended. The disk fails at that call alone. Each of the
// calls 3 to 6 gives the run that `stop_rows` has as FAILING_DEVICE_CALL.

/// Call 1 or 2 fails: the node is not opened at the start, and is restarted.
pub const FAILING_CALL_AT_THE_START: &str = "\
nodes 2
partition 0 n1
partition 1 n2
init a 10
init b 0
tx 1 n1
read a
write b a + 1
end
schedule
restart n2
begin 1
next 10
";

pub const FAILING_CALL_AT_THE_START_TEXT: &str = "\
up n1 none
stilldown n2
up n2 none
began 1 n1 0
sent 1 n1 n2 readreq 1 1 a first 0
got 1
served n2 1 1 a 0 0 10
sent 2 n2 n1 readrep 1 1 0 10
got 2
taken 1 1 0 10
sent 3 n1 n1 prepare 1 0 parts 2 n1 n2 reads 0 writes 1 b 11
sent 4 n1 n2 prepare 1 0 parts 2 n1 n2 reads 1 a writes 0
got 3
prepared n1 1 1
sent 5 n1 n1 vote 1 yes 1
got 4
prepared n2 1 1
sent 6 n2 n1 vote 1 yes 1
got 5
got 6
decided 1 1
finished 1
sent 7 n1 n1 tell 1 commit 1
sent 8 n1 n2 tell 1 commit 1
got 7
ended n1 1 commit 1
sent 9 n1 n1 ack 1
got 8
ended n2 1 commit 1
sent 10 n2 n1 ack 1
got 9
got 10
closed 1
summary
tx 1 committed 1
key a n2 10 0
key b n1 11 1
";

/// One of the calls 7 to 10 fails: the part is told the outcome again, ends and acknowledges it.
pub const FAILING_CALL_AT_THE_END: &str = "\
nodes 2
partition 0 n1
partition 1 n2
init a 10
init b 0
tx 1 n1
read a
write b a + 1
end
schedule
begin 1
next 10
restart n2
retry 1
next 2
";

pub const FAILING_CALL_AT_THE_END_TEXT: &str = "\
up n1 none
up n2 none
began 1 n1 0
sent 1 n1 n2 readreq 1 1 a first 0
got 1
served n2 1 1 a 0 0 10
sent 2 n2 n1 readrep 1 1 0 10
got 2
taken 1 1 0 10
sent 3 n1 n1 prepare 1 0 parts 2 n1 n2 reads 0 writes 1 b 11
sent 4 n1 n2 prepare 1 0 parts 2 n1 n2 reads 1 a writes 0
got 3
prepared n1 1 1
sent 5 n1 n1 vote 1 yes 1
got 4
prepared n2 1 1
sent 6 n2 n1 vote 1 yes 1
got 5
got 6
decided 1 1
finished 1
sent 7 n1 n1 tell 1 commit 1
sent 8 n1 n2 tell 1 commit 1
got 7
ended n1 1 commit 1
sent 9 n1 n1 ack 1
got 8
down n2 ended 1 commit 1
got 9
void 4
up n2 gone
sent 10 n1 n2 tell 1 commit 1
got 10
ended n2 1 commit 1
sent 11 n2 n1 ack 1
got 11
closed 1
summary
tx 1 committed 1
key a n2 10 0
key b n1 11 1
";
