//! Worked runs of updates, as documents and the texts of their runs. The texts were written by hand from
//! the rules.

/// One update from its begin to its closing.
pub const READ_THEN_WRITE: &str = "\
nodes 2
partition 0 n1
partition 1 n2
init a 10
init b 0
tx 1 n1
read a
write b a + 1
end
schedule
begin 1
next 10
";

pub const READ_THEN_WRITE_TEXT: &str = "\
up n1 none
up n2 none
began 1 n1 0
sent 1 n1 n2 readreq 1 1 a first 0
got 1
served n2 1 1 a 0 0 10
sent 2 n2 n1 readrep 1 1 0 10
got 2
taken 1 1 0 10
sent 3 n1 n1 prepare 1 0 parts 2 n1 n2 reads 0 writes 1 b 11
sent 4 n1 n2 prepare 1 0 parts 2 n1 n2 reads 1 a writes 0
got 3
prepared n1 1 1
sent 5 n1 n1 vote 1 yes 1
got 4
prepared n2 1 1
sent 6 n2 n1 vote 1 yes 1
got 5
got 6
decided 1 1
finished 1
sent 7 n1 n1 tell 1 commit 1
sent 8 n1 n2 tell 1 commit 1
got 7
ended n1 1 commit 1
sent 9 n1 n1 ack 1
got 8
ended n2 1 commit 1
sent 10 n2 n1 ack 1
got 9
got 10
closed 1
summary
tx 1 committed 1
key a n2 10 0
key b n1 11 1
";

/// Another update behind it.
pub const NEXT_UPDATE: &str = "\
nodes 2
partition 0 n1
partition 1 n2
init a 10
init b 0
tx 1 n1
read a
write b a + 1
end
tx 2 n1
write a 3
end
schedule
begin 1
next 10
begin 2
next 4
";

pub const NEXT_UPDATE_TEXT: &str = "\
up n1 none
up n2 none
began 1 n1 0
sent 1 n1 n2 readreq 1 1 a first 0
got 1
served n2 1 1 a 0 0 10
sent 2 n2 n1 readrep 1 1 0 10
got 2
taken 1 1 0 10
sent 3 n1 n1 prepare 1 0 parts 2 n1 n2 reads 0 writes 1 b 11
sent 4 n1 n2 prepare 1 0 parts 2 n1 n2 reads 1 a writes 0
got 3
prepared n1 1 1
sent 5 n1 n1 vote 1 yes 1
got 4
prepared n2 1 1
sent 6 n2 n1 vote 1 yes 1
got 5
got 6
decided 1 1
finished 1
sent 7 n1 n1 tell 1 commit 1
sent 8 n1 n2 tell 1 commit 1
got 7
ended n1 1 commit 1
sent 9 n1 n1 ack 1
got 8
ended n2 1 commit 1
sent 10 n2 n1 ack 1
got 9
got 10
closed 1
began 2 n1 1
sent 11 n1 n2 prepare 2 1 parts 1 n2 reads 0 writes 1 a 3
got 11
prepared n2 2 2
sent 12 n2 n1 vote 2 yes 2
got 12
decided 2 2
finished 2
sent 13 n1 n2 tell 2 commit 2
got 13
ended n2 2 commit 2
sent 14 n2 n1 ack 2
got 14
closed 2
summary
tx 1 committed 1
tx 2 committed 2
key a n2 3 2
key b n1 11 1
";

/// Two updates write one key.
pub const WRITE_CONFLICT: &str = "\
nodes 2
partition 0 n1
partition 1 n2
init a 10
init b 0
tx 1 n1
write a 1
end
tx 2 n2
write a 2
end
schedule
begin 1
begin 2
deliver 1
deliver 2
deliver 4
";

pub const WRITE_CONFLICT_TEXT: &str = "\
up n1 none
up n2 none
began 1 n1 0
sent 1 n1 n2 prepare 1 0 parts 1 n2 reads 0 writes 1 a 1
began 2 n2 0
sent 2 n2 n2 prepare 2 0 parts 1 n2 reads 0 writes 1 a 2
got 1
prepared n2 1 1
sent 3 n2 n1 vote 1 yes 1
got 2
refused n2 2 holder 1
sent 4 n2 n2 vote 2 no holder 1
got 4
aborted 2 n2 holder 1
summary
tx 1 collecting
tx 2 aborted
key a n2 10 0
key b n1 0 0
";

/// A key is written behind a read of it.
pub const STALE_READ_REFUSED: &str = "\
nodes 2
partition 0 n1
partition 1 n2
init a 10
init b 0
tx 1 n1
read a
write b a
end
tx 2 n2
write a 7
end
schedule
begin 1
deliver 1
begin 2
deliver 3
deliver 4
deliver 5
deliver 6
deliver 2
deliver 8
deliver 9
deliver 7
deliver 10
";

pub const STALE_READ_REFUSED_TEXT: &str = "\
up n1 none
up n2 none
began 1 n1 0
sent 1 n1 n2 readreq 1 1 a first 0
got 1
served n2 1 1 a 0 0 10
sent 2 n2 n1 readrep 1 1 0 10
began 2 n2 0
sent 3 n2 n2 prepare 2 0 parts 1 n2 reads 0 writes 1 a 7
got 3
prepared n2 2 1
sent 4 n2 n2 vote 2 yes 1
got 4
decided 2 1
finished 2
sent 5 n2 n2 tell 2 commit 1
got 5
ended n2 2 commit 1
sent 6 n2 n2 ack 2
got 6
closed 2
got 2
taken 1 1 0 10
sent 7 n1 n1 prepare 1 0 parts 2 n1 n2 reads 0 writes 1 b 10
sent 8 n1 n2 prepare 1 0 parts 2 n1 n2 reads 1 a writes 0
got 8
refused n2 1 newer a 1
sent 9 n2 n1 vote 1 no newer a 1
got 9
aborted 1 n2 newer a 1
sent 10 n1 n1 tell 1 abort
got 7
prepared n1 1 1
sent 11 n1 n1 vote 1 yes 1
got 10
ended n1 1 abort
summary
tx 1 aborted
tx 2 committed 1
key a n2 7 1
key b n1 0 0
";

/// A read comes to a node where a transaction is pending.
pub const HELD_READ: &str = "\
nodes 2
partition 0 n1
partition 1 n2
init a 10
init b 0
tx 1 n1
read a
write b a + 1
end
tx 2 n1
read b
read a
end
schedule
begin 1
next 7
begin 2
deliver 10
deliver 11
deliver 12
deliver 8
deliver 14
";

pub const HELD_READ_TEXT: &str = "\
up n1 none
up n2 none
began 1 n1 0
sent 1 n1 n2 readreq 1 1 a first 0
got 1
served n2 1 1 a 0 0 10
sent 2 n2 n1 readrep 1 1 0 10
got 2
taken 1 1 0 10
sent 3 n1 n1 prepare 1 0 parts 2 n1 n2 reads 0 writes 1 b 11
sent 4 n1 n2 prepare 1 0 parts 2 n1 n2 reads 1 a writes 0
got 3
prepared n1 1 1
sent 5 n1 n1 vote 1 yes 1
got 4
prepared n2 1 1
sent 6 n2 n1 vote 1 yes 1
got 5
got 6
decided 1 1
finished 1
sent 7 n1 n1 tell 1 commit 1
sent 8 n1 n2 tell 1 commit 1
got 7
ended n1 1 commit 1
sent 9 n1 n1 ack 1
began 2 n1 1
sent 10 n1 n1 readreq 2 1 b first 1
got 10
served n1 2 1 b 1 1 11
sent 11 n1 n1 readrep 2 1 1 11
got 11
taken 2 1 1 11
sent 12 n1 n2 readreq 2 2 a at 1
got 12
held n2 2 2 1
got 8
ended n2 1 commit 1
sent 13 n2 n1 ack 1
served n2 2 2 a 1 0 10
sent 14 n2 n1 readrep 2 2 1 10
got 14
taken 2 2 1 10
finished 2
summary
tx 1 committed 1
tx 2 read 1
key a n2 10 0
key b n1 11 1
";

/// Copies of a Prepare, a commit and an acknowledgement come late.
pub const REPEATS_AFTER_THE_END: &str = "\
nodes 2
partition 0 n1
partition 1 n2
init a 10
init b 0
tx 1 n1
read a
write b a + 1
end
schedule
begin 1
next 10
deliver 4
deliver 8
deliver 11
";

pub const REPEATS_AFTER_THE_END_TEXT: &str = "\
up n1 none
up n2 none
began 1 n1 0
sent 1 n1 n2 readreq 1 1 a first 0
got 1
served n2 1 1 a 0 0 10
sent 2 n2 n1 readrep 1 1 0 10
got 2
taken 1 1 0 10
sent 3 n1 n1 prepare 1 0 parts 2 n1 n2 reads 0 writes 1 b 11
sent 4 n1 n2 prepare 1 0 parts 2 n1 n2 reads 1 a writes 0
got 3
prepared n1 1 1
sent 5 n1 n1 vote 1 yes 1
got 4
prepared n2 1 1
sent 6 n2 n1 vote 1 yes 1
got 5
got 6
decided 1 1
finished 1
sent 7 n1 n1 tell 1 commit 1
sent 8 n1 n2 tell 1 commit 1
got 7
ended n1 1 commit 1
sent 9 n1 n1 ack 1
got 8
ended n2 1 commit 1
sent 10 n2 n1 ack 1
got 9
got 10
closed 1
got 4
got 8
sent 11 n2 n1 ack 1
got 11
summary
tx 1 committed 1
key a n2 10 0
key b n1 11 1
";

/// Each vote comes twice.
pub const REPEATED_VOTES: &str = "\
nodes 2
partition 0 n1
partition 1 n2
init a 10
init b 0
tx 1 n1
read a
write b a + 1
end
schedule
begin 1
next 4
deliver 6
deliver 6
deliver 5
deliver 5
";

pub const REPEATED_VOTES_TEXT: &str = "\
up n1 none
up n2 none
began 1 n1 0
sent 1 n1 n2 readreq 1 1 a first 0
got 1
served n2 1 1 a 0 0 10
sent 2 n2 n1 readrep 1 1 0 10
got 2
taken 1 1 0 10
sent 3 n1 n1 prepare 1 0 parts 2 n1 n2 reads 0 writes 1 b 11
sent 4 n1 n2 prepare 1 0 parts 2 n1 n2 reads 1 a writes 0
got 3
prepared n1 1 1
sent 5 n1 n1 vote 1 yes 1
got 4
prepared n2 1 1
sent 6 n2 n1 vote 1 yes 1
got 6
got 6
got 5
decided 1 1
finished 1
sent 7 n1 n1 tell 1 commit 1
sent 8 n1 n2 tell 1 commit 1
got 5
summary
tx 1 committed 1
key a n2 10 0
key b n1 0 0
";

/// Two updates have one final identifier.
pub const EQUAL_FINALS: &str = "\
nodes 2
partition 0 n1
partition 1 n2
init a 10
init b 0
tx 1 n1
write b 5
end
tx 2 n2
write a 7
end
tx 3 n1
read b
read a
end
schedule
begin 1
begin 2
next 8
begin 3
next 4
";

pub const EQUAL_FINALS_TEXT: &str = "\
up n1 none
up n2 none
began 1 n1 0
sent 1 n1 n1 prepare 1 0 parts 1 n1 reads 0 writes 1 b 5
began 2 n2 0
sent 2 n2 n2 prepare 2 0 parts 1 n2 reads 0 writes 1 a 7
got 1
prepared n1 1 1
sent 3 n1 n1 vote 1 yes 1
got 2
prepared n2 2 1
sent 4 n2 n2 vote 2 yes 1
got 3
decided 1 1
finished 1
sent 5 n1 n1 tell 1 commit 1
got 4
decided 2 1
finished 2
sent 6 n2 n2 tell 2 commit 1
got 5
ended n1 1 commit 1
sent 7 n1 n1 ack 1
got 6
ended n2 2 commit 1
sent 8 n2 n2 ack 2
got 7
closed 1
got 8
closed 2
began 3 n1 1
sent 9 n1 n1 readreq 3 1 b first 1
got 9
served n1 3 1 b 1 1 5
sent 10 n1 n1 readrep 3 1 1 5
got 10
taken 3 1 1 5
sent 11 n1 n2 readreq 3 2 a at 1
got 11
served n2 3 2 a 1 1 7
sent 12 n2 n1 readrep 3 2 1 7
got 12
taken 3 2 1 7
finished 3
summary
tx 1 committed 1
tx 2 committed 1
tx 3 read 1
key a n2 7 1
key b n1 5 1
";

/// A transaction reads what it wrote.
pub const OWN_READ: &str = "\
nodes 2
partition 0 n1
partition 1 n2
init a 10
init b 0
tx 1 n1
write b 4
read b
write a b
end
schedule
begin 1
";

pub const OWN_READ_TEXT: &str = "\
up n1 none
up n2 none
began 1 n1 0
own 1 2 4
sent 1 n1 n1 prepare 1 0 parts 2 n1 n2 reads 0 writes 1 b 4
sent 2 n1 n2 prepare 1 0 parts 2 n1 n2 reads 0 writes 1 a 4
summary
tx 1 collecting
key a n2 10 0
key b n1 0 0
";

/// One node holds no key of the transaction.
pub const BYSTANDER_GETS_NOTHING: &str = "\
nodes 3
partition 0 n1
partition 1 n2
partition 2 n3
init a 10
tx 1 n1
read a
write c a + 1
end
schedule
begin 1
next 10
";

pub const BYSTANDER_GETS_NOTHING_TEXT: &str = "\
up n1 none
up n2 none
up n3 none
began 1 n1 0
sent 1 n1 n2 readreq 1 1 a first 0
got 1
served n2 1 1 a 0 0 10
sent 2 n2 n1 readrep 1 1 0 10
got 2
taken 1 1 0 10
sent 3 n1 n1 prepare 1 0 parts 2 n1 n2 reads 0 writes 1 c 11
sent 4 n1 n2 prepare 1 0 parts 2 n1 n2 reads 1 a writes 0
got 3
prepared n1 1 1
sent 5 n1 n1 vote 1 yes 1
got 4
prepared n2 1 1
sent 6 n2 n1 vote 1 yes 1
got 5
got 6
decided 1 1
finished 1
sent 7 n1 n1 tell 1 commit 1
sent 8 n1 n2 tell 1 commit 1
got 7
ended n1 1 commit 1
sent 9 n1 n1 ack 1
got 8
ended n2 1 commit 1
sent 10 n2 n1 ack 1
got 9
got 10
closed 1
summary
tx 1 committed 1
key a n2 10 0
key c n1 11 1
";

/// A transfer between keys with two holders each.
pub const REPLICATED_TRANSFER: &str = "\
nodes 3
partition 0 n1 n2
partition 1 n2 n3
partition 2 n3 n1
init a 100
init b 20
tx 1 n1
read a
read b
write a a - 30
write b b + 30
end
schedule
begin 1
next 16
";

pub const REPLICATED_TRANSFER_TEXT: &str = "\
up n1 none
up n2 none
up n3 none
began 1 n1 0
sent 1 n1 n2 readreq 1 1 a first 0
got 1
served n2 1 1 a 0 0 100
sent 2 n2 n1 readrep 1 1 0 100
got 2
taken 1 1 0 100
sent 3 n1 n1 readreq 1 2 b at 0
got 3
served n1 1 2 b 0 0 20
sent 4 n1 n1 readrep 1 2 0 20
got 4
taken 1 2 0 20
sent 5 n1 n1 prepare 1 0 parts 3 n1 n2 n3 reads 1 b writes 1 b 50
sent 6 n1 n2 prepare 1 0 parts 3 n1 n2 n3 reads 1 a writes 1 a 70
sent 7 n1 n3 prepare 1 0 parts 3 n1 n2 n3 reads 2 a b writes 2 a 70 b 50
got 5
prepared n1 1 1
sent 8 n1 n1 vote 1 yes 1
got 6
prepared n2 1 1
sent 9 n2 n1 vote 1 yes 1
got 7
prepared n3 1 1
sent 10 n3 n1 vote 1 yes 1
got 8
got 9
got 10
decided 1 1
finished 1
sent 11 n1 n1 tell 1 commit 1
sent 12 n1 n2 tell 1 commit 1
sent 13 n1 n3 tell 1 commit 1
got 11
ended n1 1 commit 1
sent 14 n1 n1 ack 1
got 12
ended n2 1 commit 1
sent 15 n2 n1 ack 1
got 13
ended n3 1 commit 1
sent 16 n3 n1 ack 1
got 14
got 15
got 16
closed 1
summary
tx 1 committed 1
key a n2 70 1
key a n3 70 1
key b n1 50 1
key b n3 50 1
";

/// A commit keeps its lock until it is applied.
pub const LOCK_UNTIL_APPLIED: &str = "\
nodes 2
partition 0 n1
partition 1 n2
init a 10
init b 0
tx 1 n1
write a 1
end
tx 2 n1
write c 2
end
tx 3 n1
write c 3
end
schedule
begin 1
begin 2
deliver 1
deliver 2
deliver 4
deliver 5
begin 3
deliver 7
";

pub const LOCK_UNTIL_APPLIED_TEXT: &str = "\
up n1 none
up n2 none
began 1 n1 0
sent 1 n1 n2 prepare 1 0 parts 1 n2 reads 0 writes 1 a 1
began 2 n1 0
sent 2 n1 n2 prepare 2 0 parts 1 n2 reads 0 writes 1 c 2
got 1
prepared n2 1 1
sent 3 n2 n1 vote 1 yes 1
got 2
prepared n2 2 2
sent 4 n2 n1 vote 2 yes 2
got 4
decided 2 2
finished 2
sent 5 n1 n2 tell 2 commit 2
got 5
ended n2 2 commit 2
sent 6 n2 n1 ack 2
began 3 n1 0
sent 7 n1 n2 prepare 3 0 parts 1 n2 reads 0 writes 1 c 3
got 7
refused n2 3 holder 2
sent 8 n2 n1 vote 3 no holder 2
summary
tx 1 collecting
tx 2 committed 2
tx 3 collecting
key a n2 10 0
key b n1 0 0
key c n2 0 0
";

/// A client writes at one node and reads at another, in one session.
pub const SESSION: &str = "\
nodes 2
partition 0 n1
partition 1 n2
init a 10
init b 0
tx 1 n1 session 5
write b 5
end
tx 2 n2 session 5
read a
read b
end
schedule
begin 1
begin 2
next 4
begin 2
next 4
";

pub const SESSION_TEXT: &str = "\
up n1 none
up n2 none
began 1 n1 0
sent 1 n1 n1 prepare 1 0 parts 1 n1 reads 0 writes 1 b 5
void 9
got 1
prepared n1 1 1
sent 2 n1 n1 vote 1 yes 1
got 2
decided 1 1
finished 1
sent 3 n1 n1 tell 1 commit 1
got 3
ended n1 1 commit 1
sent 4 n1 n1 ack 1
got 4
closed 1
began 2 n2 1
sent 5 n2 n2 readreq 2 1 a first 1
got 5
ceiling n2 64
raised n2 1
served n2 2 1 a 1 0 10
sent 6 n2 n2 readrep 2 1 1 10
got 6
taken 2 1 1 10
sent 7 n2 n1 readreq 2 2 b at 1
got 7
served n1 2 2 b 1 1 5
sent 8 n1 n2 readrep 2 2 1 5
got 8
taken 2 2 1 5
finished 2
summary
tx 1 committed 1
tx 2 read 1
key a n2 10 0
key b n1 5 1
";

/// The same without a session.
pub const WITHOUT_SESSION: &str = "\
nodes 2
partition 0 n1
partition 1 n2
init a 10
init b 0
tx 1 n1
write b 5
end
tx 2 n2
read a
read b
end
schedule
begin 1
begin 2
next 4
begin 2
next 4
";

pub const WITHOUT_SESSION_TEXT: &str = "\
up n1 none
up n2 none
began 1 n1 0
sent 1 n1 n1 prepare 1 0 parts 1 n1 reads 0 writes 1 b 5
began 2 n2 0
sent 2 n2 n2 readreq 2 1 a first 0
got 1
prepared n1 1 1
sent 3 n1 n1 vote 1 yes 1
got 2
served n2 2 1 a 0 0 10
sent 4 n2 n2 readrep 2 1 0 10
got 3
decided 1 1
finished 1
sent 5 n1 n1 tell 1 commit 1
got 4
taken 2 1 0 10
sent 6 n2 n1 readreq 2 2 b at 0
void 1
got 5
ended n1 1 commit 1
sent 7 n1 n1 ack 1
got 6
served n1 2 2 b 0 0 0
sent 8 n1 n2 readrep 2 2 0 0
got 7
closed 1
got 8
taken 2 2 0 0
finished 2
summary
tx 1 committed 1
tx 2 read 0
key a n2 10 0
key b n1 5 1
";
