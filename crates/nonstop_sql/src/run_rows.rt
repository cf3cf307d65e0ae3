//! Scripts that `steps` runs without choices, each with its text.

/// A script that `steps` runs without choices over wires that carry everything, and its text.
#[derive(Drop)]
pub struct Run {
    pub script: &'static [&'static str],
    pub taken: &'static [&'static str],
}

/// The table of two columns with five rows, read two rows at a time.
pub const TABLE: &str = "TABLE t (k INT, v INT, PRIMARY KEY (k));";

pub const LOAD: &str = "LOAD t (1,10),(2,20),(3,30),(4,40),(5,50);";

pub const SCAN: &str = "SELECT k, v FROM t FOR REPEATABLE ACCESS;";

pub const ADD: &str = "UPDATE t SET v = v + 1 FOR REPEATABLE ACCESS;";

pub const COMMIT: &str = "COMMIT WORK;";

/// Two partitions of one row each, and sessions that change both rows in opposite order.
pub const HALVES: &str =
    "TABLE t (k INT, v INT, PRIMARY KEY (k)) FIRST KEY (1000); LOAD t (1,10),(1000,20);";

pub const LOW: &str = "UPDATE t SET v = v + 1 WHERE k = 1 FOR REPEATABLE ACCESS;";

pub const HIGH: &str = "UPDATE t SET v = v + 1 WHERE k = 1000 FOR REPEATABLE ACCESS;";

/// The accounts of two partitions.
pub const ACCOUNTS: &str =
    "TABLE acct (no INT, own CHAR(6), bal INT, PRIMARY KEY (no), CHECK (bal >= 0)) FIRST KEY (1000); LOAD acct (10, 'SMITH', 500), (1010, 'JONES', 70);";

pub const TAKE: &str = "UPDATE acct SET bal = bal - 100 WHERE no = 10 FOR REPEATABLE ACCESS;";

pub const GIVE: &str = "UPDATE acct SET bal = bal + 100 WHERE no = 1010 FOR REPEATABLE ACCESS;";

pub const RICH: &str = "SELECT * FROM acct WHERE bal > 100 FOR STABLE ACCESS;";

pub const TRANSFERRED: &[&str] = &[
    "TXN 1 1 COMMITTED 1",
    "COUNT 1 1 1 1",
    "COUNT 1 1 2 1",
    "TXN 1 2 COMMITTED 2",
    "ROW 1 2 1 10 'SMITH ' 400",
    "ROW 1 2 1 1010 'JONES ' 170",
    "TABLE acct",
    "REC 10 'SMITH ' 400",
    "REC 1010 'JONES ' 170",
];

pub const RUNS: [Run; 13] = [
    Run {
        script: &["QUANTUM 2;", TABLE, LOAD, "SESSION;", SCAN, COMMIT],
        taken: &[
            "TXN 1 1 COMMITTED 1",
            "ROW 1 1 1 1 10",
            "ROW 1 1 1 2 20",
            "ROW 1 1 1 3 30",
            "ROW 1 1 1 4 40",
            "ROW 1 1 1 5 50",
            "TABLE t",
            "REC 1 10",
            "REC 2 20",
            "REC 3 30",
            "REC 4 40",
            "REC 5 50",
        ],
    },
    Run {
        script: &["QUANTUM 2;", TABLE, "SESSION;", SCAN, COMMIT],
        taken: &["TXN 1 1 COMMITTED 1", "TABLE t"],
    },
    Run {
        script: &[
            TABLE,
            LOAD,
            "SESSION;",
            "UPDATE t SET v = v + 1 WHERE k >= 4 FOR REPEATABLE ACCESS;",
            "ROLLBACK WORK;",
        ],
        taken: &[
            "TXN 1 1 ROLLEDBACK",
            "COUNT 1 1 1 2",
            "TABLE t",
            "REC 1 10",
            "REC 2 20",
            "REC 3 30",
            "REC 4 40",
            "REC 5 50",
        ],
    },
    Run {
        script: &[
            TABLE,
            LOAD,
            "SESSION;",
            "INSERT INTO t VALUES (3,1);",
            COMMIT,
        ],
        taken: &[
            "TXN 1 1 ABORTED DUPLICATEKEY 8000000000000003",
            "TABLE t",
            "REC 1 10",
            "REC 2 20",
            "REC 3 30",
            "REC 4 40",
            "REC 5 50",
        ],
    },
    Run {
        script: &[
            TABLE,
            LOAD,
            "SESSION;",
            "SELECT k FROM t WHERE 10 / (v - 20) > 1 FOR STABLE ACCESS;",
            COMMIT,
        ],
        taken: &[
            "TXN 1 1 ABORTED ZERODIVIDE 8000000000000002",
            "TABLE t",
            "REC 1 10",
            "REC 2 20",
            "REC 3 30",
            "REC 4 40",
            "REC 5 50",
        ],
    },
    Run {
        script: &[
            TABLE,
            LOAD,
            "SESSION;",
            "SELECT k FROM t WHERE k > 9 AND k < 3 FOR REPEATABLE ACCESS;",
            COMMIT,
        ],
        taken: &[
            "TXN 1 1 COMMITTED 1",
            "TABLE t",
            "REC 1 10",
            "REC 2 20",
            "REC 3 30",
            "REC 4 40",
            "REC 5 50",
        ],
    },
    Run {
        script: &[
            "TABLE t (k INT, v INT, PRIMARY KEY (k), CHECK (v >= 0));",
            LOAD,
            "SESSION;",
            "UPDATE t SET v = v - 30 FOR REPEATABLE ACCESS;",
            COMMIT,
        ],
        taken: &[
            "TXN 1 1 ABORTED CHECKFAILED 8000000000000001",
            "TABLE t",
            "REC 1 10",
            "REC 2 20",
            "REC 3 30",
            "REC 4 40",
            "REC 5 50",
        ],
    },
    Run {
        script: &[
            "TABLE t (k INT, PRIMARY KEY (k));",
            "LOAD t (-9223372036854775808),(9223372036854775807);",
            "SESSION;",
            "SELECT k FROM t WHERE k + 1 > 0 FOR BROWSE ACCESS;",
            COMMIT,
        ],
        taken: &[
            "TXN 1 1 ABORTED OVERFLOW ffffffffffffffff",
            "TABLE t",
            "REC -9223372036854775808",
            "REC 9223372036854775807",
        ],
    },
    Run {
        script: &[
            "TABLE t (c CHAR(4), PRIMARY KEY (c));",
            "LOAD t ('A''B');",
            "SESSION;",
            "SELECT c FROM t WHERE c = 'A''B' FOR STABLE ACCESS;",
            COMMIT,
        ],
        taken: &[
            "TXN 1 1 COMMITTED 1",
            "ROW 1 1 1 'A''B '",
            "TABLE t",
            "REC 'A''B '",
        ],
    },
    Run {
        script: &[ACCOUNTS, "SESSION;", TAKE, GIVE, COMMIT, RICH, COMMIT],
        taken: TRANSFERRED,
    },
    Run {
        script: &[
            TABLE,
            LOAD,
            "SESSION;",
            "INSERT INTO t VALUES (6,60);",
            COMMIT,
            "DELETE FROM t FOR REPEATABLE ACCESS;",
            "ROLLBACK WORK;",
            SCAN,
            COMMIT,
        ],
        taken: &[
            "TXN 1 1 COMMITTED 1",
            "TXN 1 2 ROLLEDBACK",
            "COUNT 1 2 1 6",
            "TXN 1 3 COMMITTED 2",
            "ROW 1 3 1 1 10",
            "ROW 1 3 1 2 20",
            "ROW 1 3 1 3 30",
            "ROW 1 3 1 4 40",
            "ROW 1 3 1 5 50",
            "ROW 1 3 1 6 60",
            "TABLE t",
            "REC 1 10",
            "REC 2 20",
            "REC 3 30",
            "REC 4 40",
            "REC 5 50",
            "REC 6 60",
        ],
    },
    Run {
        script: &[
            TABLE,
            LOAD,
            "SESSION;",
            "SELECT k FROM t WHERE k = 2 AND 10 / (v - 20) > 1 FOR REPEATABLE ACCESS;",
            COMMIT,
        ],
        taken: &[
            "TXN 1 1 ABORTED ZERODIVIDE 8000000000000002",
            "TABLE t",
            "REC 1 10",
            "REC 2 20",
            "REC 3 30",
            "REC 4 40",
            "REC 5 50",
        ],
    },
    Run {
        script: &[
            TABLE,
            LOAD,
            "SESSION;",
            "SELECT k FROM t WHERE k = 1 AND 10 / (v - 20) > 1 FOR REPEATABLE ACCESS;",
            COMMIT,
        ],
        taken: &[
            "TXN 1 1 COMMITTED 1",
            "TABLE t",
            "REC 1 10",
            "REC 2 20",
            "REC 3 30",
            "REC 4 40",
            "REC 5 50",
        ],
    },
];
