//! The scripts that are made from numbers, as they are printed: how long they are, how they begin and how they end.
use script_maker::make;
use std::test::Fail;

#[test]
fn scripts_are_made(rt: HostRuntime) -> Result<(), Fail> {
    let alloc = rt.alloc();
    let rows: [(u64, usize, &[u8], &[u8]); 2] = [
        (
            7,
            25401,
            b"QUANTUM 7 ;\nBUFFER 512 ;\nPATIENCE 8 ;\nSERVERS 2 ;\nTABLE acct ( no INT , own CHAR ( 4 ) , bal INT , PRIMARY KEY ( no ) , CHECK ( bal >= 0 ) ) FIRST KEY ( 400 ) , ( 800 ) ;\nLOAD acct ( 0 , 'C' , 231 ) , ( 1 , 'X' , 673 )",
            b"INSERT INTO acct VALUES ( 1431 , 'N' , 69 ) ;\nCOMMIT WORK ;\nSELECT no , bal FROM acct WHERE ( no >= 393 ) AND ( no <= 492 ) FOR REPEATABLE ACCESS ;\nSELECT no , bal FROM acct WHERE ( no >= 352 ) AND ( no <= 451 ) FOR REPEATABLE ACCESS ;\nCOMMIT WORK ;\n",
        ),
        (
            18446744073709551615,
            25147,
            b"QUANTUM 7 ;\nBUFFER 512 ;\nPATIENCE 8 ;\nSERVERS 2 ;\nTABLE acct ( no INT , own CHAR ( 4 ) , bal INT , PRIMARY KEY ( no ) , CHECK ( bal >= 0 ) ) FIRST KEY ( 400 ) , ( 800 ) ;\nLOAD acct ( 0 , 'C' , 343 ) , ( 1 , 'R' , 602 )",
            b"INSERT INTO acct VALUES ( 1431 , 'N' , 329 ) ;\nCOMMIT WORK ;\nUPDATE acct SET bal = bal + 1 WHERE ( no >= 34 ) AND ( no <= 133 ) FOR REPEATABLE ACCESS ;\nSELECT no , own FROM acct WHERE bal >= 900 FOR STABLE ACCESS ;\nCOMMIT WORK ;\n",
        ),
    ];
    for (number, length, beginning, end) in rows {
        let made = make(alloc, number)?;
        assert_eq!(rt; made.len(), length);
        assert_eq!(rt; made.as_slice().starts_with(beginning), true);
        assert_eq!(rt; made.as_slice().ends_with(end), true);
    }
    Ok(())
}
