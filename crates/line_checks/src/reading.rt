// Each refusal of a line with its place, and which of two comes first.
use crate::order::named;
use lines::reading::read_line;

fn outcome(line: &[u8]) -> Result<(), (u32, usize)> {
    named(read_line(line)).map(|_| ())
}

#[test]
fn lines_that_are_taken(rt: HostRuntime) {
    assert_eq!(rt; outcome(b"ADD,7,GL7T,AAAA,BBBB,D,750,10,,"), Ok(()));
    assert_eq!(rt; outcome(b"AMD,7,A4,AAAA,BBBB,T,0,1,0,X"), Ok(()));
    assert_eq!(rt;
        outcome(b"ADD,999999999,747,0000,ZZZZ,T,999999999,999999999,999999999,X"),
        Ok(())
    );
    assert_eq!(rt; outcome(b"DEL,7"), Ok(()));
    assert_eq!(rt; outcome(b"DEL,0"), Ok(()));
    assert_eq!(rt; outcome(b"ADD,0,GL7T,AAAA,BBBB,D,0,0,0,"), Ok(()));
}

// Eighty bytes are looked at, one more are not, whatever they are.
#[test]
fn at_most_80_bytes(rt: HostRuntime) {
    assert_eq!(rt; outcome(&[b'A'; 80]), Err((13, 0)));
    assert_eq!(rt; outcome(&[b'A'; 81]), Err((12, 0)));
    assert_eq!(rt;
        outcome(
            b"DEL,11111111111111111111111111111111111111111111111111111111111111111111111111111",
        ),
        Err((12, 0))
    );
    assert_eq!(rt;
        outcome(
            b"DEL,1111111111111111111111111111111111111111111111111111111111111111111111111111",
        ),
        Err((15, 2))
    );
    assert_eq!(rt;
        outcome(
            b"DEL,,,,,,,,,,,,,,,,,,,,,,,,,,,,,,,,,,,,,,,,,,,,,,,,,,,,,,,,,,,,,,,,,,,,,,,,,,,,,,",
        ),
        Err((12, 0))
    );
    assert_eq!(rt;
        outcome(
            b"DEL,,,,,,,,,,,,,,,,,,,,,,,,,,,,,,,,,,,,,,,,,,,,,,,,,,,,,,,,,,,,,,,,,,,,,,,,,,,,,",
        ),
        Err((14, 0))
    );
}

#[test]
fn verbs(rt: HostRuntime) {
    assert_eq!(rt; outcome(b""), Err((13, 0)));
    assert_eq!(rt; outcome(b"\r"), Err((13, 0)));
    assert_eq!(rt; outcome(b"add,7,GL7T,AAAA,BBBB,D,750,10,,"), Err((13, 0)));
    assert_eq!(rt; outcome(b" ADD,7,GL7T,AAAA,BBBB,D,750,10,,"), Err((13, 0)));
    assert_eq!(rt; outcome(b"ADDX,7,GL7T,AAAA,BBBB,D,750,10,,"), Err((13, 0)));
    assert_eq!(rt; outcome(b",7"), Err((13, 0)));
    assert_eq!(rt; outcome(b"\0\xff\xfe"), Err((13, 0)));
    assert_eq!(rt; outcome(b"AD\xc3,7"), Err((13, 0)));
}

#[test]
fn numbers_of_fields(rt: HostRuntime) {
    assert_eq!(rt; outcome(b"ADD"), Err((14, 0)));
    assert_eq!(rt; outcome(b"DEL"), Err((14, 0)));
    assert_eq!(rt; outcome(b"DEL,7,"), Err((14, 0)));
    assert_eq!(rt; outcome(b"ADD,7,GL7T,AAAA,BBBB,D,750,10,"), Err((14, 0)));
    assert_eq!(rt; outcome(b"ADD,7,GL7T,AAAA,BBBB,D,750,10,,,"), Err((14, 0)));
    assert_eq!(rt; outcome(b"AMD,7"), Err((14, 0)));
    assert_eq!(rt; outcome(b"DEL,7,GL7T,AAAA,BBBB,D,750,10,,"), Err((14, 0)));
}

#[test]
fn each_malformed_field(rt: HostRuntime) {
    assert_eq!(rt; outcome(b"ADD,x,GL7T,AAAA,BBBB,D,750,10,,"), Err((15, 2)));
    assert_eq!(rt; outcome(b"ADD,7,gl7t,AAAA,BBBB,D,750,10,,"), Err((15, 3)));
    assert_eq!(rt; outcome(b"ADD,7,GL7T,AAA,BBBB,D,750,10,,"), Err((15, 4)));
    assert_eq!(rt; outcome(b"ADD,7,GL7T,AAAA,BBBBB,D,750,10,,"), Err((15, 5)));
    assert_eq!(rt; outcome(b"ADD,7,GL7T,AAAA,BBBB,d,750,10,,"), Err((15, 6)));
    assert_eq!(rt; outcome(b"ADD,7,GL7T,AAAA,BBBB,D,-1,10,,"), Err((15, 7)));
    assert_eq!(rt; outcome(b"ADD,7,GL7T,AAAA,BBBB,D,750,,,"), Err((15, 8)));
    assert_eq!(rt;
        outcome(b"ADD,7,GL7T,AAAA,BBBB,D,750,10,1.5,"),
        Err((15, 9))
    );
    assert_eq!(rt; outcome(b"ADD,7,GL7T,AAAA,BBBB,D,750,10,,x"), Err((15, 10)));
    assert_eq!(rt; outcome(b"DEL,x"), Err((15, 2)));
}

#[test]
fn a_carriage_return_belongs_to_the_last_field(rt: HostRuntime) {
    assert_eq!(rt;
        outcome(b"ADD,7,GL7T,AAAA,BBBB,D,750,10,,\r"),
        Err((15, 10))
    );
    assert_eq!(rt;
        outcome(b"ADD,7,GL7T,AAAA,BBBB,D,750,10,,X\r"),
        Err((15, 10))
    );
    assert_eq!(rt; outcome(b"DEL,7\r"), Err((15, 2)));
}

#[test]
fn numbers(rt: HostRuntime) {
    assert_eq!(rt; outcome(b"DEL,"), Err((15, 2)));
    assert_eq!(rt; outcome(b"DEL,00"), Err((15, 2)));
    assert_eq!(rt; outcome(b"DEL,07"), Err((15, 2)));
    assert_eq!(rt; outcome(b"DEL,123456789"), Ok(()));
    assert_eq!(rt; outcome(b"DEL,1234567890"), Err((15, 2)));
    assert_eq!(rt; outcome(b"DEL,+7"), Err((15, 2)));
    assert_eq!(rt; outcome(b"DEL, 7"), Err((15, 2)));
    assert_eq!(rt; outcome(b"DEL,7 "), Err((15, 2)));
    assert_eq!(rt; outcome(b"DEL,1\xff"), Err((15, 2)));
}

#[test]
fn types_and_codes(rt: HostRuntime) {
    assert_eq!(rt; outcome(b"ADD,7,A,AAAA,BBBB,D,750,10,,"), Err((15, 3)));
    assert_eq!(rt; outcome(b"ADD,7,A4  ,AAAA,BBBB,D,750,10,,"), Err((15, 3)));
    assert_eq!(rt; outcome(b"ADD,7,GL7TX,AAAA,BBBB,D,750,10,,"), Err((15, 3)));
    assert_eq!(rt; outcome(b"ADD,7,,AAAA,BBBB,D,750,10,,"), Err((15, 3)));
    assert_eq!(rt; outcome(b"ADD,7,GL7T,AA A,BBBB,D,750,10,,"), Err((15, 4)));
    assert_eq!(rt; outcome(b"ADD,7,GL7T,AAAA,,D,750,10,,"), Err((15, 5)));
    assert_eq!(rt; outcome(b"ADD,7,GL7T,AAAA,BBBB,,750,10,,"), Err((15, 6)));
    assert_eq!(rt; outcome(b"ADD,7,GL7T,AAAA,BBBB,DT,750,10,,"), Err((15, 6)));
    assert_eq!(rt;
        outcome(b"ADD,7,GL7T,AAAA,BBBB,D,750,10,,XX"),
        Err((15, 10))
    );
}

#[test]
fn the_earlier_check_comes_first(rt: HostRuntime) {
    assert_eq!(rt; outcome(b"DEL,x,"), Err((14, 0)));
    assert_eq!(rt; outcome(b"XXX,x,"), Err((13, 0)));
    assert_eq!(rt; outcome(b"XXX,7"), Err((13, 0)));
    assert_eq!(rt; outcome(b"ADD,x,y,z"), Err((14, 0)));
    assert_eq!(rt; outcome(b"ADD,x,y,z,,,,,,?"), Err((15, 2)));
    assert_eq!(rt; outcome(b"ADD,7,y,z,,,,,,?"), Err((15, 3)));
    assert_eq!(rt; outcome(b"ADD,7,GL7T,AAAA,BBBB,D,750,10,x,y"), Err((15, 9)));
}
