use adg_base::command::Command;
use std::test::Fail;
use step_driver::request::Request;

/// What texts are read as: a command, or the byte up to which they begin one.
#[test]
fn texts_are_read(rt: HostRuntime) -> Result<(), Fail> {
    let table = [
        (b"SYNC".as_slice(), None),
        (b"SHOW SCN".as_slice(), None),
        (b"ABORT".as_slice(), None),
        (b"POPULATE t1".as_slice(), None),
        (b"SELECT * FROM t1".as_slice(), None),
        (b"".as_slice(), Some(0)),
        (b"SYNCS".as_slice(), Some(4)),
        (b"SELECT COUNT FROM u1".as_slice(), Some(18)),
    ];
    for (text, expected) in table {
        let byte = match Request::read(rt.alloc(), text)? {
            Request::Asks(_) => None,
            Request::Garbles { byte } => Some(byte),
        };
        assert_eq!(rt; byte, expected);
    }
    let read = Request::read(rt.alloc(), b"ABORT".as_slice())?;
    assert!(rt; matches!(&read, Request::Asks(Command::Abort)));
    Ok(())
}
