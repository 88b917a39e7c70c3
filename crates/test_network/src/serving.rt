// A connection that the library serves over this machine's network, in one thread with its client.
use std::io::{Read, Write};
use std::net::{Shutdown, TcpListener, TcpStream};
use std::test::Fail;
use ts_engine::{Db, Limits, Served, serve, usual_budget};
use ts_io::{Listener, MemClock, MemSink, TcpNet};

const REQUEST: &[u8] = b"*4\r\n$6\r\nTS.ADD\r\n$1\r\na\r\n$4\r\n1000\r\n$1\r\n1\r\n";

#[test]
fn a_client_that_has_sent_all_gets_its_reply(rt: HostRuntime) -> Result<(), Fail> {
    let alloc = rt.alloc();
    let address = TcpListener::bind(&rt, "127.0.0.1:0")?.local_addr()?;
    let text = format!(in alloc; "{address}")?;
    let mut net = TcpNet::new(&rt);
    assert!(rt; net.open(&text) == Ok(()));
    let mut client = TcpStream::connect(&rt, address)?;
    client.write_all(REQUEST)?;
    client.shutdown(Shutdown::Write)?;

    let limits = Limits::usual();
    let mut db = Db::new(alloc, limits);
    let mut out = MemSink::new(alloc, 4096, Vec::new(alloc));
    let mut clock = MemClock::new(Vec::new(alloc));
    let served = serve(
        alloc,
        &mut db,
        &mut net,
        &mut out,
        &mut clock,
        1,
        limits.wire,
        usual_budget(),
    );
    assert!(rt; served == Served::Done);
    assert!(rt; out.bytes() == b"link 1 executed 1 ended\n".as_slice());
    let mut told = Vec::new(alloc);
    client.read_to_end(&mut told)?;
    assert!(rt; told.as_slice() == b":1000\r\n".as_slice());
    Ok(())
}
