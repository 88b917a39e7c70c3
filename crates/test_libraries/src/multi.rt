// The text of replies over many series.
ghost use Rattle.std.specs.Prelude.{◌≡◌, IfOk};

use std::alloc::{AllocError, Global};
use std::test::*;
use ts_labels::{Labels, Show};
use ts_multi::{Member, multi, multi_last};
use ts_range::Row;
use ts_resp::{Out, Reply, Word, encode};
use ts_sample::{Cell, Units};

fn word(alloc: Global, text: &str) -> Result<Word, AllocError> {
    Word::from_slice(alloc, text.as_bytes())
}

// The series m with the labels kind=s and area=x.
fn member(alloc: Global, rows: Vec<Row>) -> Result<Member, AllocError>
    ensures { IfOk result (λ m. m.rows ≡ rows) }
{
    let mut labels = Labels::new(alloc);
    labels.set(word(alloc, "kind")?, word(alloc, "s")?)?;
    labels.set(word(alloc, "area")?, word(alloc, "x")?)?;
    let key = word(alloc, "m")?;
    Ok(Member { key, labels, rows })
}

// The row 1:2.
fn row() -> Row {
    let value = Cell::Number(Units::new(2_000_000).unwrap_or(Units::ZERO));
    Row { time: 1, value }
}

fn text(alloc: Global, reply: &Reply) -> Result<Out, AllocError> {
    let mut out = Out::new(alloc)?;
    encode(reply, &mut out)?;
    Ok(out)
}

#[test]
fn labels_in_the_order_of_a_selection(rt: HostRuntime) -> Result<(), AllocError> {
    let alloc = rt.alloc();
    let member = member(alloc, vec![in alloc; row()]?)?;
    assert!(rt; !member.labels.is_empty());
    let members = vec![in alloc; member]?;
    let names = vec![in alloc; word(alloc, "area")?, word(alloc, "zone")?]?;
    let reply = multi(alloc, &members, &Show::Selected(names))?;
    let wanted = b"*1\r\n*3\r\n$1\r\nm\r\n*2\r\n\
        *2\r\n$4\r\narea\r\n$1\r\nx\r\n*2\r\n$4\r\nzone\r\n$-1\r\n\
        *1\r\n*2\r\n:1\r\n+2\r\n";
    assert!(rt; text(alloc, &reply)?.bytes() == wanted.as_slice());
    Ok(())
}

#[test]
fn all_labels_and_a_row(rt: HostRuntime) -> Result<(), AllocError> {
    let alloc = rt.alloc();
    let members = vec![in alloc; member(alloc, vec![in alloc; row()]?)?]?;
    let reply = multi_last(alloc, &members, &Show::All)?;
    let wanted = b"*1\r\n*3\r\n$1\r\nm\r\n*2\r\n\
        *2\r\n$4\r\nkind\r\n$1\r\ns\r\n*2\r\n$4\r\narea\r\n$1\r\nx\r\n\
        *2\r\n:1\r\n+2\r\n";
    assert!(rt; text(alloc, &reply)?.bytes() == wanted.as_slice());
    Ok(())
}
