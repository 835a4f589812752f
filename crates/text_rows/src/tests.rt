use super::*;
use csv::ByteRecord;
use ho_base::NoMemory;
use std::alloc::Global;
use std::test::Fail;

// The rows of a text, with a bar behind each field and a slash behind each row.
fn shown(alloc: Global, text: &[u8]) -> Result<Vec<u8>, NoMemory> {
    let mut reader = new_reader(alloc, text);
    let mut row = ByteRecord::new(alloc);
    let mut all = Vec::new(alloc);
    for _ in 0..text.len() + 1 {
        if !next_row(&mut reader, &mut row)? {
            break;
        }
        for i in 0..row.len() {
            all.extend_from_slice(field_of(&row, i))?;
            all.push(b'|')?;
        }
        all.push(b'/')?;
    }
    Ok(all)
}

#[test]
fn rows_are_read(rt: HostRuntime) -> Result<(), Fail> {
    let text = b"\xef\xbb\xbfa,\"b\"\"c\"\r\n\n\"d\ne\",\rf,,g";
    let rows = shown(rt.alloc(), text)?;
    assert_eq!(rt; rows.as_slice(), b"a|b\"c|/d\ne||/f||g|/".as_slice());
    Ok(())
}

#[test]
fn rows_are_written(rt: HostRuntime) -> Result<(), Fail> {
    let alloc = rt.alloc();
    let mut lines = new_lines(alloc);
    let mut row = ByteRecord::new(alloc);
    start_row(&mut row, b"result")?;
    push_number(&mut row, 18_446_744_073_709_551_615)?;
    push_bytes(&mut row, b"")?;
    push_bytes(&mut row, b"a,b")?;
    put_row(&mut lines, &row)?;
    put_fields(&mut lines, &[b"c", b"\""])?;
    let text = finish_lines(lines)?;
    let want = b"result,18446744073709551615,,\"a,b\"\nc,\"\"\"\"\n";
    assert_eq!(rt; text.as_slice(), want.as_slice());
    let rows = shown(alloc, &text)?;
    assert_eq!(rt;
        rows.as_slice(),
        b"result|18446744073709551615||a,b|/c|\"|/".as_slice()
    );
    texts_tell_rows();
    Ok(())
}

#[test]
fn a_row_by_hand(rt: HostRuntime) -> Result<(), Fail> {
    let fields = [b"missing".as_slice(), b"my \"file\"", b"", b"a\rb", b"c"];
    let line = row_line(rt.alloc(), &fields)?;
    let want = b"missing,\"my \"\"file\"\"\",,\"a\rb\",c\n";
    assert_eq!(rt; line.bytes(), want.as_slice());
    Ok(())
}
