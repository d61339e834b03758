// Listings of the smallest and the longest sheets.
use lister::{LIMIT, list};
use std::test::Fail;

#[test]
fn small_sheets(rt: HostRuntime) -> Result<(), Fail> {
    let heap = rt.alloc();
    let empty = list(heap, b"")?;
    assert_eq!(rt;
        empty.as_str(),
        "    no  kind start   len  read  mode  back\n     0     1     0     0     1     0     0\n"
    );
    let chorus = list(heap, b"<la>\n*")?;
    assert_eq!(rt;
        chorus.as_str(),
        "    no  kind start   len  read  mode  back\n     0     8     0     6     6     0     0\n     1     1     6     0     1     0     0\n"
    );
    Ok(())
}

#[test]
fn longest_sheets(rt: HostRuntime) -> Result<(), Fail> {
    let heap = rt.alloc();
    let mut sheet = vec![in heap; b'<'; LIMIT]?;
    let brackets = list(heap, sheet.as_slice())?;
    // a header, a fault for each bracket and the end token, 43 bytes each with its newline
    assert_eq!(rt; brackets.len(), 43 * (LIMIT + 2));
    sheet.push(b'<')?;
    assert_eq!(rt; list(heap, sheet.as_slice())?.as_str(), "too long\n");
    Ok(())
}
