// A book whose only rule takes any one code, and drafts that differ from it in a number or two.
use books::{Book, Draft};
use counts::Refusal;
use std::test::Fail;

const ANY: Draft<&'static [u8]> = Draft {
    states: 2,
    classes: 1,
    modes: 1,
    rules: 1,
    class_table: &[0; 256],
    step_table: &[1, 255],
    accept_table: &[255, 0],
    rule_table: &[2, 0],
    start_table: &[0],
};

fn refused(draft: Draft<&[u8]>) -> Option<Refusal> {
    Book::check(draft).err().map(Refusal::from)
}

fn told(number: u8, detail: usize) -> Option<Refusal> {
    Some(Refusal {
        layer: 2,
        number,
        detail,
    })
}

#[test]
fn any_code_is_read(rt: HostRuntime) -> Result<(), Fail> {
    let book = Book::check(ANY)?;
    let start = book.start_state(0);
    assert!(rt; !book.is_closed(start));
    let next = book.step(start, 97);
    assert!(rt; next.is_some());
    assert!(rt; next.is_some_and(|state| book.is_closed(state)));
    assert_eq!(rt; next.and_then(|state| book.accept(state)), Some(0));
    assert_eq!(rt; (book.kind(0), book.next_mode(0)), (2, 0));
    Ok(())
}

#[test]
fn the_first_no_decides(rt: HostRuntime) {
    assert_eq!(rt;
        refused(Draft {
            modes: 17,
            rules: 0,
            ..ANY
        }),
        told(1, 2)
    );
    assert_eq!(rt; refused(Draft { states: 3, ..ANY }), told(2, 1));
    assert_eq!(rt;
        refused(Draft {
            class_table: &[1; 256],
            ..ANY
        }),
        told(3, 0)
    );
    assert_eq!(rt;
        refused(Draft {
            step_table: &[1, 2],
            ..ANY
        }),
        told(4, 1)
    );
    assert_eq!(rt;
        refused(Draft {
            accept_table: &[255, 1],
            ..ANY
        }),
        told(5, 1)
    );
    assert_eq!(rt;
        refused(Draft {
            rule_table: &[1, 0],
            ..ANY
        }),
        told(6, 0)
    );
    assert_eq!(rt;
        refused(Draft {
            start_table: &[1],
            ..ANY
        }),
        told(7, 0)
    );
}
