//! Faulty words, failing reads, and a sink that takes no more.

use super::documents::{APPLY, DELETES_PROF, OF_ANN};
use super::{Row, comes, outcome};
use std::test::Fail;

const DELETES: Row = Row {
    words: APPLY,
    files: &[OF_ANN, DELETES_PROF],
    status: 0,
    printed: "",
};

#[test]
fn faulty_words_are_told(rt: HostRuntime) -> Result<(), Fail> {
    let row = Row {
        words: &["apply", "u.ofn"],
        files: &[OF_ANN],
        status: 2,
        printed: "error words\n",
    };
    comes(&rt, rt.alloc(), row)?;
    Ok(())
}

#[test]
fn a_sink_of_fifteen_bytes_keeps_a_front(rt: HostRuntime) -> Result<(), Fail> {
    let (status, written) = outcome(rt.alloc(), DELETES, 15, &[])?;
    assert_eq!(rt; status, 7);
    assert_eq!(rt; written.as_slice(), b"skipped 0\nlost ".as_slice());
    Ok(())
}

#[test]
fn a_failing_read_is_told(rt: HostRuntime) -> Result<(), Fail> {
    let (first, of_ontology) = outcome(rt.alloc(), DELETES, 4096, &[0])?;
    let (second, of_update) = outcome(rt.alloc(), DELETES, 4096, &[1])?;
    assert_eq!(rt; first, 6);
    assert_eq!(rt;
        of_ontology.as_slice(),
        b"error u.ofn 32 Failed\n".as_slice()
    );
    assert_eq!(rt; second, 6);
    assert_eq!(rt; of_update.as_slice(), b"error u.ru 32 Failed\n".as_slice());
    Ok(())
}
